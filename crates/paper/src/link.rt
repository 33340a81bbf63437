//! A link: what is known of a file whose bytes come in pieces.

#[derive(Clone, Copy)]
pub struct Link {
    // The file's length, as it was given first.
    pub span: usize,
    // How many bytes came that count.
    pub came: usize,
    // The byte at which the index ends; 0 as long as the bootstrap has not come, and where it breaks a rule.
    pub ends: usize,
    // The first 32 bytes, as far as they came.
    // An array with its count beside it, as in the C struct; in a job likewise.
    pub boot: [u8; 32],
}

impl Link {
    pub const ZEROS: Link = Link {
        span: 0,
        came: 0,
        ends: 0,
        boot: [0u8; 32],
    };
}
