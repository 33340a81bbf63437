//! An index entry's fields.

// What the mode makes of bytes 36 to 47: the type code, and the two values with their names.
#[derive(Clone, Copy)]
pub enum Kind {
    // Frequency resolution, and rest frequency in MHz.
    Spectral(usize, f32, f64),
    // Slew rate, and integration time.
    Continuum(usize, f32, f64),
    // The two fields unnamed.
    Other(f32, f64),
}

// Bytes 0 to 61, of the old form 0 to 59. Each Real is kept as its bits.
#[derive(Clone, Copy)]
pub struct Entry {
    pub first: u32,
    pub last: u32,
    pub horizontal: u32,
    pub vertical: u32,
    pub source: [u8; 16],
    pub scan: u32,
    pub field4: u32,
    pub field8: u64,
    pub lst: u32,
    pub date: u32,
    pub mode: i16,
    pub number: i16,
    pub position: i16,
    // Of the old form alone; 0 in the current one.
    pub magic: i16,
    pub kind: Kind,
}

impl Entry {
    pub const ZEROS: Entry = Entry {
        first: 0,
        last: 0,
        horizontal: 0,
        vertical: 0,
        source: [0u8; 16],
        scan: 0,
        field4: 0,
        field8: 0,
        lst: 0,
        date: 0,
        mode: 0,
        number: 0,
        position: 0,
        magic: 0,
        kind: Kind::Other(0.0, 0.0),
    };
}
