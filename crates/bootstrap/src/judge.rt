//! The bootstrap judged: refusals 1 and 3 to 5.
ghost use Rattle.std.specs.Prelude.{◌≡◌};
ghost use Rattle.paper.specs.Index.{boot_of, sized_of};

use paper::refusal::Refusal;
use paper::sizes::Sizes;

// Refusals 3 to 5: what is judged of the sizes, and of the length of a file that states them.
pub fn sized(len: usize, z: Sizes) -> Result<Sizes, Refusal>
    ensures { result ≡ sized_of len z }
{
    if 1 < z.version {
        return Err(Refusal::UnknownForm);
    }
    if !super::ranges::in_range(z) {
        return Err(Refusal::OutOfRange);
    }
    if len < (z.n + z.d) * z.l {
        return Err(Refusal::PastEnd);
    }
    Ok(z)
}

// The judgement of the bootstrap alone.
pub fn boot(file: &[u8]) -> Result<Sizes, Refusal>
    ensures { result ≡ boot_of file.now }
{
    let len = file.len();
    if len < 512 {
        return Err(Refusal::TooShort);
    }
    let z = super::words::sizes_at(file);
    sized(len, z)
}
