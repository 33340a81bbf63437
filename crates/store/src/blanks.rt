//! A blank file: N records, of which the first begins with the bootstrap and all else is zeros.
ghost use Rattle.std.specs.Prelude.{◌≡◌};
ghost use Rattle.paper.specs.Store.{blank_of, blank_file};
ghost use Rattle.store.specs.Blank.{blank_fits};

use paper::refusal::Refusal;
use paper::sizes::Sizes;

// The sizes are in their ranges, and the file is long enough.
fn fits(len: usize, z: Sizes) -> bool
    ensures { result ≡ blank_fits len z }
{
    bootstrap::ranges::shaped(z) && z.n * z.l <= len
}

// One write: the bootstrap and zeros after it. Nothing beyond the N records is touched.
pub fn blanked(file: &mut [u8], n: usize, l: usize, m: usize) -> Result<(), Refusal>
    ensures value { result ≡ blank_of file.old n l m }
    ensures file_after { file.new ≡ blank_file file.old n l m }
{
    let z = Sizes {
        n,
        d: 0,
        l,
        m,
        u: 0,
        counter: 0,
        kind: 0,
        version: 1,
    };
    if !fits(file.len(), z) {
        return Err(Refusal::BadBlank);
    }
    let b = writes::boot::boot_bytes(z);
    lent::write::put_padded(file, 0, n * l, &b);
    Ok(())
}
