//! Whether a file may be changed, as far as its bootstrap tells: an old one is looked at and no more.
ghost use Rattle.std.specs.Prelude.{◌≡◌};
ghost use Rattle.paper.specs.Index.{change_boot_of};
ghost use Rattle.bootstrap.specs.Old.{is_old};

use paper::refusal::Refusal;
use paper::sizes::Sizes;

// The file is long enough to tell, and has the old form.
pub fn old(file: &[u8]) -> bool
    ensures { result ≡ is_old file.now }
{
    512 <= file.len() && lent::read::word32(file, 28) == 0
}

// The judgement of the bootstrap of a file that is to be changed: 2 stands after 1 and before the others.
// Two lines beside judge::boot: one function with a parameter for refusal 2 would be longer.
pub fn boot(file: &[u8]) -> Result<Sizes, Refusal>
    ensures { result ≡ change_boot_of file.now }
{
    if old(file) {
        return Err(Refusal::OldForm);
    }
    super::judge::boot(file)
}
