//! Whether a file may be changed.
ghost use Rattle.std.specs.Prelude.{◌≡◌};
ghost use Rattle.paper.specs.Index.{change_of};

use paper::refusal::Refusal;
use paper::sizes::Sizes;

// The judgement of a file that is to be changed: an old one is refused with 2.
pub fn judge(file: &[u8]) -> Result<Sizes, Refusal>
    ensures { result ≡ change_of file.now }
{
    if bootstrap::change::old(file) {
        return Err(Refusal::OldForm);
    }
    super::judge(file)
}
