//! A slot that holds a scan: what entry, show and read ask first.
ghost use Rattle.std.specs.Prelude.{◌≡◌};
ghost use Rattle.look.specs.Slot.{held_of};

use entries::file::File;
use paper::refusal::Refusal;
use paper::sizes::{Run, Sizes};

// The sizes of the file and the run of the slot; or one of open's refusals, 9 or 10. The file is judged as a whole; then the one entry is read.
pub fn find(file: &[u8], slot: usize) -> Result<(Sizes, Run), Refusal>
    ensures { result ≡ held_of file.now slot }
{
    let z = index::judge(file)?;
    if slot == 0 || z.capacity() < slot {
        return Err(Refusal::NoSuchSlot);
    }
    let file = File { bytes: file, z };
    let a = file.run_at(slot);
    if entries::entry::empty(a) {
        return Err(Refusal::EmptySlot);
    }
    Ok((z, a))
}
