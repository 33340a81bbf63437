//! A file judged: its bootstrap, then its index by one pass over the entries, which leaves their runs in a row.
//! Row and marks are lent slices and stay so: C lends the row, and memory is fixed. What is known of them changes in the loops that keep it, so that it stands in contracts and in no type.
#![tactic(auto)]

ghost use Rattle.std.specs.Prelude.{◌≡◌, ◌*◌, ◌≤◌};
ghost use Rattle.paper.specs.Refusals.{opened_says};
ghost use Rattle.paper.specs.Index.{index_of, open_of, run_of, Booted};

use entries::file::File;
use paper::refusal::Refusal;
use paper::sizes::Sizes;

pub mod change;
pub mod lay;
pub mod made;
pub mod rise;
pub mod rowed;
mod skip;
pub mod slots;

// An index of which no slot is in use has nothing to decode.
fn judge_sized(file: File) -> Result<Sizes, Refusal>
    ensures { result ≡ index_of file.entry.z (run_of file.entry.bytes.now file.entry.z) }
{
    if file.z.u == 0 {
        return file.judge_above();
    }
    let File { bytes, z } = file;
    made::with_row(z, |row| slots::judge_row(bytes, z, row))
}

// The judgement where the runs are not asked for.
pub fn judge(file: &[u8]) -> Result<Sizes, Refusal>
    ensures { result ≡ open_of file.now }
{
    let z = bootstrap::judge::boot(file)?;
    judge_sized(File { bytes: file, z })
}

// 01's call: the sizes of a file that opens, or which of the refusals 1 and 3 to 8 it gets.
pub fn open(file: &[u8]) -> Result<Sizes, Refusal>
    ensures { opened_says result ≡ opened_says (open_of file.now) }
{
    judge(file)
}
