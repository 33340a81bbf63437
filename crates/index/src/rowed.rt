//! A file judged with a row lent to it, for the calls that go on with the runs.
ghost use Rattle.std.specs.Prelude.{◌≤◌, length};
ghost use Rattle.index.specs.Judging.{Judged};

use super::slots;
use paper::refusal::Refusal;
use paper::sizes::Sizes;

// The judgement; the row then holds the runs of a file that opens.
pub fn judged(file: &[u8], row: &mut [u32]) -> Result<Sizes, Refusal>
    requires { 8192 ≤ length row.old }
    ensures { Judged file.now row.new result }
{
    let z = bootstrap::judge::boot(file)?;
    slots::judge_row(file, z, row)
}
