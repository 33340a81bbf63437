//! Slots in use that are empty: gone past four at a time.
ghost use Rattle.std.specs.Prelude.{◌*◌, ◌≤◌};
ghost use Rattle.entries.specs.Row.{Runs, Bare};
ghost use Rattle.index.specs.Judging.{Decoded, Skipped};

use entries::file::File;
use paper::sizes::{Run, Sizes};

// The row of the slots after slot `i`, up to slot `j`, which are empty.
fn blank(file: File, i: usize, j: usize, row: &mut [u32])
    requires decoded { Decoded file.bytes.now file.z row.old i }
    requires j_le_u { (j ≤ file.z.u) × Bare file.bytes.now file.z i j }
    ensures { Runs file.entry.bytes.now file.entry.z row.new j }
{
    for x in i..j {
        row[2 * x] = 0;
        row[2 * x + 1] = 0;
    }
}

// Goes past the empty slots after slot `i`. Most slots of a judged file are not empty: the way here stays out of the loop that calls `skip`, and the file is not copied
// for it.
#[cold]
#[inline(never)]
fn past(file: &File, i: usize, row: &mut [u32]) -> usize
    requires { Decoded file.now.bytes.now file.now.z row.old i }
    ensures { Skipped file.now.bytes.now file.now.z row.new i result }
{
    let u = file.z.u;
    let j = file.past_empty(i, u);
    blank(*file, i, j, row);
    j
}

// The same where the run just read, that of slot `i`, is empty.
pub fn skip(file: &File, a: Run, i: usize, row: &mut [u32]) -> usize
    requires { Decoded file.now.bytes.now file.now.z row.old i }
    ensures { Skipped file.now.bytes.now file.now.z row.new i result }
{
    if a.last != 0 {
        return i;
    }
    past(file, i, row)
}
