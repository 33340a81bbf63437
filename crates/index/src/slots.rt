//! The index judged, refusals 6 to 8: by its order where the runs rise, by marks where they do not, and by the plain rules where a mark is met.
ghost use Rattle.std.specs.Prelude.{◌≡◌, ◌*◌, ◌+◌, ◌≤◌, ◌<◌, length};
ghost use Rattle.marks.specs.Marks.{Clear};
ghost use Rattle.paper.specs.Index.{run_of, index_of, Booted};
ghost use Rattle.entries.specs.Row.{Runs, Fits};
ghost use Rattle.index.specs.Judging.{Decoded, Reach, Looked};

use super::made;
use entries::file::File;
use paper::refusal::Refusal;
use paper::sizes::Sizes;

// The rest of an index whose first `j` slots rise. Where the marks met a doubt they are of no use: record 0 says so.
fn judge_rest(
    file: &[u8],
    z: Sizes,
    j: usize,
    row: &mut [u32],
    marks: &mut [u64],
) -> Result<Sizes, Refusal>
    requires decoded { Decoded file.now z row.old j }
    requires j_lt_u { (j < z.u) × Fits z (run_of file.now z) j }
    requires reach { Reach z marks.old × Clear marks.old }
    ensures { Looked file.now z row.new marks.new result }
{
    let file = File { bytes: file, z };
    let k = super::lay::lay(file, j, &mut *row, &mut *marks);
    if k < z.u {
        file.fill(k, &mut *row);
        marks[0] = 0;
        return file.judge_plain(&*row, k);
    }
    file.judge_above()
}

// The judgement with row and marks lent to it.
pub fn judge_lent(file: File, row: &mut [u32], marks: &mut [u64]) -> Result<Sizes, Refusal>
    requires u_in_bounds { 2 * file.z.u ≤ length row.old }
    requires reach { Reach file.z marks.old × Clear marks.old }
    ensures { Looked file.entry.bytes.now file.entry.z row.new marks.new result }
{
    let j = super::rise::rise(file, &mut *row);
    if j < file.z.u {
        return judge_rest(file.bytes, file.z, j, row, marks);
    }
    file.judge_above()
}

// The judgement with a row lent to it, and marks of its own only where the runs do not rise. A closure that held a `File` would promise nothing, so it holds the bytes and the
// sizes.
pub fn judge_row(file: &[u8], z: Sizes, row: &mut [u32]) -> Result<Sizes, Refusal>
    requires booted { Booted file.now z }
    requires u_in_bounds { 2 * z.u ≤ length row.old }
    ensures value { result ≡ index_of z (run_of file.now z) }
    ensures runs { Runs file.now z row.new z.u }
{
    let booted = File { bytes: file, z };
    let j = super::rise::rise(booted, &mut *row);
    if z.u <= j {
        return booted.judge_above();
    }
    made::with_marks(z, row, |row, marks| judge_rest(file, z, j, row, marks))
}
