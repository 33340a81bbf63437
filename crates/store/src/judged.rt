//! A save or keep on a file that is judged first, in the row and the marks that the search for the place then needs.
ghost use Rattle.std.specs.Prelude.{◌≡◌, ◌*◌, ◌≤◌, length};
ghost use Rattle.marks.specs.Marks.{Clear};
ghost use Rattle.index.specs.Judging.{Reach};
ghost use Rattle.store.specs.Beginning.{Headed, begun_of};

use super::rowed::Rowed;
use entries::file::File;
use index::made;
use paper::job::Job;
use paper::refusal::Refusal;
use paper::sizes::Sizes;

// Where the scan goes: to a slot that is named, or to the lowest empty one.
#[derive(Clone, Copy)]
pub enum Goal {
    Slot(usize),
    LowestEmpty,
}

// The index is decoded once: the judgement leaves its runs in the row, and in the marks where they do not rise.
// A list of seven: a closure that captures a struct with a lifetime gets no clauses of its own.
fn judged(
    file: &[u8],
    z: Sizes,
    goal: Goal,
    scan: &[u8],
    about: &[u8; 54],
    row: &mut [u32],
    marks: &mut [u64],
) -> Result<Job, Refusal>
    requires headed { Headed file.now z }
    requires u_in_bounds { 2 * z.u ≤ length row.old }
    requires reach { Reach z marks.old × Clear marks.old }
    ensures { result ≡ begun_of file.now goal scan.now about.now }
{
    index::slots::judge_lent(File { bytes: file, z }, &mut *row, &mut *marks)?;
    let rowed = Rowed {
        file,
        z,
        row: &*row,
        marks: &*marks,
    };
    rowed.begun(goal, scan, about)
}

// An old file goes no further.
pub fn begun(file: &[u8], goal: Goal, scan: &[u8], about: &[u8; 54]) -> Result<Job, Refusal>
    ensures { result ≡ begun_of file.now goal scan.now about.now }
{
    let z = bootstrap::change::boot(file)?;
    made::with_both(
        z,
        |row, marks| judged(file, z, goal, scan, about, row, marks),
    )
}
