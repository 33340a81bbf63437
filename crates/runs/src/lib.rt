//! The index judged by its runs in the row, refusals 6 to 8: by their order where they rise, by marks where they do not, and by the plain rules where a mark is met.
#![tactic(auto)]

ghost use Rattle.std.specs.Prelude.{◌≡◌, true, ◌+◌, ◌*◌, ◌≤◌, ◌<◌, length};
ghost use Rattle.lent.specs.Least.{least, some_number};
ghost use Rattle.marks.specs.Marks.{Clear};
ghost use Rattle.paper.specs.Sizes.{capacity_of, Ranged};
ghost use Rattle.paper.specs.Index.{row_run, above_at, index_of};
ghost use Rattle.entries.specs.Row.{Fits};
ghost use Rattle.index.specs.Judging.{Reach};

use paper::refusal::Refusal;
use paper::sizes::Sizes;

// The runs of the slots in use rise, and end in the file.
fn rising(row: &[u32], z: Sizes) -> bool
    requires { Ranged z × (8192 ≤ length row.now) }
    ensures { result ≡ true → Fits z (row_run row.now) z.u }
{
    let mut top = z.n;
    for i in 0..z.u {
        let a = entries::row::run_in(row, i + 1);
        if !index::rise::still(a, top) {
            return false;
        }
        top = top.max(a.last);
    }
    top <= z.n + z.d
}

// The lowest slot above U that is not empty. Not shared with the file, whose search leaps over empty slots first; a row has nothing to leap by.
fn lowest_above(row: &[u32], z: Sizes) -> Option<usize>
    requires { Ranged z × (8192 ≤ length row.now) }
    ensures { result ≡ some_number (least (above_at z (row_run row.now)) (capacity_of z)) }
{
    for i in z.u..z.capacity() {
        let a = entries::row::run_in(row, i + 1);
        if !entries::entry::empty(a) {
            return Some(i + 1);
        }
    }
    None
}

// Refusals 6 to 8, or the sizes. The first `from` slots are known to break no rule.
fn judge_from(row: &[u32], z: Sizes, from: usize) -> Result<Sizes, Refusal>
    requires ranged { Ranged z × (8192 ≤ length row.now) }
    requires from_le_u { (from ≤ z.u) × Fits z (row_run row.now) from }
    ensures { result ≡ index_of z (row_run row.now) }
{
    entries::plain::judge_with(
        row,
        z,
        from,
        || -> Option<usize>
            requires { Ranged z × (8192 ≤ length row.now) }
            ensures { result ≡ some_number (least (above_at z (row_run row.entry.now)) (capacity_of z)) }
        { lowest_above(row, z) },
    )
}

// How many slots break no rule, as far as marks can tell.
fn laid(row: &[u32], z: Sizes, marks: &mut [u64]) -> usize
    requires ranged { Ranged z × (8192 ≤ length row.now) }
    requires reach { Reach z marks.old × Clear marks.old }
    ensures { (result ≤ z.u) × Fits z (row_run row.now) result }
{
    let n = z.n;
    if !marks::take_run(&mut *marks, 0, n) {
        return 0;
    }
    index::lay::lay_rest(row, z, 0, marks)
}

// The same judged with marks for fewer than 64 * `N` records: less to make ready where the file is small.
fn judge_marks<const N: usize>(row: &[u32], z: Sizes) -> Result<Sizes, Refusal>
    requires ranged { Ranged z × (8192 ≤ length row.now) }
    requires reach { (z.n + z.d < 64 * N) × (N ≤ 15626) }
    ensures { result ≡ index_of z (row_run row.now) }
{
    let mut marks = [0u64; N];
    let k = laid(row, z, &mut marks);
    judge_from(row, z, k)
}

// The judgement of an index of which the row holds every slot's run.
pub fn judge(row: &[u32], z: Sizes) -> Result<Sizes, Refusal>
    requires { Ranged z × (8192 ≤ length row.now) }
    ensures { result ≡ index_of z (row_run row.now) }
{
    if rising(row, z) {
        return judge_from(row, z, z.u);
    }
    if z.n + z.d < 16384 {
        return judge_marks::<256>(row, z);
    }
    judge_marks::<15626>(row, z)
}
