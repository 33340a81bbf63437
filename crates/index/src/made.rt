//! Row and marks as long as the sizes ask for: short ones are less to make ready. What is to be done with them comes as a closure.
ghost use Rattle.std.specs.Prelude.{◌≡◌, ◌*◌, ◌+◌, ◌≤◌, ◌<◌, length};
ghost use Rattle.marks.specs.Marks.{Clear};
ghost use Rattle.paper.specs.Sizes.{Ranged};
ghost use Rattle.index.specs.Judging.{Reach};

use paper::sizes::Sizes;

// A row of W numbers, two for each slot.
fn row_of<const W: usize, R, F: FnOnce(&mut [u32]) -> R>(z: Sizes, f: F) -> R
    requires wide { (2 * z.u ≤ W) × (W ≤ 8192) }
    requires may { (row : _) → 2 * z.u ≤ length row.now → F.pre f row }
    ensures { (row : _) × (left : _) × F.post f row result left }
{
    let mut row = [0u32; W];
    f(&mut row)
}

// A row that is long enough for the slots in use.
pub fn with_row<R, F: FnOnce(&mut [u32]) -> R>(z: Sizes, f: F) -> R
    requires ranged { Ranged z }
    requires may { (row : _) → 2 * z.u ≤ length row.now → F.pre f row }
    ensures { (row : _) × (left : _) × F.post f row result left }
{
    if z.u <= 1024 {
        return row_of::<2048, R, F>(z, f);
    }
    row_of::<8192, R, F>(z, f)
}

// N words of marks, 64 in each, beside the row that was lent.
fn marks_of<const N: usize, R, F: FnOnce(&mut [u32], &mut [u64]) -> R>(
    z: Sizes,
    row: &mut [u32],
    f: F,
) -> R
    requires long { (z.n + z.d < 64 * N) × (N ≤ 15626) }
    requires may { (r : _) (marks : _) → r.now ≡ row.old → Reach z marks.now → Clear marks.now → F.pre f r marks }
    ensures { (r : _) × (marks : _) × (left : _) × (laid : _) × (left.now ≡ row.new) × F.post f r marks result left laid }
{
    let mut marks = [0u64; N];
    f(row, &mut marks)
}

// Marks that reach each record of the file; an old file has fewer than 65,536 records.
pub fn with_marks<R, F: FnOnce(&mut [u32], &mut [u64]) -> R>(z: Sizes, row: &mut [u32], f: F) -> R
    requires ranged { Ranged z }
    requires may { (r : _) (marks : _) → r.now ≡ row.old → Reach z marks.now → Clear marks.now → F.pre f r marks }
    ensures { (r : _) × (marks : _) × (left : _) × (laid : _) × (left.now ≡ row.new) × F.post f r marks result left laid }
{
    let last = z.n + z.d;
    if last < 16384 {
        return marks_of::<256, R, F>(z, row, f);
    }
    if last < 65536 {
        return marks_of::<1024, R, F>(z, row, f);
    }
    marks_of::<15626, R, F>(z, row, f)
}

// Both.
pub fn with_both<R, F: FnOnce(&mut [u32], &mut [u64]) -> R>(z: Sizes, f: F) -> R
    requires ranged { Ranged z }
    requires may { (row : _) (marks : _) → 2 * z.u ≤ length row.now → Reach z marks.now → Clear marks.now → F.pre f row marks }
    ensures { (row : _) × (marks : _) × (left : _) × (laid : _) × F.post f row marks result left laid }
{
    with_row(z, |row| with_marks(z, row, f))
}
