//! The data records in order: past those that a mark shows to be listed, and past those that are all zeros.
ghost use Rattle.std.specs.Prelude.{◌≡◌, true, ◌+◌, ◌≤◌, ◌<◌};
ghost use Rattle.paper.specs.Gaps.{left_at, gaps_zero};
ghost use Rattle.index.specs.Judging.{Decoded, Reach};
ghost use Rattle.gaps.specs.Held.{Held, Next};

use paper::sizes::{Run, Sizes};

// Marks the records up to N and those of every scan, or answers that a mark was met: such marks are of no use, and no file that opens makes them.
fn mark(file: &[u8], z: Sizes, row: &[u32], marks: &mut [u64]) -> bool
    requires decoded { Decoded file.now z row.now z.u }
    requires reach { Reach z marks.old }
    ensures { result ≡ true → Held file.now z marks.new }
{
    marks::clear(&mut *marks);
    marks::take_run(&mut *marks, 0, z.n) && z.u <= index::lay::lay_rest(row, z, 0, marks)
}

// Record `r` is in no listed scan and not all zeros. The slots are tried only for a record that is not zeros.
fn left(file: &[u8], z: Sizes, row: &[u32], r: usize) -> bool
    requires decoded { Decoded file.now z row.now z.u }
    requires n_lt_r { (z.n < r) × (r ≤ z.n + z.d) }
    ensures { result ≡ left_at file.now z r }
{
    let at = (r - 1) * z.l;
    if lent::compare::all_zero(&file[at..at + z.l]) {
        return false;
    }
    let a = Run { first: r, last: r };
    entries::row::sharer(row, a, z.u).is_none()
}

// The record to look at after record `r`, which is past a scan where `r` is marked; or none, where record `r` is left.
fn after(file: &[u8], z: Sizes, row: &[u32], marks: &[u64], r: usize) -> Option<usize>
    requires decoded { Decoded file.now z row.now z.u × Held file.now z marks.now }
    requires n_lt_r { (z.n < r) × (r ≤ z.n + z.d) }
    ensures { Next file.now z r result }
{
    if marks::past::taken(marks, r) {
        return Some(marks::past::past_ones(marks, r + 1));
    }
    if left(file, z, row, r) {
        return None;
    }
    Some(r + 1)
}

// Whether no data record is left, by marks that show listed ones, or none.
fn none_left(file: &[u8], z: Sizes, row: &[u32], marks: &[u64]) -> bool
    requires { Decoded file.now z row.now z.u × Held file.now z marks.now }
    ensures { result ≡ gaps_zero file.now z }
{
    let last = z.n + z.d;
    let mut r = z.n + 1;
    while r <= last {
        let Some(x) = after(file, z, row, marks, r) else {
            return false;
        };
        r = x;
    }
    true
}

// The same with marks lent to it, of which none is set yet.
pub fn walk(file: &[u8], z: Sizes, row: &[u32], marks: &mut [u64]) -> bool
    requires decoded { Decoded file.now z row.now z.u }
    requires reach { Reach z marks.old }
    ensures { result ≡ gaps_zero file.now z }
{
    if mark(file, z, row, &mut *marks) {
        return none_left(file, z, row, &*marks);
    }
    none_left(file, z, row, &marks[..0])
}
