//! Past the places that a scan stands in: by the marks of the records, or slot by slot.
ghost use Rattle.std.specs.Prelude.{◌≤◌, ◌<◌};
ghost use Rattle.marks.specs.Marks.{Blocked};
ghost use Rattle.paper.specs.Index.{row_run};
ghost use Rattle.room.specs.Passing.{Sought, Hints, Passed};

use paper::sizes::Sizes;

// Goes past the scan of slot `t` + 1 where it has one of the `k` records after record `i`.
fn step(row: &[u32], z: Sizes, k: usize, i: usize, t: usize) -> usize
    requires sought { Sought row.now z k }
    requires t_lt_u { t < z.u }
    requires passed { Passed (row_run row.now) z k i }
    ensures { Passed (row_run row.now) z k result }
{
    let a = super::touch::span(i, k);
    let b = entries::row::run_in(row, t + 1);
    if entries::entry::shares(a, b) {
        return b.last;
    }
    i
}

// The same for each slot in turn. In whatever order their records come, none of the records passed starts a free place.
fn sweep(row: &[u32], z: Sizes, k: usize) -> usize
    requires { Sought row.now z k }
    ensures { Passed (row_run row.now) z k result }
{
    let mut i = z.n;
    for x in 0..z.u {
        i = step(row, z, k, i, x);
    }
    i
}

// Past the places after `from` in which a marked record lies, as far as `k` records end within the room.
fn pass_marks(marks: &[u64], k: usize, from: usize, room: usize) -> usize
    requires { (1 ≤ k) × (k ≤ 65536) × (room ≤ 1000000) }
    ensures { Blocked marks.now k from result }
{
    if room < k {
        return from;
    }
    let top = room - k;
    let mut i = from;
    while i <= top {
        let j = marks::past::past(marks, i, k);
        if j <= i {
            return i;
        }
        i = j;
    }
    i
}

// By the marks where record 0 is marked: then each marked record past N is of a scan.
pub fn pass(row: &[u32], marks: &[u64], z: Sizes, k: usize, room: usize) -> usize
    requires sought { Sought row.now z k }
    requires hints { Hints marks.now z (row_run row.now) }
    requires room_bound { room ≤ 1000000 }
    ensures { Passed (row_run row.now) z k result }
{
    if marks::past::taken(marks, 0) {
        let n = z.n;
        return pass_marks(marks, k, n, room);
    }
    sweep(row, z, k)
}
