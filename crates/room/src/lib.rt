//! Where a scan can go: the lowest empty slot, and the lowest place of k records that belong to no scan.
#![tactic(auto)]

ghost use Rattle.std.specs.Prelude.{◌≡◌, ◌*◌, ◌≤◌, length};
ghost use Rattle.lent.specs.Least.{some_number};
ghost use Rattle.paper.specs.Sizes.{Ranged};
ghost use Rattle.paper.specs.Store.{free_place};
ghost use Rattle.paper.specs.Index.{row_run};
ghost use Rattle.room.specs.Passing.{Sought, Hints, Passed, Vacant};

use paper::sizes::Sizes;

mod pass;
mod touch;

// The lowest empty slot. The row holds the slots in use; those above are empty.
pub fn lowest_empty(row: &[u32], z: Sizes) -> Option<usize>
    requires ranged { Ranged z }
    requires u_in_bounds { 2 * z.u ≤ length row.now }
    ensures { Vacant row.now z result }
{
    for i in 0..z.u {
        let a = entries::row::run_in(row, i + 1);
        if entries::entry::empty(a) {
            return Some(i + 1);
        }
    }
    if z.capacity() <= z.u {
        return None;
    }
    Some(z.u + 1)
}

// The lowest free place past record `from`: past each scan that is met, until none is.
fn settle(row: &[u32], z: Sizes, len: usize, k: usize, from: usize) -> Option<usize>
    requires sought { Sought row.now z k }
    requires passed { Passed (row_run row.now) z k from }
    ensures { result ≡ some_number (free_place z len (row_run row.now) k) }
{
    let room = z.room(len);
    let mut i = from;
    while i + k <= room {
        let Some(t) = touch::touched(row, z, k, i) else {
            return Some(i + 1);
        };
        let b = entries::row::run_in(row, t);
        i = b.last;
    }
    None
}

// The lowest record from which `k` records lie within the room of `len` bytes and belong to no scan. The marks, or a pass over the slots, lead near it; what is found is certified by one pass over all.
pub fn lowest_free(row: &[u32], marks: &[u64], z: Sizes, len: usize, k: usize) -> Option<usize>
    requires sought { Sought row.now z k }
    requires hints { Hints marks.now z (row_run row.now) }
    ensures { result ≡ some_number (free_place z len (row_run row.now) k) }
{
    let room = z.room(len);
    let i = pass::pass(row, marks, z, k, room);
    settle(row, z, len, k, i)
}
