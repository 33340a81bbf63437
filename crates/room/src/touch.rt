//! What stands in the way of a place: the scan that has one of its records.
ghost use Rattle.std.specs.Prelude.{◌≡◌, true, ◌+◌, ◌*◌, ◌≤◌, ◌<◌, length};
ghost use Rattle.lent.specs.Least.{some_number};
ghost use Rattle.paper.specs.Index.{row_run, sharer};
ghost use Rattle.paper.specs.Store.{run_from};
ghost use Rattle.room.specs.Passing.{Sought, Missed};

use paper::sizes::{Run, Sizes};

// The `k` records after record `i`.
pub fn span(i: usize, k: usize) -> Run
    requires { (i ≤ 1000000) × (k ≤ 65536) }
    ensures { result ≡ run_from (i + 1) k }
{
    Run {
        first: i + 1,
        last: i + k,
    }
}

// 1 where the records `first` to `last` go past record `i` and start before record `e`.
fn meets(first: u32, last: u32, i: u32, e: u32) -> u32
    ensures { (result ≤ 1) × (result ≡ 0 → i < last → e ≤ first) }
{
    u32::from(i < last && first < e)
}

// Whether no scan has a record after `i` and before `e`. It does not stop at the first that has, so that several slots are tried at once.
fn none_meets(row: &[u32], u: usize, i: u32, e: u32) -> bool
    requires { (2 * u ≤ length row.now) × (u ≤ 4096) }
    ensures { result ≡ true → Missed (row_run row.now) u i e }
{
    let mut met = 0;
    for x in 0..u {
        met += meets(row[2 * x], row[2 * x + 1], i, e);
    }
    met == 0
}

// The lowest slot whose scan has one of the `k` records after record `i`. Mostly none has, and that is the quicker to see.
pub fn touched(row: &[u32], z: Sizes, k: usize, i: usize) -> Option<usize>
    requires sought { Sought row.now z k }
    requires i_bound { i ≤ 1000000 }
    ensures { result ≡ some_number (sharer (row_run row.now) (run_from (i + 1) k) z.u) }
{
    let u = z.u;
    if none_meets(row, u, i as u32, (i + k + 1) as u32) {
        return None;
    }
    let a = span(i, k);
    entries::row::sharer(row, a, u)
}
