//! The slots as they come, as far as each run lies past those of the smaller slots: so do most files, and one pass judges them.
ghost use Rattle.std.specs.Prelude.{◌≡◌, true, ◌*◌, ◌+◌, ◌≤◌, length};
ghost use Rattle.paper.specs.Sizes.{Ranged};
ghost use Rattle.paper.specs.Index.{Booted};
ghost use Rattle.index.specs.Judging.{Still, JudgedTo};

use entries::file::File;
use paper::sizes::{Run, Sizes};

// Not `max`: with it an open of rising runs takes 2.2 times as long.
pub fn higher(a: usize, b: usize) -> usize
    ensures { (a ≤ result) × (b ≤ result) }
{
    if a < b {
        return b;
    }
    a
}

// The run is empty, or in order and past record `top`.
// One test after another: as one expression an open of rising runs takes 2.2 times as long.
pub fn still(a: Run, top: usize) -> bool
    ensures { result ≡ true → Still a top }
{
    if a.first == 0 {
        return a.last == 0;
    }
    if a.first <= top {
        return false;
    }
    a.first <= a.last
}

// The first `j` slots, none of which reaches past `top`; or none of them, where that is past the last record.
fn within(j: usize, top: usize, z: Sizes) -> usize
    requires { Ranged z }
    ensures { (result ≤ j) × (1 ≤ result → (result ≡ j) × (top ≤ z.n + z.d)) }
{
    if z.n + z.d < top {
        return 0;
    }
    j
}

// How many slots, from the first on, are decoded and break no rule since they rise. The last record is tried once, on the highest.
pub fn rise(file: File, row: &mut [u32]) -> usize
    requires u_in_bounds { 2 * file.z.u ≤ length row.old }
    ensures { JudgedTo file.entry.bytes.now file.entry.z row.new result }
{
    let u = file.z.u;
    let mut top = file.z.n;
    let mut i = 0;
    while i < u {
        let a = file.put_run(i + 1, &mut *row);
        if !still(a, top) {
            return within(i, top, file.z);
        }
        top = higher(top, a.last);
        i = super::skip::skip(&file, a, i + 1, &mut *row);
    }
    within(i, top, file.z)
}
