//! What an entry's run is: empty, in range, or in another's way.
ghost use Rattle.std.specs.Prelude.{◌≡◌};
ghost use Rattle.paper.specs.Index.{empty, in_data, shares};
ghost use Rattle.paper.specs.Store.{many_of};

use paper::sizes::{Run, Sizes};

pub fn empty(a: Run) -> bool
    ensures { result ≡ empty a }
{
    a.first == 0 && a.last == 0
}

// How many records the run has.
pub fn many(a: Run) -> usize
    ensures { result ≡ many_of a }
{
    a.last.saturating_sub(a.first.saturating_sub(1))
}

// The run lies in the data records.
pub fn in_data(a: Run, z: Sizes) -> bool
    ensures { result ≡ in_data z a }
{
    if a.first <= z.n {
        return false;
    }
    if a.last < a.first {
        return false;
    }
    a.last - z.n <= z.d
}

// Two runs have a record in common.
pub fn shares(a: Run, b: Run) -> bool
    ensures { result ≡ shares a b }
{
    if a.last == 0 {
        return false;
    }
    if b.last == 0 {
        return false;
    }
    a.first <= b.last && b.first <= a.last
}
