//! A file whose bootstrap is judged, and what it says of its slots.
ghost use Rattle.std.specs.Prelude.{◌≡◌, true, ◌+◌, ◌≤◌, length};
ghost use Rattle.lent.specs.Number.{Plain, widened};
ghost use Rattle.paper.specs.Sizes.{capacity_of};
ghost use Rattle.paper.specs.Index.{Booted};
ghost use Rattle.entries.specs.Row.{Begins, Stated, Filled, Bare};

use paper::sizes::{Run, Sizes};

// Two 16-bit numbers, of which one or both may be negative.
fn spread(a: u16, b: u16) -> Run
    ensures { Plain (widened a) 4294967296 result.first × Plain (widened b) 4294967296 result.last }
{
    Run {
        first: super::row::wide(lent::read::widened(a)),
        last: super::row::wide(lent::read::widened(b)),
    }
}

// First and last record where an old entry begins: 16 bits each. Those of a scan are in order and not negative, and are taken as they are. (The test is one
// less than it could be: at 32,767 it would be one of the first byte alone, and the compiler would load the bytes one by one. Joined by `||` the two tests make an
// open of an old index that rises take 1.25 times as long.)
fn old_run(file: &[u8], at: usize) -> Run
    requires { at + 8 ≤ length file.now }
    ensures { Begins 0 file.now at result }
{
    let a = lent::read::load16(file, at);
    let b = lent::read::load16(file, at + 2);
    if b < a {
        spread(a, b)
    } else if 32766 < b {
        spread(a, b)
    } else {
        Run {
            first: a as usize,
            last: b as usize,
        }
    }
}

// Where one of the current form begins: 32 bits each. The last is loaded first: bytes that both forms begin with would be loaded one by one, before it is
// asked which form it is.
fn current_run(file: &[u8], at: usize) -> Run
    requires { at + 8 ≤ length file.now }
    ensures { Begins 1 file.now at result }
{
    let last = lent::read::load32(file, at + 4);
    let first = lent::read::load32(file, at);
    Run {
        first: super::row::wide(first),
        last: super::row::wide(last),
    }
}

// The file's bytes and the sizes that its bootstrap states: every slot up to the capacity lies in the file.
#[derive(Clone, Copy)]
pub struct File<'a> {
    pub bytes: &'a [u8],
    pub z: Sizes,
    pub ghost booted: { Booted bytes.now z },
}

impl<'a> File<'a> {
    // The run of slot `s`, from its entry. The home costs no division, and the form is asked once for both numbers.
    pub fn run_at(self, s: usize) -> Run
        requires { (1 ≤ s) × (s ≤ capacity_of self.z) }
        ensures { Stated self.entry.bytes.now self.entry.z s result }
    {
        let at = self.z.home(s);
        if self.z.version == 0 {
            return old_run(self.bytes, at);
        }
        current_run(self.bytes, at)
    }

    // A number that is 0 only where slot `s` is empty: of an old entry both numbers at once.
    pub fn filled_at(self, s: usize) -> usize
        requires { (1 ≤ s) × (s ≤ capacity_of self.z) }
        ensures { Filled self.entry.bytes.now self.entry.z s result }
    {
        let at = self.z.home(s);
        if self.z.version == 0 {
            return super::row::wide(lent::read::load32(self.bytes, at));
        }
        let a = current_run(self.bytes, at);
        a.first + a.last
    }

    // The `N` slots after slot `i` are empty: one test for all of them.
    pub fn all_empty<const N: usize>(self, i: usize) -> bool
        requires { i + N ≤ capacity_of self.z }
        ensures { result ≡ true → Bare self.entry.bytes.now self.entry.z i (i + N) }
    {
        let mut sum = 0;
        for s in i..i + N {
            sum += self.filled_at(s + 1);
        }
        sum == 0
    }

    // How far the slots above `from` are empty, four at a time: so are most of those above U. A `while`, since a last part of a group is not leapt over.
    // By reference: where many slots in use are empty, a copy for each group of them is most of the time.
    pub fn past_empty(&self, from: usize, to: usize) -> usize
        requires { (from ≤ to) × (to ≤ capacity_of self.now.z) }
        ensures { (result ≤ to) × Bare self.now.bytes.now self.now.z from result }
    {
        let file = *self;
        let mut i = from;
        while i + 4 <= to {
            if !file.all_empty::<4>(i) {
                return i;
            }
            i += 4;
        }
        i
    }
}
