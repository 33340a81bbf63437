//! An entry's run, in the file and in the row: first and last of each slot in use, decoded once.
ghost use Rattle.std.specs.Prelude.{◌≡◌, ◌+◌, ◌*◌, ◌-◌, ◌≤◌, length, set};
ghost use Rattle.lent.specs.Number.{Plain};
ghost use Rattle.lent.specs.Least.{some_number};
ghost use Rattle.paper.specs.Sizes.{capacity_of};
ghost use Rattle.paper.specs.Index.{row_run, sharer};
ghost use Rattle.entries.specs.Row.{InRow, Stated, Runs};

use super::file::File;
use paper::sizes::Run;

// The number and its bound in one fact, as in lent.
pub fn wide(x: u32) -> usize
    ensures { Plain x 4294967296 result }
{
    x as usize
}

// The run of slot `s`, from the row.
pub fn run_in(row: &[u32], s: usize) -> Run
    requires { InRow row.now s }
    ensures { result ≡ row_run row.now s }
{
    let at = 2 * (s - 1);
    Run {
        first: wide(row[at]),
        last: wide(row[at + 1]),
    }
}

// Puts the run of slot `s` into the row.
fn put(row: &mut [u32], s: usize, first: u32, last: u32)
    requires { InRow row.old s }
    ensures { row.new ≡ set (set row.old (2 * (s - 1)) first) (2 * (s - 1) + 1) last }
{
    let to = 2 * (s - 1);
    row[to] = first;
    row[to + 1] = last;
}

impl<'a> File<'a> {
    // Decodes the entry of slot `s` into the row.
    pub fn put_run(self, s: usize, row: &mut [u32]) -> Run
        requires slot { (1 ≤ s) × (s ≤ capacity_of self.z) }
        requires in_row { InRow row.old s }
        requires runs { Runs self.bytes.now self.z row.old (s - 1) }
        ensures stated { Stated self.entry.bytes.now self.entry.z s result }
        ensures runs_2 { Runs self.entry.bytes.now self.entry.z row.new s }
    {
        let a = self.run_at(s);
        put(row, s, a.first as u32, a.last as u32);
        a
    }

    // The same in a file of the current form: nothing is asked, and the compiler makes one load of each number.
    pub fn put_current(self, s: usize, row: &mut [u32]) -> Run
        requires slot { (1 ≤ s) × (s ≤ capacity_of self.z) × (self.z.version ≡ 1) }
        requires in_row { InRow row.old s }
        requires runs { Runs self.bytes.now self.z row.old (s - 1) }
        ensures stated { Stated self.entry.bytes.now self.entry.z s result }
        ensures runs_2 { Runs self.entry.bytes.now self.entry.z row.new s }
    {
        let at = self.z.home(s);
        let first = lent::read::load32(self.bytes, at);
        let last = lent::read::load32(self.bytes, at + 4);
        put(row, s, first, last);
        Run {
            first: wide(first),
            last: wide(last),
        }
    }

    // Decodes the slots in use above slot `from`.
    pub fn fill(self, from: usize, row: &mut [u32])
        requires u_in_bounds { (2 * self.z.u ≤ length row.old) × (from ≤ self.z.u) }
        requires runs { Runs self.bytes.now self.z row.old from }
        ensures { Runs self.entry.bytes.now self.entry.z row.new self.entry.z.u }
    {
        for i in from..self.z.u {
            self.put_run(i + 1, &mut *row);
        }
    }
}

// The lowest of the slots 1 to `n` that shares a record with the run `a`: each is tried.
pub fn sharer(row: &[u32], a: Run, n: usize) -> Option<usize>
    requires { (2 * n ≤ length row.now) × (n ≤ 4096) }
    ensures { result ≡ some_number (sharer (row_run row.now) a n) }
{
    for i in 0..n {
        let b = run_in(row, i + 1);
        if super::entry::shares(a, b) {
            return Some(i + 1);
        }
    }
    None
}
