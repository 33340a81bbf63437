//! Refusals 6 to 8 by the rules as they stand: slot by slot, and each run held against the smaller ones. The judge where a faster way met a doubt.
ghost use Rattle.std.specs.Prelude.{◌≡◌, ◌*◌, ◌≤◌, length};
ghost use Rattle.lent.specs.Least.{least, some_number, None};
ghost use Rattle.paper.specs.Sizes.{capacity_of, Ranged};
ghost use Rattle.paper.specs.Index.{run_of, row_run, bad_at, above_at, shared_at, index_of, Booted};
ghost use Rattle.entries.specs.Row.{InRow, Runs, Fits, Judged};

use super::file::File;
use paper::refusal::Refusal;
use paper::sizes::Sizes;

fn bad_in(row: &[u32], z: Sizes, s: usize) -> bool
    requires { InRow row.now s }
    ensures { result ≡ bad_at z (row_run row.now) s }
{
    let a = super::row::run_in(row, s);
    if super::entry::empty(a) {
        return false;
    }
    !super::entry::in_data(a, z)
}

// The lowest slot up to U that is neither empty nor in range. None of the first `from` is.
pub fn lowest_bad(row: &[u32], z: Sizes, from: usize) -> Option<usize>
    requires ranged { Ranged z }
    requires u_in_bounds { (2 * z.u ≤ length row.now) × (from ≤ z.u) }
    requires none { None (bad_at z (row_run row.now)) from }
    ensures { result ≡ some_number (least (bad_at z (row_run row.now)) z.u) }
{
    for i in from..z.u {
        if bad_in(row, z, i + 1) {
            return Some(i + 1);
        }
    }
    None
}

// The lowest slot up to U that shares a record with a smaller one. None of the first `from` does.
pub fn lowest_shared(row: &[u32], z: Sizes, from: usize) -> Option<usize>
    requires ranged { Ranged z }
    requires u_in_bounds { (2 * z.u ≤ length row.now) × (from ≤ z.u) }
    requires none { None (shared_at (row_run row.now)) from }
    ensures { result ≡ some_number (least (shared_at (row_run row.now)) z.u) }
{
    for i in from..z.u {
        let a = super::row::run_in(row, i + 1);
        if super::row::sharer(row, a, i).is_some() {
            return Some(i + 1);
        }
    }
    None
}

// Refusals 6 to 8, or the sizes. The first `from` slots are known to break no rule. `above` answers the lowest slot above U that is not empty; it may look
// at all of them, and is asked only where no slot up to U is bad.
pub fn judge_with<F: FnOnce() -> Option<usize>>(
    row: &[u32],
    z: Sizes,
    from: usize,
    above: F,
) -> Result<Sizes, Refusal>
    requires ranged { Ranged z }
    requires u_in_bounds { (2 * z.u ≤ length row.now) × (from ≤ z.u) }
    requires fits { Fits z (row_run row.now) from }
    requires may { F.pre above }
    ensures { Judged row.now z (F.post above) result }
{
    if let Some(bad) = lowest_bad(row, z, from) {
        return Err(Refusal::BadEntry(bad));
    }
    if let Some(s) = above() {
        return Err(Refusal::AboveUse(s));
    }
    if let Some(shared) = lowest_shared(row, z, from) {
        return Err(Refusal::SharedRecord(shared));
    }
    Ok(z)
}

impl<'a> File<'a> {
    // The lowest slot above U that is not empty.
    fn lowest_above(self) -> Option<usize>
        ensures { result ≡ some_number (least (above_at self.entry.z (run_of self.entry.bytes.now self.entry.z)) (capacity_of self.entry.z)) }
    {
        let cap = self.z.capacity();
        let from = self.past_empty(self.z.u, cap);
        for i in from..cap {
            let a = self.run_at(i + 1);
            if !super::entry::empty(a) {
                return Some(i + 1);
            }
        }
        None
    }

    // Refusal 7, or the sizes, of an index whose slots in use break no rule.
    pub fn judge_above(self) -> Result<Sizes, Refusal>
        requires { Fits self.z (run_of self.bytes.now self.z) self.z.u }
        ensures { result ≡ index_of self.entry.z (run_of self.entry.bytes.now self.entry.z) }
    {
        if let Some(above) = self.lowest_above() {
            return Err(Refusal::AboveUse(above));
        }
        Ok(self.z)
    }

    // Refusals 6 to 8, or the sizes, where the row holds the slots in use. The first `from` slots are known to break no rule.
    pub fn judge_plain(self, row: &[u32], from: usize) -> Result<Sizes, Refusal>
        requires u_in_bounds { (2 * self.z.u ≤ length row.now) × (from ≤ self.z.u) }
        requires runs { Runs self.bytes.now self.z row.now self.z.u }
        requires fits { Fits self.z (run_of self.bytes.now self.z) from }
        ensures { result ≡ index_of self.entry.z (run_of self.entry.bytes.now self.entry.z) }
    {
        let File { bytes, z } = self;
        judge_with(
            row,
            z,
            from,
            || -> Option<usize>
                requires { Booted bytes.now z }
                ensures { result ≡ some_number (least (above_at z (run_of bytes.entry.now z)) (capacity_of z)) }
            { File { bytes, z }.lowest_above() },
        )
    }
}
