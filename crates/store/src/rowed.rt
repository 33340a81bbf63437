//! A save or keep on a file that was judged: what its row and marks say of the place.
ghost use Rattle.std.specs.Prelude.{◌≡◌, ℕ, List};
ghost use Rattle.paper.specs.Sizes.{sizes_of};
ghost use Rattle.paper.specs.Store.{save_of, keep_of};
ghost use Rattle.entries.specs.Row.{InFile};
ghost use Rattle.store.specs.Beginning.{Rowing, placed_of, begun_of};

use super::begin::save_job;
use super::judged::Goal;
use entries::file::File;
use paper::job::Job;
use paper::refusal::Refusal;
use paper::sizes::Sizes;
use std::marker::Model;

// A file that may be changed, with the row of its runs and the marks that may show their records. Clauses see the file's bytes.
#[derive(Drop)]
pub struct Rowed<'a> {
    pub file: &'a [u8],
    pub z: Sizes,
    pub row: &'a [u32],
    pub marks: &'a [u64],
}

impl<'a> Model for Rowed<'a> {
    ghost Value = { List ℕ };

    ghost view = { λ r. r.file.now };

    ghost invariant = { λ r. Rowing r.file.now r.z r.row.now r.marks.now };
}

impl<'a> Rowed<'a> {
    // 11, then 13: the rules over the scan, and the lowest free place, to which the slot's present scan is not free.
    fn place(&self, slot: usize, scan: &[u8], about: &[u8; 54]) -> Result<Job, Refusal>
        requires { InFile self.now (sizes_of self.now) slot }
        ensures { result ≡ placed_of self.now slot scan.now about.now }
    {
        scan::rules::judge(scan, true).map_err(Refusal::BadScan)?;
        let k = writes::count::records_for(self.z, scan.len());
        let first = room::lowest_free(self.row, self.marks, self.z, self.file.len(), k).ok_or(
            Refusal::NoRoom,
        )?;
        let file = File {
            bytes: self.file,
            z: self.z,
        };
        let old = file.run_at(slot);
        Ok(save_job(self.file, slot, scan, about, first, old))
    }

    // A save to a slot that the crew names: 9, then the place.
    fn save_at(&self, slot: usize, scan: &[u8], about: &[u8; 54]) -> Result<Job, Refusal>
        ensures { result ≡ save_of self.now slot scan.now about.now }
    {
        if !steps::agree::has_slot(self.z, slot) {
            return Err(Refusal::NoSuchSlot);
        }
        self.place(slot, scan, about)
    }

    // A save to the lowest empty slot: 12 in place of 9.
    fn keep_at(&self, scan: &[u8], about: &[u8; 54]) -> Result<Job, Refusal>
        ensures { result ≡ keep_of self.now scan.now about.now }
    {
        let slot = room::lowest_empty(self.row, self.z).ok_or(Refusal::NoEmptySlot)?;
        self.place(slot, scan, about)
    }

    pub fn begun(&self, goal: Goal, scan: &[u8], about: &[u8; 54]) -> Result<Job, Refusal>
        ensures { result ≡ begun_of self.now goal scan.now about.now }
    {
        match goal {
            Goal::Slot(slot) => self.save_at(slot, scan, about),
            Goal::LowestEmpty => self.keep_at(scan, about),
        }
    }
}
