//! Refusal 14: whether job and file agree, for any job, whatever its numbers.
ghost use Rattle.std.specs.Prelude.{◌≡◌};
ghost use Rattle.paper.specs.Sizes.{sizes_of, Shaped};
ghost use Rattle.paper.specs.Step.{agrees};
ghost use Rattle.steps.specs.Tests.{same_file, boot_holds, has_slot, save_fits, records_fit, old_fits, runs_fit};

use paper::job::Job;
use paper::sizes::Sizes;
use writes::count;

// The lengths of scan and file, and the first 32 bytes, are the job's.
#[tactic(auto, unfolding(crate::specs::Tests::same_file))]
fn same_file(file: &[u8], scan: &[u8], j: Job) -> bool
    ensures { result ≡ same_file file.now scan.now j }
{
    let b = j.boot;
    scan.len() == j.size
        && file.len() == j.span
        && lent::compare::same(lent::part::part(file, 0, 32), &b)
}

// None of 1 to 5 is the file's, whichever it would be.
#[tactic(auto, unfolding(crate::specs::Tests::boot_holds))]
fn boot_holds(file: &[u8], z: Sizes) -> bool
    ensures { result ≡ boot_holds file.now z }
{
    512 <= file.len()
        && lent::read::word32(file, 28) == 1
        && bootstrap::ranges::in_range(z)
        && (z.n + z.d) * z.l <= file.len()
}

#[tactic(auto, unfolding(crate::specs::Tests::has_slot))]
pub fn has_slot(z: Sizes, s: usize) -> bool
    requires { Shaped z }
    ensures { result ≡ has_slot z s }
{
    1 <= s && s <= z.capacity()
}

// The room bounds the count before the two are added to anything.
#[tactic(auto, unfolding(crate::specs::Tests::save_fits))]
fn save_fits(z: Sizes, len: usize, j: Job) -> bool
    requires { Shaped z }
    ensures { result ≡ save_fits z len j }
{
    let k = count::records(z, j);
    let room = z.room(len);
    0 < j.size && z.n < j.first && k <= room && j.first <= room + 1 - k
}

// Of a clear nothing is asked.
#[tactic(auto, unfolding(crate::specs::Tests::records_fit))]
fn records_fit(z: Sizes, len: usize, j: Job) -> bool
    requires { Shaped z }
    ensures { result ≡ records_fit z len j }
{
    !j.saves || save_fits(z, len, j)
}

// The old run, where it has records, lies within N+1 to the room, which bounds their number before it is added to anything.
#[tactic(auto, unfolding(crate::specs::Tests::old_fits))]
fn old_fits(z: Sizes, len: usize, j: Job) -> bool
    requires { Shaped z }
    ensures { result ≡ old_fits z len j }
{
    let room = z.room(len);
    j.many == 0 || z.n < j.old && j.many <= room && j.old <= room + 1 - j.many
}

// The new run and the old one.
#[tactic(auto, unfolding(crate::specs::Tests::runs_fit))]
fn runs_fit(z: Sizes, len: usize, j: Job) -> bool
    requires { Shaped z }
    ensures { result ≡ runs_fit z len j }
{
    records_fit(z, len, j) && old_fits(z, len, j)
}

// All of it; z is what the file's bootstrap says.
pub fn agree(file: &[u8], scan: &[u8], z: Sizes, j: Job) -> bool
    requires { z ≡ sizes_of file.now }
    ensures { result ≡ agrees file.now scan.now j }
{
    if !same_file(file, scan, j) {
        return false;
    }
    if !boot_holds(file, z) {
        return false;
    }
    if !has_slot(z, j.slot) {
        return false;
    }
    if !runs_fit(z, file.len(), j) {
        return false;
    }
    let k = count::records(z, j);
    if count::total(j, k) < j.written {
        return false;
    }
    true
}
