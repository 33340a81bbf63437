//! One step of a job: refusal 14, then the write at the job's place in its list or the confirmation.
#![tactic(auto)]

ghost use Rattle.std.specs.Prelude.{◌≡◌, true, take};
ghost use Rattle.lent.specs.Write.{write};
ghost use Rattle.paper.specs.Sizes.{boot_bytes};
ghost use Rattle.paper.specs.Index.{Booted};
ghost use Rattle.paper.specs.Store.{perform, sizes_after, lowered};
ghost use Rattle.paper.specs.Step.{agrees, step_file, stepped_of};
ghost use Rattle.writes.specs.Inside.{Homed, wrote_one};
ghost use Rattle.steps.specs.Answers.{Left, Late, late_write, disagreed};

use entries::file::File;
use paper::job::{Job, Step, Stepped};
use paper::refusal::Refusal;
use paper::sizes::Sizes;
use writes::{boot, count, write};

pub mod agree;
pub mod confirm;

// The job as it was.
#[inline(always)]
fn refused(j: Job) -> Stepped
    ensures { result ≡ disagreed j }
{
    Stepped {
        answer: Err(Refusal::Disagrees),
        job: j,
    }
}

// Record 1, with the highest slot that has a scan in the file as it stands, the job's counted.
fn boot_next(file: &mut [u8], z: Sizes, j: Job) -> usize
    requires { Booted file.old z × Homed file.old z j }
    ensures value { result ≡ 1 }
    ensures file_after { file.new ≡ write file.old 0 (boot_bytes (sizes_after file.old z j)) }
{
    let u = used::highest(File { bytes: file, z }, j.slot);
    write::write_boot(file, z, j, u)
}

// Record 1 again, once the highest slot is cleared.
fn used_next(file: &mut [u8], z: Sizes) -> usize
    requires { Booted file.old z }
    ensures value { result ≡ 1 }
    ensures file_after { file.new ≡ write file.old 0 (boot_bytes (lowered file.old z)) }
{
    let u = used::highest(File { bytes: file, z }, 0);
    write::write_used(file, z, u)
}

// What follows the entry: record 1 again where U is lowered, then zeros over the old run, lowest first.
fn late_next(file: &mut [u8], z: Sizes, j: Job, k: usize) -> usize
    requires booted { Booted file.old z }
    requires late { Late file.old z j k }
    ensures value { result ≡ (late_write file.old z j).record_no }
    ensures file_after { file.new ≡ perform file.old (late_write file.old z j) }
{
    let c = count::change(j, k);
    if j.written < c {
        return used_next(file, z);
    }
    write::write_zeros(file, z, j.old + (j.written - c))
}

// The write at the job's place in its list, of which the first k are the data records. It answers the record that it wrote.
// The paper's list in its order, each write with its own law: no table of functions.
fn write_next(file: &mut [u8], scan: &[u8], z: Sizes, j: Job, k: usize) -> usize
    requires booted { Booted file.old z }
    requires j_value { agrees file.old scan.now j ≡ true }
    requires left { Left z j k }
    ensures file_after { wrote_one result j (take 32 file.new) ≡ stepped_of file.old scan.now j }
    ensures file_after_2 { file.new ≡ step_file file.old scan.now j }
{
    if j.written < k {
        return write::write_data(file, scan, z, j);
    }
    if j.written == k {
        return boot_next(file, z, j);
    }
    if j.written == k + 1 {
        return write::write_entry(file, z, j);
    }
    late_next(file, z, j, k)
}

// One write, or past the last the confirmation. A step that writes judges no index. The bootstrap that the job then expects
// is the file's, whichever record was written: from one place, its 32 bytes are moved and not taken apart.
#[inline(always)]
fn next(file: &mut [u8], scan: &[u8], z: Sizes, j: Job) -> Stepped
    requires booted { Booted file.old z }
    requires j_value { agrees file.old scan.now j ≡ true }
    ensures value { result ≡ stepped_of file.old scan.now j }
    ensures file_after { file.new ≡ step_file file.old scan.now j }
{
    let k = count::records(z, j);
    if count::total(j, k) <= j.written {
        let answer = confirm::confirm(file, scan, j);
        return Stepped { answer, job: j };
    }
    let r = write_next(file, scan, z, j, k);
    let b = boot::head(file);
    write::wrote(r, j, b)
}

// Refusal 14 with every one of its causes, then one write or the confirmation.
#[inline(always)]
pub fn stepped(file: &mut [u8], scan: &[u8], j: Job) -> Stepped
    ensures value { result ≡ stepped_of file.old scan.now j }
    ensures file_after { file.new ≡ step_file file.old scan.now j }
{
    let z = bootstrap::words::sizes_at(file);
    if !agree::agree(file, scan, z, j) {
        return refused(j);
    }
    next(file, scan, z, j)
}
