//! What begins a job: refused in order, or a job handed back. Nothing is changed yet.
ghost use Rattle.std.specs.Prelude.{◌≡◌, ◌≤◌, length};
ghost use Rattle.paper.specs.Store.{old_run, saves_at, clear_job, clear_of};
ghost use Rattle.store.specs.Beginning.{Clearing};

use entries::file::File;
use paper::job::Job;
use paper::refusal::Refusal;
use paper::sizes::Run;

// A save's job at its place, which replaces the scan of the run `old`.
pub fn save_job(
    file: &[u8],
    slot: usize,
    scan: &[u8],
    about: &[u8; 54],
    first: usize,
    old: Run,
) -> Job
    requires in_bounds { 32 ≤ length file.now }
    requires value { old ≡ old_run file.now slot }
    ensures { result ≡ saves_at file.now slot scan.now about.now first }
{
    let b = writes::boot::head(file);
    Job {
        saves: true,
        slot,
        size: scan.len(),
        span: file.len(),
        first,
        old: old.first,
        many: entries::entry::many(old),
        boot: b,
        about: *about,
        ..Job::ZEROS
    }
}

// A clear's job looks at neither place nor bytes. It lowers U where no slot above has a scan: none above U has, since the file opens.
fn clear_job(file: File, slot: usize) -> Job
    requires { Clearing file.bytes.now file.z slot }
    ensures { result ≡ clear_job file.entry.bytes.now slot }
{
    let b = writes::boot::head(file.bytes);
    let top = used::highest_to(file, file.z.u, slot);
    let old = file.run_at(slot);
    Job {
        slot,
        span: file.bytes.len(),
        lowers: slot == top,
        old: old.first,
        many: entries::entry::many(old),
        boot: b,
        ..Job::ZEROS
    }
}

// 10 in place of 11 and 13.
pub fn cleared(file: &[u8], slot: usize) -> Result<Job, Refusal>
    ensures { result ≡ clear_of file.now slot }
{
    let z = index::change::judge(file)?;
    if !steps::agree::has_slot(z, slot) {
        return Err(Refusal::NoSuchSlot);
    }
    let file = File { bytes: file, z };
    if entries::entry::empty(file.run_at(slot)) {
        return Err(Refusal::EmptySlot);
    }
    Ok(clear_job(file, slot))
}
