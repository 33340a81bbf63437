//! Blank, and a save, keep or clear, record by record: 01's calls that change a file. Each is a thin one over an inner function, whose contract is the plain equation.
#![tactic(auto)]

ghost use Rattle.std.specs.Prelude.{◌≡◌};
ghost use Rattle.paper.specs.Answers.{taken_in};
ghost use Rattle.paper.specs.Refusals.{taken_says, step_says};
ghost use Rattle.paper.specs.Store.{blank_of, blank_file, job_in, save_of, keep_of, clear_of};
ghost use Rattle.paper.specs.Step.{step_file, step_job, step_answer};

use judged::Goal;
use paper::job::{Job, Stepped};
use paper::refusal::Refusal;

mod begin;
mod blanks;
mod judged;
mod rowed;

// N records of L bytes, with M bytes to an index entry, or 16.
pub fn blank(file: &mut [u8], n: usize, l: usize, m: usize) -> Result<(), Refusal>
    ensures result_value { taken_says result ≡ taken_says (blank_of file.old n l m) }
    ensures file_after { file.new ≡ blank_file file.old n l m }
{
    blanks::blanked(file, n, l, m)
}

// A save of the scan to the slot, with the entry's bytes 8 to 61: a job to be stepped, or one of 1 to 9, 11 and 13.
pub fn save(file: &[u8], slot: usize, scan: &[u8], about: &[u8; 54]) -> Result<Job, Refusal>
    ensures answer_value { taken_says (taken_in result) ≡ taken_says (taken_in (save_of file.now slot scan.now about.now)) }
    ensures job_value { job_in result ≡ job_in (save_of file.now slot scan.now about.now) }
{
    judged::begun(file, Goal::Slot(slot), scan, about)
}

// A save to the lowest empty slot: 12 in place of 9.
pub fn keep(file: &[u8], scan: &[u8], about: &[u8; 54]) -> Result<Job, Refusal>
    ensures answer_value { taken_says (taken_in result) ≡ taken_says (taken_in (keep_of file.now scan.now about.now)) }
    ensures job_value { job_in result ≡ job_in (keep_of file.now scan.now about.now) }
{
    judged::begun(file, Goal::LowestEmpty, scan, about)
}

// A clear of the slot: a job to be stepped with an empty scan, or one of 1 to 10.
pub fn clear(file: &[u8], slot: usize) -> Result<Job, Refusal>
    ensures answer_value { taken_says (taken_in result) ≡ taken_says (taken_in (clear_of file.now slot)) }
    ensures job_value { job_in result ≡ job_in (clear_of file.now slot) }
{
    begin::cleared(file, slot)
}

// One write of the job, or its confirmation; the answer says the record and the count so far.
#[inline(always)]
pub fn step(file: &mut [u8], scan: &[u8], job: Job) -> Stepped
    ensures answer_value { step_says result.answer ≡ step_says (step_answer file.old scan.now job) }
    ensures job_value { result.job ≡ step_job file.old scan.now job }
    ensures file_after { file.new ≡ step_file file.old scan.now job }
{
    steps::stepped(file, scan, job)
}
