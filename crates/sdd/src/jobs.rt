//! The calls that change a file, by way of a job: blank, save, keep, clear and step.
ghost use Rattle.std.specs.Prelude.{◌≡◌, cond};
ghost use Rattle.paper.specs.Answers.{taken_in};
ghost use Rattle.paper.specs.Store.{blank_of, blank_file, save_of, keep_of, clear_of};
ghost use Rattle.sdd.specs.Face.{taken_c, job_c, job_of, begun_c, told_done, told_of, beside, flagged, step_c, step_file_c, TakenSmall, StepSmall};

use super::face::{CBegun, CJob, CStepped, Why};
use super::whys::{accepted, taken, why};
use paper::job::{Job, Step};
use paper::refusal::Refusal;

#[unsafe(no_mangle)]
pub extern "C" fn sdd_blank(file: &mut [u8], n: u64, l: u64, m: u64) -> Why
    ensures value { result ≡ taken_c (blank_of file.old n l m) }
    ensures file_after { file.new ≡ blank_file file.old n l m }
{
    let t = store::blank(file, n as usize, l as usize, m as usize);
    taken(t)
}

// 1 for yes.
pub fn flag(is: bool) -> u64
    ensures { result ≡ cond is 1 0 }
{
    u64::from(is)
}

// A job, in numbers.
fn numbers(j: Job) -> CJob
    ensures { result ≡ job_c j }
{
    let boot = j.boot;
    let about = j.about;
    CJob {
        saves: flag(j.saves),
        slot: j.slot as u64,
        size: j.size as u64,
        span: j.span as u64,
        first: j.first as u64,
        written: j.written as u64,
        lowers: flag(j.lowers),
        old: j.old as u64,
        many: j.many as u64,
        boot,
        about,
    }
}

// The job that the numbers stand for.
#[inline(always)]
fn job(c: CJob) -> Job
    ensures { result ≡ job_of c }
{
    let boot = c.boot;
    let about = c.about;
    Job {
        saves: c.saves == 1,
        slot: c.slot as usize,
        size: c.size as usize,
        span: c.span as usize,
        first: c.first as usize,
        written: c.written as usize,
        lowers: c.lowers == 1,
        old: c.old as usize,
        many: c.many as usize,
        boot,
        about,
    }
}

// A job of zeros stands beside a refusal.
fn begun(b: Result<Job, Refusal>) -> CBegun
    requires { TakenSmall (taken_in b) }
    ensures { result ≡ begun_c b }
{
    match b {
        Ok(j) => CBegun {
            why: accepted(),
            job: numbers(j),
        },
        Err(r) => CBegun {
            why: why(r),
            job: numbers(Job::ZEROS),
        },
    }
}

#[unsafe(no_mangle)]
pub extern "C" fn sdd_save(file: &[u8], slot: u64, scan: &[u8], about: &[u8; 54]) -> CBegun
    ensures { result ≡ begun_c (save_of file.now slot scan.now about.now) }
{
    begun(store::save(file, slot as usize, scan, about))
}

#[unsafe(no_mangle)]
pub extern "C" fn sdd_keep(file: &[u8], scan: &[u8], about: &[u8; 54]) -> CBegun
    ensures { result ≡ begun_c (keep_of file.now scan.now about.now) }
{
    begun(store::keep(file, scan, about))
}

#[unsafe(no_mangle)]
pub extern "C" fn sdd_clear(file: &[u8], slot: u64) -> CBegun
    ensures { result ≡ begun_c (clear_of file.now slot) }
{
    begun(store::clear(file, slot as usize))
}

// What a step says of itself, in numbers: the answer but for its job.
#[derive(Clone, Copy)]
pub struct Told {
    pub why: Why,
    pub done: u64,
    pub wrote: u64,
    pub written: u64,
}

#[inline(always)]
fn answer(a: Result<Step, Refusal>) -> Told
    requires { StepSmall a }
    ensures { result ≡ told_of a }
{
    match a {
        Ok(Step::Wrote(record, count)) => done(0, record, count),
        Ok(Step::Saved(record, count)) => done(1, record, count),
        Ok(Step::Cleared(record, count)) => done(2, record, count),
        Err(r) => Told {
            why: why(r),
            done: 0,
            wrote: 0,
            written: 0,
        },
    }
}

#[inline(always)]
fn done(what: u64, place: usize, count: usize) -> Told
    ensures { result ≡ told_done what place count }
{
    Told {
        why: accepted(),
        done: what,
        wrote: place as u64,
        written: count as u64,
    }
}

// The answer beside the job.
#[inline(always)]
fn stepped(t: Told, c: CJob) -> CStepped
    ensures { result ≡ beside t c }
{
    let why = t.why;
    CStepped {
        why,
        done: t.done,
        wrote: t.wrote,
        written: t.written,
        job: c,
    }
}

// Each of the two flags is 0 or 1.
#[inline(always)]
fn flagged(c: CJob) -> bool
    ensures { result ≡ flagged c }
{
    if 1 < c.saves {
        return false;
    }
    if 1 < c.lowers {
        return false;
    }
    true
}

// The job that goes back is the one that came but for its count and bootstrap: all else of it is copied once.
#[unsafe(no_mangle)]
pub extern "C" fn sdd_step(file: &mut [u8], scan: &[u8], c: CJob) -> CStepped
    ensures value { result ≡ step_c file.old scan.now c }
    ensures file_after { file.new ≡ step_file_c file.old scan.now c }
{
    if !flagged(c) {
        return stepped(answer(Err(Refusal::Disagrees)), c);
    }
    let s = store::step(file, scan, job(c));
    let a = s.answer;
    let t = answer(a);
    let j = s.job;
    let boot = j.boot;
    let mut d = c;
    d.boot = boot;
    d.written = j.written as u64;
    stepped(t, d)
}
