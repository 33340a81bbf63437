//! The run of 01: a blank file, three saves, the list, a save into the records that the third of them left free, and one that finds no room.
#![tactic(auto)]

use paper::job::{Job, Step};
use paper::refusal::Refusal;
use std::io;

fn number(rt: &impl Print, n: usize) -> io::Result<()> {
    print!(rt; " {n}")
}

fn refused(rt: &impl Print, r: Refusal) -> io::Result<()> {
    print!(rt; "refused")?;
    number(rt, r.number())?;
    number(rt, r.value())?;
    println!(rt)
}

fn record_and_count(rt: &impl Print, record: usize, count: usize) -> io::Result<()> {
    number(rt, record)?;
    print!(rt; " count")?;
    number(rt, count)
}

// Says what a step answered; whether the job goes on.
fn goes_on(rt: &impl Print, a: Result<Step, Refusal>) -> io::Result<bool> {
    match a {
        Ok(Step::Wrote(r, n)) => {
            print!(rt; "wrote")?;
            record_and_count(rt, r, n)?;
            println!(rt)?;
            Ok(true)
        }
        Ok(Step::Saved(r, n)) => {
            print!(rt; "saved")?;
            record_and_count(rt, r, n)?;
            println!(rt)?;
            Ok(false)
        }
        Ok(Step::Cleared(r, n)) => {
            print!(rt; "cleared")?;
            record_and_count(rt, r, n)?;
            println!(rt)?;
            Ok(false)
        }
        Err(r) => {
            refused(rt, r)?;
            Ok(false)
        }
    }
}

// Steps a job until it is confirmed or refused; no job of this run has ten steps.
fn run(rt: &impl Print, file: &mut [u8], scan: &[u8], job: Job) -> io::Result<()> {
    let mut j = job;
    for _ in 0..10 {
        let s = store::step(&mut *file, scan, j);
        if !goes_on(rt, s.answer)? {
            return Ok(());
        }
        j = s.job;
    }
    Ok(())
}

fn save(
    rt: &impl Print,
    file: &mut [u8],
    slot: usize,
    bytes: [u8; 1024],
    size: usize,
) -> io::Result<()> {
    print!(rt; "save")?;
    number(rt, size)?;
    print!(rt; " bytes to slot")?;
    number(rt, slot)?;
    println!(rt)?;
    let scan = lent::part::part(&bytes, 0, size);
    let about = [5u8; 54];
    match store::save(&*file, slot, scan, &about) {
        Ok(job) => run(rt, file, scan, job),
        Err(r) => refused(rt, r),
    }
}

// A scan whose first 256 bytes are preamble and classes: 13 classes, at words 5, 21, 22, .. 32, and HEADLEN 256. `high` is the upper half of DATALEN.
fn scan_of(high: u32) -> [u8; 1024] {
    let mut s = [1u8; 1024];
    lent::write::put32(&mut s, 0, 851973);
    lent::write::put32(&mut s, 4, 1376278);
    lent::write::put32(&mut s, 8, 1507352);
    lent::write::put32(&mut s, 12, 1638426);
    lent::write::put32(&mut s, 16, 1769500);
    lent::write::put32(&mut s, 20, 1900574);
    lent::write::put32(&mut s, 24, 2031648);
    lent::write::put32(&mut s, 32, 1081081856);
    lent::write::put32(&mut s, 36, 0);
    lent::write::put32(&mut s, 40, high);
    lent::write::put32(&mut s, 44, 0);
    s
}

// What the lister prints of the file.
fn list(rt: &impl Print, file: &[u8]) -> io::Result<()> {
    let mut out = [0u8; 90000];
    let n = listing::printed(file, &mut out);
    rt.write_all(lent::part::part(&out, 0, n))
}

fn main(rt: HostRuntime) -> io::Result<()> {
    let mut file = [9u8; 4096];
    match store::blank(&mut file, 3, 512, 64) {
        Ok(()) => println!(rt; "blank")?,
        Err(r) => refused(&rt, r)?,
    }
    // DATALEN 744, 256 and 768.
    let a = scan_of(1082605568);
    let b = scan_of(1081081856);
    let c = scan_of(1082654720);
    save(&rt, &mut file, 1, a, 1000)?;
    save(&rt, &mut file, 9, b, 512)?;
    save(&rt, &mut file, 1, a, 1000)?;
    list(&rt, &file)?;
    save(&rt, &mut file, 2, c, 1024)?;
    save(&rt, &mut file, 3, b, 512)
}
