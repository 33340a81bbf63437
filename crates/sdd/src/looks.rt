//! The calls that look: open, the question of the gaps, list, find, entry, show, read, class and data.
ghost use Rattle.std.specs.Prelude.{◌≡◌, length};
ghost use Rattle.paper.specs.Index.{open_of};
ghost use Rattle.paper.specs.Answers.{taken_in};
ghost use Rattle.paper.specs.Look.{listed_of, listed_out, found_of, show_of, read_of};
ghost use Rattle.paper.specs.Gaps.{gaps_of};
ghost use Rattle.paper.specs.Find.{report_of, report_out};
ghost use Rattle.paper.specs.Scan.{class_of, data_of};
ghost use Rattle.sdd.specs.Face.{opened_c, listed_c, asked_c, span_c, entry_c, found_c, TakenSmall, OpenedSmall, SpanSmall, ListedSmall, AskedSmall};

use super::face::{CAnswer, CEntry, CListed, COpened, CSpan, Why};
use super::jobs::flag;
use super::kinds;
use super::whys::{accepted, why};
use paper::entry::{Entry, Kind};
use paper::refusal::Refusal;
use paper::sizes::Sizes;

// The sizes of a file of `len` bytes, in numbers.
pub fn opened(o: Result<Sizes, Refusal>, len: usize) -> COpened
    requires { OpenedSmall o }
    ensures { result ≡ opened_c len o }
{
    match o {
        Ok(z) => COpened {
            why: accepted(),
            n: z.n as u64,
            d: z.d as u64,
            l: z.l as u64,
            m: z.m as u64,
            u: z.u as u64,
            counter: z.counter as u64,
            kind: z.kind as u64,
            capacity: z.capacity() as u64,
            room: z.room(len) as u64,
            version: z.version as u64,
        },
        Err(r) => COpened {
            why: why(r),
            n: 0,
            d: 0,
            l: 0,
            m: 0,
            u: 0,
            counter: 0,
            kind: 0,
            capacity: 0,
            room: 0,
            version: 0,
        },
    }
}

#[unsafe(no_mangle)]
pub extern "C" fn sdd_open(file: &[u8]) -> COpened
    ensures { result ≡ opened_c (length file.now) (open_of file.now) }
{
    let o = index::open(file);
    opened(o, file.len())
}

// A question's answer, in numbers.
fn answered(a: Result<bool, Refusal>) -> CAnswer
    requires { AskedSmall a }
    ensures { result ≡ asked_c a }
{
    match a {
        Ok(yes) => CAnswer {
            why: accepted(),
            yes: flag(yes),
        },
        Err(r) => CAnswer {
            why: why(r),
            yes: 0,
        },
    }
}

#[unsafe(no_mangle)]
pub extern "C" fn sdd_gaps_zero(file: &[u8]) -> CAnswer
    ensures { result ≡ asked_c (gaps_of file.now) }
{
    answered(gaps::gaps_zero(file))
}

// A number of scans, in numbers.
fn counted(l: Result<usize, Refusal>) -> CListed
    requires { ListedSmall l }
    ensures { result ≡ listed_c l }
{
    match l {
        Ok(n) => CListed {
            why: accepted(),
            scans: n as u64,
        },
        Err(r) => CListed {
            why: why(r),
            scans: 0,
        },
    }
}

#[unsafe(no_mangle)]
pub extern "C" fn sdd_list(file: &[u8], out: &mut [u32]) -> CListed
    ensures value { result ≡ listed_c (listed_of file.now out.old) }
    ensures out_after { out.new ≡ listed_out file.now out.old }
{
    counted(look::list(file, out))
}

#[unsafe(no_mangle)]
pub extern "C" fn sdd_find(file: &[u8], out: &mut [u64]) -> CListed
    ensures value { result ≡ listed_c (report_of file.now out.old) }
    ensures out_after { out.new ≡ report_out file.now out.old }
{
    counted(find::find(file, out))
}

// An entry's fields, in numbers.
fn entry(why: Why, e: Entry) -> CEntry
    ensures { result ≡ entry_c why e }
{
    let k = e.kind;
    let source = e.source;
    CEntry {
        why,
        first: e.first,
        last: e.last,
        horizontal: e.horizontal,
        vertical: e.vertical,
        source,
        scan: e.scan,
        field4: e.field4,
        field8: e.field8,
        lst: e.lst,
        date: e.date,
        mode: e.mode,
        number: e.number,
        position: e.position,
        magic: e.magic,
        kind: kinds::number(k),
        single: kinds::single(k),
        double: kinds::double(k),
    }
}

// An answer, in numbers.
fn found(f: Result<Entry, Refusal>) -> CEntry
    requires { TakenSmall (taken_in f) }
    ensures { result ≡ found_c f }
{
    match f {
        Ok(e) => entry(accepted(), e),
        Err(r) => entry(why(r), Entry::ZEROS),
    }
}

#[unsafe(no_mangle)]
pub extern "C" fn sdd_entry_at(file: &[u8], slot: u64) -> CEntry
    ensures { result ≡ found_c (found_of file.now slot) }
{
    found(look::entry(file, slot as usize))
}

// A span, in numbers.
fn spanned(s: Result<(usize, usize), Refusal>) -> CSpan
    requires { SpanSmall s }
    ensures { result ≡ span_c s }
{
    match s {
        Ok((from, to)) => CSpan {
            why: accepted(),
            from: from as u64,
            to: to as u64,
        },
        Err(r) => CSpan {
            why: why(r),
            from: 0,
            to: 0,
        },
    }
}

#[unsafe(no_mangle)]
pub extern "C" fn sdd_show(file: &[u8], slot: u64) -> CSpan
    ensures { result ≡ span_c (show_of file.now slot) }
{
    spanned(look::show(file, slot as usize))
}

#[unsafe(no_mangle)]
pub extern "C" fn sdd_read(file: &[u8], slot: u64) -> CSpan
    ensures { result ≡ span_c (read_of file.now slot) }
{
    spanned(look::read(file, slot as usize))
}

#[unsafe(no_mangle)]
pub extern "C" fn sdd_class(run: &[u8], number: u64) -> CSpan
    ensures { result ≡ span_c (class_of run.now number) }
{
    spanned(scan::class(run, number as usize))
}

#[unsafe(no_mangle)]
pub extern "C" fn sdd_data(run: &[u8]) -> CSpan
    ensures { result ≡ span_c (data_of run.now) }
{
    spanned(scan::data(run))
}
