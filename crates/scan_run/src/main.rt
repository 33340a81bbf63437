#![tactic(auto)]
// Expands each line of the input into a run of bytes, and writes what is said of it: the rules when reading and when saving, where the
// classes 1, 13, 15, 16 and 0 and the data lie, and the sums of the bytes of class 1 and of the data.
ghost use Rattle.std.specs.Prelude.{◌<◌, ◌≤◌, length, IfOk};

use paper::refusal::Refusal;
use std::io;
use std::io::Read;

// A line holds in hexadecimal the length (from column 0), the byte to fill from (column 7) and the first 48 bytes (column 10).
const LINE: usize = 107;

// No more lines than these are expanded, whatever follows them.
const LINES: usize = 600;

// What a hexadecimal digit counts; 0 for any other byte, a capital letter too.
fn digit(b: u8) -> usize
    ensures { result < 16 }
{
    match b {
        b'A'..=b'F' => 0,
        _ => (b as char).to_digit(16).unwrap_or(0) as usize,
    }
}

// The number in n columns, of at most five digits.
fn number_at(line: &[u8], at: usize, n: usize) -> usize
    requires at_bound { at < 1000 }
    requires n_bound { n < 1000 }
{
    let mut value: usize = 0;
    for i in 0..n {
        value = value % 65536 * 16 + digit(lent::read::byte(line, at + i));
    }
    value
}

// Bytes that differ from one to the next.
fn fill(run: &mut [u8; 70016], seed: usize) {
    for (i, b) in run.iter_mut().enumerate() {
        *b = ((i * 7 + seed % 256) % 256) as u8;
    }
}

// The preamble and the two lengths.
fn begin(run: &mut [u8; 70016], line: &[u8]) {
    for (i, b) in run[..48].iter_mut().enumerate() {
        *b = (number_at(line, 10 + 2 * i, 2) % 256) as u8;
    }
}

fn number(rt: &impl Print, n: usize) -> io::Result<()> {
    print!(rt; " {n}")
}

fn verdict(rt: &impl Print, r: Result<(usize, usize), usize>) -> io::Result<()> {
    match r {
        Ok((head, rest)) => {
            number(rt, head)?;
            number(rt, rest)?;
        }
        Err(reason) => {
            print!(rt; " broken")?;
            number(rt, reason)?;
        }
    }
    print!(rt; " |")
}

fn place(rt: &impl Print, s: Result<(usize, usize), Refusal>) -> io::Result<()> {
    match s {
        Ok((from, to)) => {
            number(rt, from)?;
            number(rt, to)?;
        }
        Err(r) => {
            print!(rt; " refused")?;
            number(rt, r.number())?;
            number(rt, r.value())?;
        }
    }
    print!(rt; " |")
}

// The sum of the bytes of a part, which tells one part from another.
fn sum(rt: &impl Print, s: &[u8]) -> io::Result<()> {
    let total = s
        .iter()
        .fold(0u64, |total, b| total.wrapping_add(u64::from(*b)));
    print!(rt; " {total}")
}

fn report(rt: &impl Print, run: &[u8]) -> io::Result<()> {
    number(rt, run.len())?;
    print!(rt; " |")?;
    verdict(rt, scan::rules::judge(run, false))?;
    verdict(rt, scan::rules::judge(run, true))?;
    place(rt, scan::class(run, 1))?;
    place(rt, scan::class(run, 13))?;
    place(rt, scan::class(run, 15))?;
    place(rt, scan::class(run, 16))?;
    place(rt, scan::class(run, 0))?;
    place(rt, scan::data(run))?;
    sum(rt, scan::class_part(run, 1))?;
    sum(rt, scan::data_part(run))?;
    println!(rt)
}

// An array behind a reference keeps its length in its type.
fn report_first(rt: &impl Print, run: &[u8; 70016], size: usize) -> io::Result<()> {
    report(rt, lent::part::part(run, 0, size))
}

fn expand(rt: &impl Print, line: &[u8]) -> io::Result<()> {
    let mut run = [0u8; 70016];
    fill(&mut run, number_at(line, 7, 2));
    begin(&mut run, line);
    report_first(rt, &run, number_at(line, 0, 6))
}

// Reads until the input ends or the memory is full; the answer is how many bytes came.
fn read_full(input: &mut impl Read, room: &mut [u8]) -> io::Result<usize>
    ensures { IfOk result (λ n. n ≤ length room.new) }
{
    let mut n = 0;
    while n < room.len() {
        let k = input.read(&mut room[n..])?;
        if k == 0 {
            break;
        }
        n += k;
    }
    Ok(n)
}

fn main(rt: HostRuntime) -> io::Result<()> {
    let mut buf = [0u8; 65536];
    let n = read_full(&mut rt.stdin(), &mut buf)?;
    for line in buf[..n.min(LINES * LINE)].chunks_exact(LINE) {
        expand(&rt, line)?;
    }
    Ok(())
}
