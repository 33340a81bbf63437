//! The list: slot, first and last record of each scan.
ghost use Rattle.std.specs.Prelude.{◌≡◌, ◌+◌, ◌≤◌, ◌<◌, length};
ghost use Rattle.lent.specs.Write.{write};
ghost use Rattle.paper.specs.Look.{listed_of, listed_out};
ghost use Rattle.paper.specs.Index.{row_run};
ghost use Rattle.look.specs.Put.{Put};
ghost use Rattle.look.specs.Rows.{scans_in, one_if, piece_if, pieces_in, row_of, Narrow};

use paper::refusal::Refusal;
use paper::sizes::Run;

// One more than `n` where the run is a scan's.
fn next(n: usize, a: Run) -> usize
    requires { n < 4096 }
    ensures { result ≡ n + one_if a }
{
    if entries::entry::empty(a) {
        return n;
    }
    n + 1
}

// How many of the slots 1 to `u` hold a scan.
pub fn scans(row: &[u32], u: usize) -> usize
    requires { (8192 ≤ length row.now) × (u ≤ 4096) }
    ensures { (result ≡ length (scans_in (row_run row.now) u)) × (result ≤ 4096) }
{
    let mut n = 0;
    for i in 0..u {
        let a = entries::row::run_in(row, i + 1);
        n = next(n, a);
    }
    n
}

// The row of slot `s`, if it holds a scan, goes to `at`; the answer is the place after it.
fn put_row(out: &mut [u32], at: usize, s: usize, a: Run) -> usize
    requires narrow { Narrow s a }
    requires a_in_bounds { at + length (piece_if row_of s a) ≤ length out.old }
    ensures { Put out.old at (piece_if row_of s a) out.new result }
{
    if entries::entry::empty(a) {
        return at;
    }
    out[at] = s as u32;
    out[at + 1] = a.first as u32;
    out[at + 2] = a.last as u32;
    at + 3
}

// The rows of the slots 1 to `u`, one after the other.
fn fill(row: &[u32], u: usize, out: &mut [u32])
    requires in_bounds { (8192 ≤ length row.now) × (u ≤ 4096) }
    requires u_in_bounds { length (pieces_in row_of (row_run row.now) u) ≤ length out.old }
    ensures { out.new ≡ write out.old 0 (pieces_in row_of (row_run row.now) u) }
{
    let mut at = 0;
    for i in 0..u {
        let a = entries::row::run_in(row, i + 1);
        at = put_row(&mut *out, at, i + 1, a);
    }
}

// All is counted before a row is written, since a list that does not fit writes nothing.
pub fn listed(file: &[u8], out: &mut [u32]) -> Result<usize, Refusal>
    ensures value { result ≡ listed_of file.now out.old }
    ensures out_after { out.new ≡ listed_out file.now out.old }
{
    let mut row = [0u32; 8192];
    let z = index::rowed::judged(file, &mut row)?;
    let n = scans(&row, z.u);
    if out.len() < 3 * n {
        return Err(Refusal::TooSmall);
    }
    fill(&row, z.u, &mut *out);
    Ok(n)
}
