//! The lister's text.
#![tactic(auto)]

ghost use Rattle.std.specs.Prelude.{◌≡◌, ◌+◌, ◌≤◌, length};
ghost use Rattle.lent.specs.Write.{write};
ghost use Rattle.paper.specs.Lister.{list_text, printed};
ghost use Rattle.paper.specs.Index.{row_run};
ghost use Rattle.look.specs.Put.{Put};
ghost use Rattle.look.specs.Rows.{piece_if, pieces_in};
ghost use Rattle.listing.specs.Text.{line_for, refused_of};

use paper::refusal::Refusal;
use paper::sizes::Run;

pub mod put;
pub mod shell;

// The line of slot `s`, if it holds a scan.
fn line(out: &mut [u8], at: usize, s: usize, a: Run) -> usize
    requires { at + length (piece_if line_for s a) ≤ length out.old }
    ensures { Put out.old at (piece_if line_for s a) out.new result }
{
    if entries::entry::empty(a) {
        return at;
    }
    put::three(&mut *out, at, b"", s, b" ", a.first, b" ", a.last)
}

// The lines of the slots 1 to `u`, in slot order.
fn lines(row: &[u32], u: usize, out: &mut [u8], from: usize) -> usize
    requires in_bounds { (8192 ≤ length row.now) × (u ≤ 4096) }
    requires u_in_bounds { from + length (pieces_in line_for (row_run row.now) u) ≤ length out.old }
    ensures { Put out.old from (pieces_in line_for (row_run row.now) u) out.new result }
{
    let mut at = from;
    for i in 0..u {
        let a = entries::row::run_in(row, i + 1);
        at = line(&mut *out, at, i + 1, a);
    }
    at
}

// The one line of a file that is refused.
fn refused(out: &mut [u8], r: Refusal) -> usize
    requires { 55 ≤ length out.old }
    ensures { Put out.old 0 (refused_of r) out.new result }
{
    put::two(&mut *out, 0, b"refused ", r.number(), b" slot ", r.value())
}

// The list of a file, or its refusal, goes to the front of `out`; the answer is its length.
fn text(file: &[u8], out: &mut [u8]) -> usize
    requires { 90000 ≤ length out.old }
    ensures size { result ≡ length (list_text file.now) }
    ensures bytes { out.new ≡ write out.old 0 (list_text file.now) }
{
    let mut row = [0u32; 8192];
    let j = index::rowed::judged(file, &mut row);
    match j {
        Err(r) => refused(&mut *out, r),
        Ok(z) => {
            let n = look::rows::scans(&row, z.u);
            let at = put::three(
                &mut *out,
                0,
                b"slots ",
                z.capacity(),
                b" used ",
                z.u,
                b" scans ",
                n,
            );
            lines(&row, z.u, &mut *out, at)
        }
    }
}

// What the lister prints of its input goes to the front of `out`; the answer is its length. No text is longer than 90,000 bytes, so
// that with an array of so many it asks nothing of its caller, and needs no answer for memory that is too short.
pub fn printed(file: &[u8], out: &mut [u8; 90000]) -> usize
    ensures size { result ≡ length (printed file.now) }
    ensures bytes { out.new ≡ write out.old 0 (printed file.now) }
{
    if file.len() <= 65536 {
        return text(file, &mut *out);
    }
    lent::write::copy_to(&mut *out, 0, b"too long\n");
    9
}
