//! The scans that the data records show by themselves, for a file whose index is lost.
#![tactic(auto)]

ghost use Rattle.std.specs.Prelude.{◌≡◌};
ghost use Rattle.paper.specs.Refusals.{listed_says};
ghost use Rattle.paper.specs.Find.{report_of, report_out};

use entries::file::File;
use paper::refusal::Refusal;

mod walk;

// All are counted before one is put, since finds that do not fit write nothing.
fn searched(file: File, out: &mut [u64]) -> Result<usize, Refusal>
    ensures value { result ≡ report_of file.entry.bytes.now out.old }
    ensures out_after { out.new ≡ report_out file.entry.bytes.now out.old }
{
    let n = walk::count(file);
    if out.len() < 3 * n {
        return Err(Refusal::TooSmall);
    }
    walk::fill(file, n, &mut *out);
    Ok(n)
}

// The plain equations beneath `find`.
fn reported(file: &[u8], out: &mut [u64]) -> Result<usize, Refusal>
    ensures value { result ≡ report_of file.now out.old }
    ensures out_after { out.new ≡ report_out file.now out.old }
{
    let z = bootstrap::judge::boot(file)?;
    searched(File { bytes: file, z }, out)
}

// 02, 2026-06: first record, last record and number of each scan that is found go to `out`; the answer is how many there are, or which of the bootstrap's refusals, or 17, the call gets.
pub fn find(file: &[u8], out: &mut [u64]) -> Result<usize, Refusal>
    ensures answer { listed_says result ≡ listed_says (report_of file.now out.old) }
    ensures rows { out.new ≡ report_out file.now out.old }
{
    reported(file, out)
}
