//! Whether every data record in no listed scan is all zeros. The judgement and then the walk need row and marks.
#![tactic(auto)]

ghost use Rattle.std.specs.Prelude.{◌≡◌, ◌*◌, ◌≤◌, length};
ghost use Rattle.marks.specs.Marks.{Clear};
ghost use Rattle.paper.specs.Refusals.{asked_says};
ghost use Rattle.paper.specs.Index.{boot_of};
ghost use Rattle.paper.specs.Gaps.{gaps_of};
ghost use Rattle.index.specs.Judging.{Reach};

use entries::file::File;
use index::made;
use paper::refusal::Refusal;
use paper::sizes::Sizes;

mod walk;

// The judgement, which leaves the runs in the row, and then the walk.
fn judged(file: &[u8], z: Sizes, row: &mut [u32], marks: &mut [u64]) -> Result<bool, Refusal>
    requires file_value { boot_of file.now ≡ Ok z }
    requires u_in_bounds { 2 * z.u ≤ length row.old }
    requires reach { Reach z marks.old × Clear marks.old }
    ensures { result ≡ gaps_of file.now }
{
    index::slots::judge_lent(File { bytes: file, z }, &mut *row, &mut *marks)?;
    Ok(walk::walk(file, z, &*row, marks))
}

// A file whose bootstrap is good.
fn rowed(file: &[u8], z: Sizes) -> Result<bool, Refusal>
    requires { boot_of file.now ≡ Ok z }
    ensures { result ≡ gaps_of file.now }
{
    made::with_both(z, |row, marks| judged(file, z, row, marks))
}

// The plain equation beneath `gaps_zero`.
fn asked(file: &[u8]) -> Result<bool, Refusal>
    ensures { result ≡ gaps_of file.now }
{
    let z = bootstrap::judge::boot(file)?;
    rowed(file, z)
}

// 02, 2026-05: whether every data record in no listed scan is all zeros, or which of open's refusals the file gets.
pub fn gaps_zero(file: &[u8]) -> Result<bool, Refusal>
    ensures { asked_says result ≡ asked_says (gaps_of file.now) }
{
    asked(file)
}
