//! The step after the last write: the file judged, the entry and the records compared, and the old run looked at.
ghost use Rattle.std.specs.Prelude.{◌≡◌, true};
ghost use Rattle.paper.specs.Index.{open_of};
ghost use Rattle.paper.specs.Step.{agrees, stands, confirmed, confirm_of};
ghost use Rattle.writes.specs.Inside.{Homed};
ghost use Rattle.steps.specs.Tests.{given_stands, old_gone, OldIn};
ghost use Rattle.steps.specs.Answers.{handed_on};

use paper::job::{Job, Step};
use paper::refusal::Refusal;
use paper::sizes::Sizes;
use writes::{count, entry};

// The entry and the records are as the job and the scan give them.
fn given_stands(file: &[u8], scan: &[u8], z: Sizes, j: Job) -> bool
    requires { Homed file.now z j }
    ensures { result ≡ given_stands file.now scan.now j z }
{
    if !entry::entry_stands(file, z, j) {
        return false;
    }
    if j.saves {
        let from = (j.first - 1) * z.l;
        let n = count::records(z, j) * z.l;
        let p = lent::part::part(file, from, from + n);
        return lent::compare::same_padded(p, n, scan);
    }
    true
}

// Every record of the old run is zeros; where it has none its place is not looked at.
fn old_gone(file: &[u8], z: Sizes, j: Job) -> bool
    requires { OldIn file.now z j }
    ensures { result ≡ old_gone file.now j z }
{
    let many = j.many;
    if many == 0 {
        return true;
    }
    let from = (j.old - 1) * z.l;
    let p = lent::part::part(file, from, from + many * z.l);
    lent::compare::all_zero(p)
}

// All that the job was to leave.
#[tactic(auto, unfolding(paper::specs::Step::stands, crate::specs::Tests::given_stands, crate::specs::Tests::old_gone))]
fn stands(file: &[u8], scan: &[u8], z: Sizes, j: Job) -> bool
    requires { Homed file.now z j × OldIn file.now z j }
    ensures { result ≡ stands file.now scan.now j z }
{
    given_stands(file, scan, z, j) && old_gone(file, z, j)
}

// A refusal of the file's, handed on. (A file that opens is not.)
fn handed_on(o: Result<Sizes, Refusal>) -> Result<Step, Refusal>
    ensures { result ≡ handed_on o }
{
    match o {
        Ok(_) => Ok(Step::Wrote(0, 0)),
        Err(r) => Err(r),
    }
}

// Record 0, and the count.
fn confirmed(j: Job) -> Result<Step, Refusal>
    ensures { result ≡ confirmed j }
{
    if j.saves {
        return Ok(Step::Saved(0, j.written));
    }
    Ok(Step::Cleared(0, j.written))
}

// The file's judgement is not the job's word for it: the index is judged again, and its sizes serve the comparison.
// By let .. else, as document 01 asks of this place.
pub fn confirm(file: &[u8], scan: &[u8], j: Job) -> Result<Step, Refusal>
    requires { agrees file.now scan.now j ≡ true }
    ensures { result ≡ confirm_of file.now scan.now j (open_of file.now) }
{
    let o = index::judge(file);
    let Ok(z) = o else {
        return handed_on(o);
    };
    if !stands(file, scan, z, j) {
        return Err(Refusal::Differs);
    }
    confirmed(j)
}
