//! Where a slot's records and its scan lie in the file.
ghost use Rattle.std.specs.Prelude.{◌≡◌, ◌≤◌, false};
ghost use Rattle.lent.specs.Part.{part};
ghost use Rattle.paper.specs.Sizes.{start_of};
ghost use Rattle.paper.specs.Scan.{ruled_of};
ghost use Rattle.paper.specs.Look.{records_span, read_in, show_of, read_of};
ghost use Rattle.look.specs.Slot.{Within};

use paper::refusal::Refusal;
use paper::sizes::{Run, Sizes};

// Where the records of a run begin.
fn start(z: Sizes, a: Run) -> usize
    requires { Within z a }
    ensures { result ≡ start_of z a.first }
{
    (a.first - 1) * z.l
}

// The bytes of the records of a run.
fn records(z: Sizes, a: Run) -> Result<(usize, usize), Refusal>
    requires { Within z a }
    ensures { result ≡ records_span z a }
{
    Ok((start(z, a), a.last * z.l))
}

// The span of a slot's records.
pub fn shown(file: &[u8], slot: usize) -> Result<(usize, usize), Refusal>
    ensures { result ≡ show_of file.now slot }
{
    let (z, a) = super::slot::find(file, slot)?;
    records(z, a)
}

// The span of the scan in the records from `from` up to `to`.
fn scan_in(file: &[u8], from: usize, to: usize) -> Result<(usize, usize), Refusal>
    requires { from ≤ 4096000000 }
    ensures { result ≡ read_in from (ruled_of (part from to file.now) false) }
{
    let (head, rest) = scan::rules::judge(lent::part::part(file, from, to), false).map_err(
        Refusal::BadScan,
    )?;
    Ok((from, from + (head + rest)))
}

// The span of a slot's scan: of version 1, and by the rules. One function with shown would take a switch in place of the name.
pub fn scanned(file: &[u8], slot: usize) -> Result<(usize, usize), Refusal>
    ensures { result ≡ read_of file.now slot }
{
    let (z, a) = super::slot::find(file, slot)?;
    if !super::fields::version_one(file, z.version, z.home(slot)) {
        return Err(Refusal::NotVersionOne);
    }
    scan_in(file, start(z, a), a.last * z.l)
}
