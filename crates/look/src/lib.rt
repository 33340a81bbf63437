//! The calls that look at a file and change nothing: list, entry, show and read.
#![tactic(auto)]

ghost use Rattle.std.specs.Prelude.{◌≡◌};
ghost use Rattle.lent.specs.Part.{bytes_on};
ghost use Rattle.paper.specs.Refusals.{listed_says, span_says, taken_says, kind_says};
ghost use Rattle.paper.specs.Answers.{taken_in};
ghost use Rattle.paper.specs.Scan.{part_of, span_place};
ghost use Rattle.paper.specs.Look.{listed_of, listed_out, found_of, fields_in, show_of, read_of};

use paper::entry::Entry;
use paper::refusal::Refusal;

pub mod fields;
pub mod rows;
pub mod slot;
pub mod span;

// Slot, first and last record of each scan, in slot order, go to `out`; the answer is how many scans there are.
pub fn list(file: &[u8], out: &mut [u32]) -> Result<usize, Refusal>
    ensures answer { listed_says result ≡ listed_says (listed_of file.now out.old) }
    ensures rows { out.new ≡ listed_out file.now out.old }
{
    rows::listed(file, out)
}

// The fields of a slot's entry.
pub fn entry(file: &[u8], slot: usize) -> Result<Entry, Refusal>
    ensures answer { taken_says (taken_in result) ≡ taken_says (taken_in (found_of file.now slot)) }
    ensures fields { fields_in result ≡ fields_in (found_of file.now slot) }
    ensures kind { kind_says (fields_in result).kind ≡ kind_says (fields_in (found_of file.now slot)).kind }
{
    fields::found(file, slot)
}

// Where a slot's records lie in the file, from first to last.
pub fn show(file: &[u8], slot: usize) -> Result<(usize, usize), Refusal>
    ensures { span_says result ≡ span_says (show_of file.now slot) }
{
    span::shown(file, slot)
}

// That part of the file, empty where `show` refuses. It and `read_part` are calls of the paper, each by its name.
pub fn show_part(file: &[u8], slot: usize) -> &[u8]
    ensures bytes { result.now ≡ part_of file.now (show_of file.now slot) }
    ensures place { result.ref_ptr ≡ bytes_on (span_place file.now (show_of file.now slot)) file.entry.ref_ptr }
{
    scan::spans::part_of(file, span::shown(file, slot))
}

// Where a slot's scan lies in the file: the first HEADLEN + DATALEN bytes of its records.
pub fn read(file: &[u8], slot: usize) -> Result<(usize, usize), Refusal>
    ensures { span_says result ≡ span_says (read_of file.now slot) }
{
    span::scanned(file, slot)
}

// That part of the file, empty where `read` refuses.
pub fn read_part(file: &[u8], slot: usize) -> &[u8]
    ensures bytes { result.now ≡ part_of file.now (read_of file.now slot) }
    ensures place { result.ref_ptr ≡ bytes_on (span_place file.now (read_of file.now slot)) file.entry.ref_ptr }
{
    scan::spans::part_of(file, span::scanned(file, slot))
}
