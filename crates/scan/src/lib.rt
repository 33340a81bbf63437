//! The scan: where a class and the data of a run of bytes lie, and the parts themselves.
#![tactic(auto)]

ghost use Rattle.std.specs.Prelude.{◌≡◌};
ghost use Rattle.paper.specs.Refusals.{span_says};
ghost use Rattle.lent.specs.Part.{bytes_on};
ghost use Rattle.paper.specs.Scan.{class_of, data_of, part_of, span_place};

use paper::refusal::Refusal;

pub mod preamble;
pub mod rules;
pub mod spans;

// Where class `number` lies: 11 where rules 1 to 5 are broken, nothing outside 1 to the count.
pub fn class(run: &[u8], number: usize) -> Result<(usize, usize), Refusal>
    ensures { span_says result ≡ span_says (class_of run.now number) }
{
    spans::class_span(run, number)
}

// Where the data lie.
pub fn data(run: &[u8]) -> Result<(usize, usize), Refusal>
    ensures { span_says result ≡ span_says (data_of run.now) }
{
    spans::data_span(run)
}

// The class itself, a part of what is lent; empty where the call above is refused. It and the data's are calls of the paper, each by its name.
pub fn class_part(run: &[u8], number: usize) -> &[u8]
    ensures bytes { result.now ≡ part_of run.now (class_of run.now number) }
    ensures place { result.ref_ptr ≡ bytes_on (span_place run.now (class_of run.now number)) run.entry.ref_ptr }
{
    spans::part_of(run, spans::class_span(run, number))
}

// The data themselves.
pub fn data_part(run: &[u8]) -> &[u8]
    ensures bytes { result.now ≡ part_of run.now (data_of run.now) }
    ensures place { result.ref_ptr ≡ bytes_on (span_place run.now (data_of run.now)) run.entry.ref_ptr }
{
    spans::part_of(run, spans::data_span(run))
}
