//! Where a class and the data lie in a run of bytes.
ghost use Rattle.std.specs.Prelude.{◌≡◌, ◌≤◌, ◌<◌};
ghost use Rattle.lent.specs.Part.{bytes_on};
ghost use Rattle.paper.specs.Scan.{class_at, class_in, class_of, data_of, part_of, span_place};

use super::{preamble, rules};
use lent::part;
use paper::refusal::Refusal;

// The byte at which the class after k others starts.
#[tactic(auto, unfolding(paper::specs::Scan::class_at))]
fn class_at(starts: [i16; 15], k: usize) -> usize
    requires { k < 15 }
    ensures { result ≡ class_at starts k }
{
    8 * preamble::word(starts, k).saturating_sub(1)
}

// Class `number` of n, by these starts and this HEADLEN.
#[tactic(auto, unfolding(paper::specs::Scan::class_in, paper::specs::Scan::class_end))]
fn class_in(
    starts: [i16; 15],
    n: usize,
    head: usize,
    number: usize,
) -> Result<(usize, usize), Refusal>
    requires { n ≤ 15 }
    ensures { result ≡ class_in starts n head number }
{
    if number < 1 || n < number {
        return Ok((0, 0));
    }
    let from = class_at(starts, number - 1);
    if number == n {
        return Ok((from, head));
    }
    Ok((from, class_at(starts, number)))
}

// Class `number` of a run.
pub fn class_span(s: &[u8], number: usize) -> Result<(usize, usize), Refusal>
    ensures { result ≡ class_of s.now number }
{
    let (head, _) = rules::judge(s, false).map_err(Refusal::BadScan)?;
    class_in(preamble::starts(s), preamble::classes(s), head, number)
}

// The data of a run.
pub fn data_span(s: &[u8]) -> Result<(usize, usize), Refusal>
    ensures { result ≡ data_of s.now }
{
    let (head, rest) = rules::judge(s, false).map_err(Refusal::BadScan)?;
    Ok((head, head + rest))
}

// The part that a span names; nothing where it is a refusal.
pub fn part_of(s: &[u8], span: Result<(usize, usize), Refusal>) -> &[u8]
    ensures bytes { result.now ≡ part_of s.now span }
    ensures place { result.ref_ptr ≡ bytes_on (span_place s.now span) s.entry.ref_ptr }
{
    match span {
        Ok((from, to)) => part::part(s, from, to),
        Err(_) => &s[..0],
    }
}
