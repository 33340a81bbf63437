//! The rules, a function each, and all of them in order.
ghost use Rattle.std.specs.Prelude.{◌≡◌, ◌≤◌, ◌<◌};
ghost use Rattle.lent.specs.Number.{be64};
ghost use Rattle.whole.specs.Length.{length_of};
ghost use Rattle.whole.specs.Number.{up_to};
ghost use Rattle.paper.specs.Scan.{rule1, rule2, rule3, ruled_of};
ghost use Rattle.scan.specs.Lengths.{head_kept, rest_kept, fills, HeadIs};

use super::preamble;
use lent::read;

// Rule 1: how many bytes there are.
#[tactic(auto, unfolding(paper::specs::Scan::rule1))]
fn size_kept(size: usize, saving: bool) -> bool
    ensures { result ≡ rule1 size saving }
{
    256 <= size && (!saving || size <= 65536)
}

// Rule 2: how many classes.
#[tactic(auto, unfolding(paper::specs::Scan::rule2))]
pub fn count_kept(n: usize) -> bool
    ensures { result ≡ rule2 n }
{
    13 <= n && n <= 15
}

// Rule 3: the starts of the n classes.
#[tactic(auto, unfolding(paper::specs::Scan::rule3))]
fn starts_kept(starts: [i16; 15], n: usize) -> bool
    requires { n ≤ 15 }
    ensures { result ≡ rule3 starts n }
{
    preamble::word(starts, 0) == 5
        && 21 <= preamble::word(starts, 1)
        && preamble::each_greater(starts, n)
}

// The length at a place, up to 65,536: rules 4 and 5 refuse a longer one.
fn length_at(s: &[u8], at: usize) -> Option<usize>
    ensures { result ≡ up_to 65536 (length_of (be64 s.now at)) }
{
    whole::length(read::word64(s, at))
}

// Rule 4: HEADLEN where it is kept.
fn head_kept(s: &[u8], last: usize) -> Option<usize>
    requires { last < 32768 }
    ensures { result ≡ head_kept s.now last }
{
    let head = length_at(s, 32)?;
    if head % 8 != 0 {
        return None;
    }
    if head < 8 * last {
        return None;
    }
    if s.len() < head {
        return None;
    }
    Some(head)
}

// Rule 5: DATALEN where it is kept.
fn rest_kept(s: &[u8], head: usize) -> Option<usize>
    requires { HeadIs s.now head }
    ensures { result ≡ rest_kept s.now }
{
    let rest = length_at(s, 40)?;
    if rest % 4 != 0 {
        return None;
    }
    if s.len() < head + rest {
        return None;
    }
    Some(rest)
}

// Rule 6: the lengths make up the scan that is saved.
fn sum_kept(total: usize, size: usize, saving: bool) -> bool
    ensures { result ≡ fills total size saving }
{
    !saving || total == size
}

// The first rule broken, or HEADLEN and DATALEN.
// A broken rule is its number, which document 01 gives and refusal 11 hands on: an enum would be turned into it at once.
pub fn judge(s: &[u8], saving: bool) -> Result<(usize, usize), usize>
    ensures { result ≡ ruled_of s.now saving }
{
    if !size_kept(s.len(), saving) {
        return Err(1);
    }
    let n = preamble::classes(s);
    if !count_kept(n) {
        return Err(2);
    }
    let starts = preamble::starts(s);
    if !starts_kept(starts, n) {
        return Err(3);
    }
    let head = head_kept(s, preamble::word(starts, n - 1)).ok_or(4usize)?;
    let rest = rest_kept(s, head).ok_or(5usize)?;
    if !sum_kept(head + rest, s.len(), saving) {
        return Err(6);
    }
    Ok((head, rest))
}
