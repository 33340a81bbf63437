//! The verdict over the slow link: begin, take and finish.
ghost use Rattle.std.specs.Prelude.{◌≡◌};
ghost use Rattle.paper.specs.Answers.{taken_in};
ghost use Rattle.paper.specs.Link.{fresh_link, begin_of, take_of, take_row, finish_of};
ghost use Rattle.sdd.specs.Face.{opened_c, link_c, link_of, linked_c, TakenSmall};

use super::face::{CLink, CLinked, COpened};
use super::looks::opened;
use super::whys::{accepted, why};
use paper::link::Link;
use paper::refusal::Refusal;

// The link that the numbers stand for.
fn stood(c: CLink) -> Link
    ensures { result ≡ link_of c }
{
    let boot = c.boot;
    Link {
        span: c.span as usize,
        came: c.came as usize,
        ends: c.ends as usize,
        boot,
    }
}

// A link, in numbers.
fn numbers(k: Link) -> CLink
    ensures { result ≡ link_c k }
{
    let boot = k.boot;
    CLink {
        span: k.span as u64,
        came: k.came as u64,
        ends: k.ends as u64,
        boot,
    }
}

// Beside a refusal stands the link `before`: of zeros for begin, for take the one that was lent.
fn linked(before: Link, l: Result<Link, Refusal>) -> CLinked
    requires { TakenSmall (taken_in l) }
    ensures { result ≡ linked_c before l }
{
    match l {
        Ok(k) => CLinked {
            why: accepted(),
            link: numbers(k),
        },
        Err(r) => CLinked {
            why: why(r),
            link: numbers(before),
        },
    }
}

#[unsafe(no_mangle)]
pub extern "C" fn sdd_link_begin(length: u64, row: &[u32]) -> CLinked
    ensures { result ≡ linked_c (fresh_link 0) (begin_of length row.now) }
{
    linked(Link::ZEROS, link::begin(length as usize, row))
}

#[unsafe(no_mangle)]
pub extern "C" fn sdd_link_take(c: CLink, piece: &[u8], row: &mut [u32]) -> CLinked
    ensures value { result ≡ linked_c (link_of c) (take_of (link_of c) piece.now row.old) }
    ensures row_after { row.new ≡ take_row (link_of c) piece.now row.old }
{
    let k = stood(c);
    linked(k, link::take(k, piece, row))
}

#[unsafe(no_mangle)]
pub extern "C" fn sdd_link_finish(c: CLink, row: &[u32]) -> COpened
    ensures { result ≡ opened_c c.span (finish_of (link_of c) row.now) }
{
    let k = stood(c);
    let o = link::finish(k, row);
    opened(o, k.span)
}
