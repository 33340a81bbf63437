//! The verdict over the slow link: the length first, then bytes in pieces cut anywhere, then finish. What is kept of them is a link and a row that the caller lends.
#![tactic(auto)]

ghost use Rattle.std.specs.Prelude.{◌≡◌, true, ◌+◌, ◌≤◌, ◌<◌, length};
ghost use Rattle.paper.specs.Sizes.{sizes_of};
ghost use Rattle.paper.specs.Refusals.{taken_says, opened_says};
ghost use Rattle.paper.specs.Answers.{taken_in};
ghost use Rattle.paper.specs.Link.{fresh_link, head_of, row_after, took_link, took_row, begin_of, take_of, take_row, link_in, finish_of};
ghost use Rattle.link.specs.Taking.{counted};

use paper::link::Link;
use paper::refusal::Refusal;
use paper::sizes::Sizes;

mod head;
mod number;
mod slots;
mod verdict;

// A link to which nothing has come.
fn fresh(length: usize) -> Link
    ensures { result ≡ fresh_link length }
{
    Link {
        span: length,
        ..Link::ZEROS
    }
}

// 02, 2026-07: the length, of a file that is to be judged as it comes. 17 where the row has fewer than 8,192 elements.
pub fn begin(length: usize, row: &[u32]) -> Result<Link, Refusal>
    ensures answer { taken_says (taken_in result) ≡ taken_says (taken_in (begin_of length row.now)) }
    ensures link { link_in (fresh_link 0) result ≡ link_in (fresh_link 0) (begin_of length row.now) }
{
    if row.len() < 8192 {
        Err(Refusal::TooSmall)
    } else {
        Ok(fresh(length))
    }
}

// Bytes that follow the bootstrap's first 32: those before the end of the index go to the row. Answers how many have come then. (Where it is handed
// the link in place of what it asks of it, a byte of the index takes 1.08 times as long.)
fn body(boot: &[u8; 32], came: usize, ends: usize, piece: &[u8], row: &mut [u32]) -> usize
    requires { 8192 ≤ length row.old }
    ensures value { result ≡ came + length (counted came ends piece.now) }
    ensures row_after { row.new ≡ row_after (sizes_of boot.now) came (counted came ends piece.now) row.old }
{
    if ends <= came {
        return came;
    }
    let n = piece.len().min(ends - came);
    let z = head::shape_at(boot);
    slots::lay(z, came, lent::part::part(piece, 0, n), row);
    came + n
}

// A piece whose first `h` bytes are among the 32.
fn opening(k: Link, piece: &[u8], h: usize, row: &mut [u32]) -> Link
    requires { (8192 ≤ length row.old) × (h ≡ head_of k piece.now) × (0 < h) }
    ensures value { result ≡ took_link k piece.now }
    ensures row_after { row.new ≡ took_row k piece.now row.old }
{
    let mut d = head::headed(k, piece, h);
    let b = d.boot;
    d.came = body(
        &b,
        d.came,
        d.ends,
        lent::part::part(piece, h, piece.len()),
        row,
    );
    d
}

fn took(k: Link, piece: &[u8], row: &mut [u32]) -> Link
    requires { 8192 ≤ length row.old }
    ensures value { result ≡ took_link k piece.now }
    ensures row_after { row.new ≡ took_row k piece.now row.old }
{
    let h = head::head_len(k, piece);
    if h != 0 {
        return opening(k, piece, h, row);
    }
    let b = k.boot;
    let mut d = k;
    d.came = body(&b, k.came, k.ends, piece, row);
    d
}

// All has come that counts: most pieces of a file are passed over, without a look at them.
fn full(k: Link) -> bool
    ensures { result ≡ true → (32 ≤ k.came) × (k.ends ≤ k.came) }
{
    32 <= k.came && k.ends <= k.came
}

// The next bytes of the file, as many as there are; 17 where the row is too short, the link and the row staying as they were.
pub fn take(link: Link, piece: &[u8], row: &mut [u32]) -> Result<Link, Refusal>
    ensures answer { taken_says (taken_in result) ≡ taken_says (taken_in (take_of link piece.now row.old)) }
    ensures link { link_in link result ≡ link_in link (take_of link piece.now row.old) }
    ensures row { row.new ≡ take_row link piece.now row.old }
{
    if row.len() < 8192 {
        return Err(Refusal::TooSmall);
    }
    if full(link) {
        return Ok(link);
    }
    Ok(took(link, piece, row))
}

// What open says of the file, as far as enough of it came: 17, 1, 20, 3 to 5, 20 and then 6 to 8, or the sizes.
pub fn finish(link: Link, row: &[u32]) -> Result<Sizes, Refusal>
    ensures { opened_says result ≡ opened_says (finish_of link row.now) }
{
    verdict::verdict(link, row)
}
