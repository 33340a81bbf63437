//! What finish says: whether enough came, the bootstrap's own refusals over the given length, and the index by its row.
ghost use Rattle.std.specs.Prelude.{◌≡◌, ◌≤◌, length};
ghost use Rattle.paper.specs.Link.{finish_of};

use paper::link::Link;
use paper::refusal::Refusal;
use paper::sizes::Sizes;

// Of a link to which the bootstrap's first 32 bytes came.
fn booted(k: Link, row: &[u32]) -> Result<Sizes, Refusal>
    requires { (8192 ≤ length row.now) × (512 ≤ k.span) × (32 ≤ k.came) }
    ensures { result ≡ finish_of k row.now }
{
    let b = k.boot;
    let z = bootstrap::words::sizes_at(&b);
    let y = bootstrap::judge::sized(k.span, z)?;
    if k.came < y.n * y.l {
        return Err(Refusal::NotAllCame);
    }
    runs::judge(row, y)
}

pub fn verdict(k: Link, row: &[u32]) -> Result<Sizes, Refusal>
    ensures { result ≡ finish_of k row.now }
{
    if row.len() < 8192 {
        return Err(Refusal::TooSmall);
    }
    if k.span < 512 {
        return Err(Refusal::TooShort);
    }
    if k.came < 32 {
        return Err(Refusal::NotAllCame);
    }
    booted(k, row)
}
