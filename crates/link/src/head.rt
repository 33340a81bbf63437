//! The bootstrap's first 32 bytes, which a link keeps.
ghost use Rattle.std.specs.Prelude.{◌≡◌, ◌<◌};
ghost use Rattle.paper.specs.Sizes.{version_of, sizes_of};
ghost use Rattle.paper.specs.Link.{head_of, headed, end_after};
ghost use Rattle.link.specs.Taking.{shaping, shape_of};

use paper::link::Link;
use paper::sizes::Sizes;

// How many bytes of the piece are among them.
pub fn head_len(k: Link, piece: &[u8]) -> usize
    ensures { result ≡ head_of k piece.now }
{
    if k.span < 512 {
        0
    } else {
        32usize.saturating_sub(k.came).min(piece.len())
    }
}

fn shape(n: u32, l: u32, m: u32, version: usize) -> Sizes
    ensures { result ≡ shaping n l m version }
{
    Sizes {
        n: entries::row::wide(n),
        d: 0,
        l: entries::row::wide(l),
        m: entries::row::wide(m),
        u: 0,
        counter: 0,
        kind: 0,
        version,
    }
}

// What take asks of the sizes, N, L, M and the form, in either form. The rest is not decoded. (The numbers that both forms begin with are loaded last in
// the one and first in the other: else the compiler would load their bytes one by one, before it is asked which form it is.)
pub fn shape_at(boot: &[u8; 32]) -> Sizes
    ensures { result ≡ shape_of (sizes_of boot.now) }
{
    if lent::read::load32(boot, 28) == 0 {
        let n = lent::read::widened(lent::read::load16(boot, 0));
        let l = lent::read::widened(lent::read::load16(boot, 4));
        let m = lent::read::widened(lent::read::load16(boot, 6));
        shape(n, l, m, 0)
    } else {
        let m = lent::read::load32(boot, 12);
        let l = lent::read::load32(boot, 8);
        let n = lent::read::load32(boot, 0);
        shape(n, l, m, 1)
    }
}

// The byte at which the index ends, once the 32 have come and break no rule over the given length.
fn index_end(length: usize, came: usize, boot: &[u8]) -> usize
    ensures { result ≡ end_after length came boot.now }
{
    if came < 32 {
        return 0;
    }
    let z = bootstrap::words::sizes_at(boot);
    let Ok(y) = bootstrap::judge::sized(length, z) else {
        return 0;
    };
    y.n * y.l
}

// The link with the piece's first `h` bytes among them.
pub fn headed(k: Link, piece: &[u8], h: usize) -> Link
    requires { (h ≡ head_of k piece.now) × (0 < h) }
    ensures { result ≡ headed k piece.now }
{
    let mut boot = k.boot;
    lent::write::copy_to(&mut boot, k.came, lent::part::part(piece, 0, h));
    let came = k.came + h;
    let ends = index_end(k.span, came, &boot);
    Link {
        came,
        ends,
        boot,
        ..k
    }
}
