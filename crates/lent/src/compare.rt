//! Whether runs hold the same bytes, or zeros.
ghost use Rattle.std.specs.Prelude.{◌≡◌, length};
ghost use Rattle.lent.specs.Same.{same};
ghost use Rattle.lent.specs.Write.{zeros, pad};

// The loop has no early end, so that the compiler compares many bytes at a time: runs are mostly the same.
pub fn same(a: &[u8], b: &[u8]) -> bool
    ensures { result ≡ same a.now b.now }
{
    if a.len() != b.len() {
        return false;
    }
    let mut ok = true;
    for i in 0..a.len() {
        if a[i] != b[i] {
            ok = false;
        }
    }
    ok
}

// All zeros: the bytes are joined and tried once. The loop has no early end, so that the compiler joins many bytes at a time: they are mostly zeros.
// No method of a slice asks this, nor what same_padded does.
pub fn all_zero(a: &[u8]) -> bool
    ensures { result ≡ same a.now (zeros (length a.now)) }
{
    let mut met = 0u8;
    for x in a {
        met |= *x;
    }
    met == 0
}

// `src`, and zeros after it up to `n` bytes.
pub fn same_padded(a: &[u8], n: usize, src: &[u8]) -> bool
    ensures { result ≡ same a.now (pad n src.now) }
{
    let k = src.len();
    if n <= k {
        return same(a, src);
    }
    a.len() == n && same(&a[..k], src) && all_zero(&a[k..])
}
