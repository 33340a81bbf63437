//! The bootstrap's words, in either form, whatever they are.
ghost use Rattle.std.specs.Prelude.{◌≡◌, ◌≤◌, ◌<◌};
ghost use Rattle.lent.specs.Number.{Plain};
ghost use Rattle.paper.specs.Sizes.{word_at, version_of, counter_of, type_of, sizes_of};

use paper::sizes::Sizes;

// Number `i` of those at place `at`, in the form that the version says.
pub fn word(file: &[u8], version: usize, at: usize, i: usize) -> u32
    requires { (at ≤ 4096000000) × (i < 8) }
    ensures { result ≡ word_at version file.now at i }
{
    if version == 0 {
        let v = lent::read::word16(file, at + 2 * i);
        return lent::read::widened(v);
    }
    lent::read::word32(file, at + 4 * i)
}

// A word of the bootstrap that counts.
fn size(file: &[u8], version: usize, i: usize) -> usize
    requires { i < 8 }
    ensures { Plain (word_at version file.now 0 i) 4294967296 result }
{
    word(file, version, 0, i) as usize
}

// The counter is plain bits in either form.
fn counter(file: &[u8], version: usize) -> u32
    requires { version ≡ version_of file.now }
    ensures { result ≡ counter_of file.now }
{
    if version == 0 {
        return lent::read::word16(file, 10) as u32;
    }
    lent::read::word32(file, 20)
}

// The old form has no type.
fn kind(file: &[u8], version: usize) -> usize
    requires { version ≡ version_of file.now }
    ensures { result ≡ type_of file.now }
{
    if version == 0 {
        return 0;
    }
    lent::read::size(file, 24)
}

// The sizes that the first 32 bytes state, whatever they are. Word 8 says in which form.
pub fn sizes_at(file: &[u8]) -> Sizes
    ensures { result ≡ sizes_of file.now }
{
    let version = lent::read::size(file, 28);
    Sizes {
        n: size(file, version, 0),
        d: size(file, version, 1),
        l: size(file, version, 2),
        m: size(file, version, 3),
        u: size(file, version, 4),
        counter: counter(file, version),
        kind: kind(file, version),
        version,
    }
}
