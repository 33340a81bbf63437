//! The bootstrap as the 32 bytes that are written.
ghost use Rattle.std.specs.Prelude.{◌≡◌, ◌+◌, ◌≤◌, [], ◌∷◌, length, take};
ghost use Rattle.lent.specs.Number.{words};
ghost use Rattle.lent.specs.Write.{write};
ghost use Rattle.paper.specs.Sizes.{boot_bytes};
ghost use Rattle.writes.specs.Inside.{Narrow};

use paper::sizes::Sizes;

// Four words, one after the other.
fn put_four(file: &mut [u8], at: usize, a: u32, b: u32, c: u32, d: u32)
    requires { at + 16 ≤ length file.old }
    ensures { file.new ≡ write file.old at (words (a ∷ b ∷ c ∷ d ∷ [])) }
{
    lent::write::put32(file, at, a);
    lent::write::put32(file, at + 4, b);
    lent::write::put32(file, at + 8, c);
    lent::write::put32(file, at + 12, d);
}

// The bootstrap's eight words.
pub fn boot_bytes(z: Sizes) -> [u8; 32]
    requires { Narrow z }
    ensures { result ≡ boot_bytes z }
{
    let mut b = [0u8; 32];
    put_four(&mut b, 0, z.n as u32, z.d as u32, z.l as u32, z.m as u32);
    put_four(&mut b, 16, z.u as u32, z.counter, z.kind as u32, 1);
    b
}

// The first 32 bytes of a file. By way of `part`, so that the compiler moves them as they are: of a copy of known length it loads again what it has read of
// them, in pieces, and a step waits for these.
#[inline(always)]
pub fn head(file: &[u8]) -> [u8; 32]
    requires { 32 ≤ length file.now }
    ensures { result ≡ take 32 file.now }
{
    let mut b = [0u8; 32];
    lent::write::copy_to(&mut b, 0, lent::part::part(file, 0, 32));
    b
}
