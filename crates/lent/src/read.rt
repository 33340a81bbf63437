//! Numbers at a place of a run of bytes, the highest byte first. Past the end a byte counts as 0, so that no place is refused.
ghost use Rattle.std.specs.Prelude.{◌≡◌, ◌+◌, ◌≤◌, length, slice_index};
ghost use Rattle.lent.specs.Number.{Plain, be16, be32, be64, int16, widened};

pub fn byte(s: &[u8], at: usize) -> u8
    ensures { result ≡ slice_index s.now at }
{
    if at < s.len() { s[at] } else { 0 }
}

pub fn word16(s: &[u8], at: usize) -> u16
    ensures { result ≡ be16 s.now at }
{
    if s.len() <= at {
        return 0;
    }
    u16::from_be_bytes([byte(s, at), byte(s, at + 1)])
}

// The number and its bound in one fact, which the goals for overflow use; `as` alone says neither. wide likewise.
fn half(x: u8) -> u16
    ensures { Plain x 256 result }
{
    x as u16
}

// Two bytes that are all there.
// By sums as in load32, for the same reason.
pub fn load16(s: &[u8], at: usize) -> u16
    requires { at + 2 ≤ length s.now }
    ensures { result ≡ be16 s.now at }
{
    half(s[at]) * 256 + half(s[at + 1])
}

fn wide(x: u8) -> u32
    ensures { Plain x 256 result }
{
    x as u32
}

// Four bytes that are all there: the compiler makes one load of them. With `from_be_bytes` it does so too, but then no longer puts what calls this into the
// loops over the index, which take 1.7 times as long.
pub fn load32(s: &[u8], at: usize) -> u32
    requires { at + 4 ≤ length s.now }
    ensures { result ≡ be32 s.now at }
{
    wide(s[at]) * 16777216 + wide(s[at + 1]) * 65536 + wide(s[at + 2]) * 256 + wide(s[at + 3])
}

// By halves near the end of what is lent: with a test for each byte the search in junk takes longer. word64 likewise.
pub fn word32(s: &[u8], at: usize) -> u32
    ensures { result ≡ be32 s.now at }
{
    if s.len() <= at {
        return 0;
    }
    if at + 4 <= s.len() {
        return load32(s, at);
    }
    let hi = word16(s, at);
    let lo = word16(s, at + 2);
    (hi as u32) * 65536 + (lo as u32)
}

pub fn word64(s: &[u8], at: usize) -> u64
    ensures { result ≡ be64 s.now at }
{
    if s.len() <= at {
        return 0;
    }
    let hi = word32(s, at);
    let lo = word32(s, at + 4);
    (hi as u64) * 4294967296 + (lo as u64)
}

// Eight bytes that are all there.
pub fn load64(s: &[u8], at: usize) -> u64
    requires { at + 8 ≤ length s.now }
    ensures { result ≡ be64 s.now at }
{
    u64::from_be_bytes([
        s[at],
        s[at + 1],
        s[at + 2],
        s[at + 3],
        s[at + 4],
        s[at + 5],
        s[at + 6],
        s[at + 7],
    ])
}

// A 32-bit number that counts or indexes.
pub fn size(s: &[u8], at: usize) -> usize
    ensures { Plain (be32 s.now at) 4294967296 result }
{
    word32(s, at) as usize
}

// The 32 bits that stand for the same integer.
pub fn widened(v: u16) -> u32
    ensures { result ≡ widened v }
{
    i32::from(v.cast_signed()).cast_unsigned()
}

pub fn int16(s: &[u8], at: usize) -> i16
    ensures { result ≡ int16 (be16 s.now at) }
{
    word16(s, at).cast_signed()
}

// The integer of two bytes that are all there.
pub fn load_int16(s: &[u8], at: usize) -> i16
    requires { at + 2 ≤ length s.now }
    ensures { result ≡ int16 (be16 s.now at) }
{
    load16(s, at).cast_signed()
}
