//! A part of what is lent.
ghost use Rattle.std.specs.Prelude.{◌≡◌};
ghost use Rattle.lent.specs.Part.{part, place_in, bytes_on};

// The bytes from `from` up to `to`, as many of them as there are.
pub fn part(s: &[u8], from: usize, to: usize) -> &[u8]
    ensures bytes { result.now ≡ part from to s.now }
    ensures place { result.ref_ptr ≡ bytes_on (place_in from to s.now) s.entry.ref_ptr }
{
    let end = to.min(s.len());
    if end <= from {
        return &s[..0];
    }
    &s[from..end]
}
