//! What an entry's kind says, in numbers.
ghost use Rattle.std.specs.Prelude.{◌≡◌};
ghost use Rattle.paper.specs.Refusals.{kind_says};

use paper::entry::Kind;

// 0 other, 1 continuum, 2 spectral line.
// Three fields of the C struct, each by its name: a From could give but one.
pub fn number(k: Kind) -> u16
    ensures { result ≡ (kind_says k).number }
{
    match k {
        Kind::Other(_, _) => 0,
        Kind::Continuum(_, _, _) => 1,
        Kind::Spectral(_, _, _) => 2,
    }
}

pub fn single(k: Kind) -> f32
    ensures { result ≡ (kind_says k).single }
{
    match k {
        Kind::Other(a, _) => a,
        Kind::Continuum(_, a, _) => a,
        Kind::Spectral(_, a, _) => a,
    }
}

pub fn double(k: Kind) -> f64
    ensures { result ≡ (kind_says k).double }
{
    match k {
        Kind::Other(_, b) => b,
        Kind::Continuum(_, _, b) => b,
        Kind::Spectral(_, _, b) => b,
    }
}
