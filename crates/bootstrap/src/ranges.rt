//! The ranges of the sizes.
ghost use Rattle.std.specs.Prelude.{◌≡◌};
ghost use Rattle.paper.specs.Sizes.{shaped, in_range};

use paper::sizes::Sizes;

// N, L and M are in their ranges, and so is the capacity.
pub fn shaped(z: Sizes) -> bool
    ensures { result ≡ shaped z }
{
    if !(Sizes::MIN_N..=Sizes::MAX_N).contains(&z.n) {
        return false;
    }
    if !(Sizes::MIN_L..=Sizes::MAX_L).contains(&z.l) {
        return false;
    }
    if !(Sizes::MIN_M..=z.l).contains(&z.m) {
        return false;
    }
    if z.l % z.m != 0 {
        return false;
    }
    (z.n - 1) * z.l / z.m <= Sizes::MAX_SLOTS
}

// So are D, U and the type.
pub fn in_range(z: Sizes) -> bool
    ensures { result ≡ in_range z }
{
    if !shaped(z) {
        return false;
    }
    if Sizes::MAX_RECORDS - z.n < z.d {
        return false;
    }
    if z.capacity() < z.u {
        return false;
    }
    z.kind <= Sizes::MAX_KIND
}
