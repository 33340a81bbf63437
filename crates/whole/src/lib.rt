//! A length as read, from the 64 bits of a double, by integer operations alone.
#![tactic(auto)]

ghost use Rattle.std.specs.Prelude.{◌≡◌};
ghost use Rattle.whole.specs.Length.{length_of};
ghost use Rattle.whole.specs.Number.{up_to, whole_of};

// 2 ^ 52: the exponent's field stands above 52 bits of digits, and the leading digit, which the bits leave out, is worth as much.
const LEAD: u64 = 4503599627370496;

// The length that the bits of a double stand for. One answer serves for no length and for one above 65,536: every rule refuses both.
pub fn length(bits: u64) -> Option<usize>
    ensures { result ≡ up_to 65536 (length_of bits) }
{
    whole_up_to(bits)
}

// The same of a whole number. Its digits count units of 2 ^ (exponent - 1075), so here as many of 1 / unit.
fn whole_up_to(bits: u64) -> Option<usize>
    ensures { result ≡ up_to 65536 (whole_of bits) }
{
    if bits == 0 {
        return Some(0);
    }
    // a sign bit that is set makes it 2,048 or more
    let exponent = bits / LEAD;
    if exponent < 1023 {
        return None;
    }
    if 1039 < exponent {
        return None;
    }
    let digits = LEAD + bits % LEAD;
    let unit = 1u64 << (1075 - exponent);
    if digits % unit != 0 {
        return None;
    }
    let n = digits / unit;
    if 65536 < n {
        return None;
    }
    Some(n as usize)
}
