//! A number of an entry whose bytes come one by one.
ghost use Rattle.std.specs.Prelude.{◌≡◌};
ghost use Rattle.paper.specs.Link.{more_of, width_of};

// One byte more: those before it move up, and as many bits stay as the form has.
pub fn more(version: usize, x: u32, b: u8) -> u32
    ensures { result ≡ more_of version x b }
{
    if version == 0 {
        return lent::read::widened(((x % 256) * 256 + b as u32) as u16);
    }
    (x % 16777216) * 256 + b as u32
}

// How many bytes it has.
pub fn width(version: usize) -> usize
    ensures { result ≡ width_of version }
{
    if version == 0 {
        return 2;
    }
    4
}
