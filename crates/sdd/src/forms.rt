//! The calls that move a file to the other form, into a second buffer.
ghost use Rattle.std.specs.Prelude.{◌≡◌};
ghost use Rattle.paper.specs.Convert.{convert_of, converted_out};
ghost use Rattle.sdd.specs.Face.{taken_c};

use super::face::Why;
use super::whys::taken;

#[unsafe(no_mangle)]
pub extern "C" fn sdd_to_current(file: &[u8], out: &mut [u8]) -> Why
    ensures value { result ≡ taken_c (convert_of 1 file.now out.old) }
    ensures out_after { out.new ≡ converted_out 1 file.now out.old }
{
    let t = convert::to_current(file, out);
    taken(t)
}

#[unsafe(no_mangle)]
pub extern "C" fn sdd_to_old(file: &[u8], out: &mut [u8]) -> Why
    ensures value { result ≡ taken_c (convert_of 0 file.now out.old) }
    ensures out_after { out.new ≡ converted_out 0 file.now out.old }
{
    let t = convert::to_old(file, out);
    taken(t)
}
