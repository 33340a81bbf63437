//! A file judged, and converted where nothing is refused: open's own, then 17, then 19.
ghost use Rattle.std.specs.Prelude.{◌≡◌};
ghost use Rattle.paper.specs.Index.{open_of};
ghost use Rattle.paper.specs.Convert.{convert_of, converted_out};
ghost use Rattle.convert.specs.Form.{form_number};

use super::form::Form;
use entries::file::File;
use paper::refusal::Refusal;

// A file that opens: the second buffer's length is asked before anything is read for it.
fn opened(file: File, form: Form, out: &mut [u8]) -> Result<(), Refusal>
    requires { open_of file.bytes.now ≡ Ok file.z }
    ensures value { result ≡ convert_of (form_number form) file.entry.bytes.now out.old }
    ensures out_after { out.new ≡ converted_out (form_number form) file.entry.bytes.now out.old }
{
    if out.len() < file.z.n * file.z.l {
        return Err(Refusal::TooSmall);
    }
    if !super::fits::fits(file, form) {
        return Err(Refusal::NotConvertible);
    }
    super::records::put_records(file.bytes, file.z, form, out);
    Ok(())
}

// Any file, to the wanted form.
pub fn converted(file: &[u8], form: Form, out: &mut [u8]) -> Result<(), Refusal>
    ensures value { result ≡ convert_of (form_number form) file.now out.old }
    ensures out_after { out.new ≡ converted_out (form_number form) file.now out.old }
{
    let z = index::judge(file)?;
    opened(File { bytes: file, z }, form, out)
}
