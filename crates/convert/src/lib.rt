//! A file moved to the other form: its bootstrap and index go to a second lent buffer, N records. Its data section is the same in either form.
#![tactic(auto)]

ghost use Rattle.std.specs.Prelude.{◌≡◌};
ghost use Rattle.paper.specs.Refusals.{taken_says};
ghost use Rattle.paper.specs.Convert.{convert_of, converted_out};

use form::Form;
use paper::refusal::Refusal;

mod entry;
mod fits;
mod form;
mod judged;
mod records;

// An old file in the current form: `out` then begins with its N records, and all after them is as it was.
pub fn to_current(file: &[u8], out: &mut [u8]) -> Result<(), Refusal>
    ensures result_value { taken_says result ≡ taken_says (convert_of 1 file.now out.old) }
    ensures out_after { out.new ≡ converted_out 1 file.now out.old }
{
    judged::converted(file, Form::Current, out)
}

// A current file in the old form. Both are calls of the paper, each by its name.
pub fn to_old(file: &[u8], out: &mut [u8]) -> Result<(), Refusal>
    ensures result_value { taken_says result ≡ taken_says (convert_of 0 file.now out.old) }
    ensures out_after { out.new ≡ converted_out 0 file.now out.old }
{
    judged::converted(file, Form::Old, out)
}
