//! Refusal 19: whether a file can be said in the wanted form. Each direction asks its own question of the entries, in one pass.
ghost use Rattle.std.specs.Prelude.{◌≡◌, ◌≤◌, ltb};
ghost use Rattle.lent.specs.Lists.{all};
ghost use Rattle.lent.specs.Least.{least};
ghost use Rattle.paper.specs.Sizes.{capacity_of};
ghost use Rattle.paper.specs.Index.{run_of, Sound};
ghost use Rattle.paper.specs.Convert.{narrow_tests, wide_run, other_magic};
ghost use Rattle.convert.specs.Form.{form_number};
ghost use Rattle.convert.specs.Going.{fits_form};

use super::form::Form;
use entries::file::File;
use paper::sizes::Run;

// Neither first nor last is above 32,767.
fn narrow(a: Run) -> bool
    ensures { result ≡ all (narrow_tests a) }
{
    a.first <= 32767 && a.last <= 32767
}

// Some slot up to U has a first or a last above 32,767.
fn any_wide(file: File) -> bool
    ensures { result ≡ ltb 0 (least (wide_run (run_of file.entry.bytes.now file.entry.z)) file.entry.z.u) }
{
    for i in 0..file.z.u {
        let a = file.run_at(i + 1);
        if !narrow(a) {
            return true;
        }
    }
    false
}

// The same. A run ends in the data section, so that a file of no more records is not gone through.
// Sound is no type: four functions of this crate alone ask for it.
fn wide(file: File) -> bool
    requires { Sound file.bytes.now file.z }
    ensures { result ≡ ltb 0 (least (wide_run (run_of file.entry.bytes.now file.entry.z)) file.entry.z.u) }
{
    32767 < file.z.n + file.z.d && any_wide(file)
}

// Slot `s` of an old file holds a scan of another magic than 2. An empty entry's is not asked, and most others have it: the run is looked at last.
fn other_magic(file: File, s: usize) -> bool
    requires { (1 ≤ s) × (s ≤ capacity_of file.z) × (file.z.version ≡ 0) }
    ensures { result ≡ other_magic file.entry.bytes.now file.entry.z s }
{
    let at = file.z.home(s);
    lent::read::load16(file.bytes, at + 4) != 2 && !entries::entry::empty(file.run_at(s))
}

// Some slot of an old file up to U does.
fn any_other(file: File) -> bool
    requires { file.z.version ≡ 0 }
    ensures { result ≡ ltb 0 (least (other_magic file.entry.bytes.now file.entry.z) file.entry.z.u) }
{
    for i in 0..file.z.u {
        if other_magic(file, i + 1) {
            return true;
        }
    }
    false
}

// A current file of type 0, going old: D, the counter and each run.
fn fits_old(file: File) -> bool
    requires { Sound file.bytes.now file.z × (file.z.version ≡ 1) × (file.z.kind ≡ 0) }
    ensures { result ≡ fits_form 0 file.entry.bytes.now file.entry.z }
{
    if 32767 < file.z.d || 65535 < file.z.counter {
        return false;
    }
    !wide(file)
}

// An old file, going to the current form: each magic.
fn fits_current(file: File) -> bool
    requires { Sound file.bytes.now file.z × (file.z.version ≡ 0) × (file.z.kind ≡ 0) }
    ensures { result ≡ fits_form 1 file.entry.bytes.now file.entry.z }
{
    !any_other(file)
}

// All of 19, in its order.
pub fn fits(file: File, form: Form) -> bool
    requires { Sound file.bytes.now file.z }
    ensures { result ≡ fits_form (form_number form) file.entry.bytes.now file.entry.z }
{
    if file.z.version == form.number() || file.z.kind == 1 {
        return false;
    }
    match form {
        Form::Old => fits_old(file),
        Form::Current => fits_current(file),
    }
}
