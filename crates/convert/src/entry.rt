//! One entry in the wanted form, stored where it stands in either form. The second buffer has zeros there, so that an empty entry takes no store, and of another one what it
//! says is stored and its padding is not.
ghost use Rattle.std.specs.Prelude.{◌≡◌, ◌+◌, ◌≤◌, length};
ghost use Rattle.lent.specs.Part.{part};
ghost use Rattle.lent.specs.Write.{write};
ghost use Rattle.paper.specs.Sizes.{home_of};
ghost use Rattle.paper.specs.Convert.{carried_at};
ghost use Rattle.convert.specs.Form.{form_number};
ghost use Rattle.convert.specs.Going.{Told, Goes, told, old_scan, current_scan};

use super::form::Form;
use paper::sizes::Sizes;

// Bytes 8 to 59, which both forms have in the same place. They go by way of an array: the compiler cannot tell that the two buffers are apart, and would copy byte by byte.
fn middle(file: &[u8], from: usize) -> [u8; 52]
    requires { from + 52 ≤ length file.now }
    ensures { result ≡ part from (from + 52) file.now }
{
    let mut b = [0u8; 52];
    b.copy_from_slice(&file[from..from + 52]);
    b
}

// A scan of a current file: "first, last, 2, position code, bytes 8 to 59". The lower halves of first and last are all of them, and the position code stands at 60 there. Each
// number is read right before it is stored, so that the compiler copies its two bytes as one.
// Apart from current_scan, since places, widths and order differ; what the two share is middle.
fn old_scan(file: &[u8], at: usize, out: &mut [u8])
    requires { Told at (length file.now) (length out.old) }
    ensures { out.new ≡ write out.old at (old_scan file.now at) }
{
    lent::write::put16(out, at, lent::read::load16(file, at + 2));
    lent::write::put16(out, at + 2, lent::read::load16(file, at + 6));
    lent::write::put16(out, at + 4, 2);
    lent::write::put16(out, at + 6, lent::read::load16(file, at + 60));
    let b = middle(file, at + 8);
    lent::write::copy_to(out, at + 8, &b);
}

// A scan of an old file: "first, last, bytes 8 to 59, position code at 60". First and last are not negative, so that their upper halves are 0; the position code stands at 6
// there.
fn current_scan(file: &[u8], at: usize, out: &mut [u8])
    requires { Told at (length file.now) (length out.old) }
    ensures { out.new ≡ write out.old at (current_scan file.now at) }
{
    lent::write::put16(out, at, 0);
    lent::write::put16(out, at + 2, lent::read::load16(file, at));
    lent::write::put16(out, at + 4, 0);
    lent::write::put16(out, at + 6, lent::read::load16(file, at + 2));
    let b = middle(file, at + 8);
    lent::write::copy_to(out, at + 8, &b);
    lent::write::put16(out, at + 60, lent::read::load16(file, at + 6));
}

// What the entry of slot `s` of a current file says. A run that is not empty ends past record N, and to ask that needs the number as a whole:
// whether it is 0 the compiler would ask of each of its bytes, and load them one by one.
fn put_old(file: &[u8], z: Sizes, s: usize, out: &mut [u8])
    requires { Goes 0 file.now z s (length out.old) }
    ensures { out.new ≡ write out.old (home_of z s) (told 0 (carried_at file.now z s)) }
{
    let at = z.home(s);
    let last = lent::read::load32(file, at + 4);
    if z.n < entries::row::wide(last) {
        old_scan(file, at, out);
    }
}

// The same of an old file.
fn put_current(file: &[u8], z: Sizes, s: usize, out: &mut [u8])
    requires { Goes 1 file.now z s (length out.old) }
    ensures { out.new ≡ write out.old (home_of z s) (told 1 (carried_at file.now z s)) }
{
    let at = z.home(s);
    let last = lent::read::load16(file, at + 2);
    if z.n < last as usize {
        current_scan(file, at, out);
    }
}

// The same in the wanted form.
pub fn put_entry(file: &[u8], z: Sizes, form: Form, s: usize, out: &mut [u8])
    requires { Goes (form_number form) file.now z s (length out.old) }
    ensures { out.new ≡ write out.old (home_of z s) (told (form_number form) (carried_at file.now z s)) }
{
    match form {
        Form::Old => put_old(file, z, s, out),
        Form::Current => put_current(file, z, s, out),
    }
}
