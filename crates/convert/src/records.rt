//! The N records in the wanted form: record 1, then the index. One pass over the slots in use; those above U are empty, and are zeros.
ghost use Rattle.std.specs.Prelude.{◌≡◌, [], ◌∷◌, ◌+◌, ◌≤◌, length};
ghost use Rattle.lent.specs.Number.{numbers};
ghost use Rattle.lent.specs.Write.{write, pad};
ghost use Rattle.paper.specs.Convert.{Convertible, carried_at, boot_as, entries_as, records_as};
ghost use Rattle.convert.specs.Form.{form_number};
ghost use Rattle.convert.specs.Going.{Short, Heads};

use super::form::Form;
use paper::sizes::Sizes;

// Three 16-bit numbers, one after the other.
fn put_three(file: &mut [u8], at: usize, a: u16, b: u16, c: u16)
    requires { at + 6 ≤ length file.old }
    ensures { file.new ≡ write file.old at (numbers 2 (a ∷ b ∷ c ∷ [])) }
{
    lent::write::put16(file, at, a);
    lent::write::put16(file, at + 2, b);
    lent::write::put16(file, at + 4, c);
}

// "to old: six words", of 16 bits.
fn old_bytes(z: Sizes) -> [u8; 12]
    requires { Short z }
    ensures { result ≡ numbers 2 (z.n ∷ z.d ∷ z.l ∷ z.m ∷ z.u ∷ z.counter ∷ []) }
{
    let mut b = [0u8; 12];
    put_three(&mut b, 0, z.n as u16, z.d as u16, z.l as u16);
    put_three(&mut b, 6, z.m as u16, z.u as u16, z.counter as u16);
    b
}

// Record 1: the bootstrap, with "zeros to L".
fn put_boot(z: Sizes, form: Form, out: &mut [u8])
    requires { Heads (form_number form) z (length out.old) }
    ensures { out.new ≡ write out.old 0 (pad z.l (boot_as (form_number form) z)) }
{
    let l = z.l;
    match form {
        Form::Old => lent::write::put_padded(out, 0, l, &old_bytes(z)),
        Form::Current => lent::write::put_padded(out, 0, l, &writes::boot::boot_bytes(z)),
    }
}

// The entries of the slots in use: zeros, and over them what each entry says.
fn put_entries(file: &[u8], z: Sizes, form: Form, out: &mut [u8])
    requires { Convertible (form_number form) file.now out.old z }
    ensures { out.new ≡ write out.old z.l (entries_as (form_number form) z.m (carried_at file.now z) z.u) }
{
    lent::write::zero_to(&mut *out, z.l, z.u * z.m);
    for i in 0..z.u {
        super::entry::put_entry(file, z, form, i + 1, &mut *out);
    }
}

// All of it: the second buffer then begins with the N records.
pub fn put_records(file: &[u8], z: Sizes, form: Form, out: &mut [u8])
    requires { Convertible (form_number form) file.now out.old z }
    ensures { out.new ≡ write out.old 0 (records_as (form_number form) z (carried_at file.now z)) }
{
    let cap = z.capacity();
    put_boot(z, form, &mut *out);
    put_entries(file, z, form, &mut *out);
    let above = z.l + z.u * z.m;
    lent::write::zero_to(out, above, (cap - z.u) * z.m);
}
