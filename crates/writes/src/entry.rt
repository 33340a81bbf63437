//! The slot's entry: the M bytes that a job writes there, and their comparison.
ghost use Rattle.std.specs.Prelude.{◌≡◌, [], ◌∷◌, ◌++◌};
ghost use Rattle.lent.specs.Number.{words};
ghost use Rattle.lent.specs.Same.{same};
ghost use Rattle.lent.specs.Write.{write};
ghost use Rattle.paper.specs.Sizes.{home_of, Shaped, Slotted};
ghost use Rattle.paper.specs.Index.{entry_at};
ghost use Rattle.paper.specs.Store.{entry_after};
ghost use Rattle.writes.specs.Inside.{Placed, Homed, front_of};

use super::count;
use paper::job::Job;
use paper::sizes::Sizes;

// Bytes 0 to 61 of an entry.
fn front(first: u32, last: u32, about: [u8; 54]) -> [u8; 62]
    ensures { result ≡ words (first ∷ last ∷ []) ++ about }
{
    let mut b = [0u8; 62];
    lent::write::put32(&mut b, 0, first);
    lent::write::put32(&mut b, 4, last);
    lent::write::copy_to(&mut b, 8, &about);
    b
}

// The same of a save's entry.
fn front_of(z: Sizes, j: Job) -> [u8; 62]
    requires shaped { Shaped z }
    requires placed { Placed z j }
    ensures { result ≡ front_of z j }
{
    let last = j.first + count::records(z, j) - 1;
    let about = j.about;
    front(j.first as u32, last as u32, about)
}

// "The home of a slot": in its record, at its place there.
fn home(z: Sizes, slot: usize) -> usize
    requires { Slotted z slot }
    ensures { result ≡ home_of z slot }
{
    (z.record(slot) - 1) * z.l + z.place(slot)
}

// The entry that the job writes, in its place.
pub fn put_entry(file: &mut [u8], z: Sizes, j: Job)
    requires { Homed file.old z j }
    ensures { file.new ≡ write file.old (home_of z j.slot) (entry_after z j) }
{
    let at = home(z, j.slot);
    if j.saves {
        let b = front_of(z, j);
        lent::write::put_padded(file, at, z.m, &b);
    } else {
        lent::write::zero_to(file, at, z.m);
    }
}

// Whether it stands there.
pub fn entry_stands(file: &[u8], z: Sizes, j: Job) -> bool
    requires { Homed file.now z j }
    ensures { result ≡ same (entry_at file.now z j.slot) (entry_after z j) }
{
    let at = z.home(j.slot);
    let e = at + z.m;
    let p = lent::part::part(file, at, e);
    if j.saves {
        let b = front_of(z, j);
        return lent::compare::same_padded(p, z.m, &b);
    }
    lent::compare::all_zero(p)
}
