//! The kinds of a job's writes: a data record, record 1, the slot's entry, record 1 with a lowered U, a record of zeros. Each answers the record that it wrote.
ghost use Rattle.std.specs.Prelude.{◌≡◌, ◌+◌, ◌*◌, ◌<◌, ◌≤◌};
ghost use Rattle.lent.specs.Write.{write, zeros, pad};
ghost use Rattle.lent.specs.Part.{part};
ghost use Rattle.paper.specs.Sizes.{start_of, record_of, home_of, boot_bytes, renewed};
ghost use Rattle.paper.specs.Index.{Booted};
ghost use Rattle.paper.specs.Store.{highest, data_after, used_after, counter_after, sizes_after, entry_after, lowered};
ghost use Rattle.writes.specs.Inside.{Held, Homed, Rowed, Lying, wrote_one};

use super::{boot, count, entry};
use paper::job::{Job, Step, Stepped};
use paper::sizes::Sizes;

// The answer for the record written, and the job one write on, which then expects the bootstrap `boot`.
#[inline(always)]
pub fn wrote(number: usize, j: Job, boot: [u8; 32]) -> Stepped
    requires { j.written ≤ 2000004 }
    ensures { result ≡ wrote_one number j boot }
{
    let count = j.written + 1;
    let mut next = j;
    next.boot = boot;
    next.written = count;
    Stepped {
        answer: Ok(Step::Wrote(number, count)),
        job: next,
    }
}

// A data record, padded with zeros where the scan ends in it. The file and its sizes stay apart here and below: a struct would hold the borrow that is written through.
pub fn write_data(file: &mut [u8], scan: &[u8], z: Sizes, j: Job) -> usize
    requires { Rowed file.old z j }
    ensures value { result ≡ j.first + j.written }
    ensures file_after { file.new ≡ write file.old (start_of z (j.first + j.written)) (pad z.l (part (j.written * z.l) (j.written * z.l + z.l) scan.now)) }
{
    let l = z.l;
    let first = j.first;
    let r = first + j.written;
    let from = j.written * l;
    let p = lent::part::part(scan, from, from + l);
    lent::write::put_padded(file, (r - 1) * l, l, p);
    r
}

// "after all ones comes zero": the counter goes up by a wrapping add.
fn renew(z: Sizes, d: usize, u: usize) -> Sizes
    ensures { result ≡ renewed z d u (counter_after z) }
{
    Sizes {
        d,
        u,
        counter: z.counter.wrapping_add(1),
        ..z
    }
}

// The sizes that the job's bootstrap states, with the U that it is to have.
fn sizes_after(z: Sizes, j: Job, u: usize) -> Sizes
    requires { Held z j }
    ensures { result ≡ renewed z (data_after z j) u (counter_after z) }
{
    if j.saves {
        let d = j.first + count::records(z, j) - 1 - z.n;
        return renew(z, z.d.max(d), u);
    }
    renew(z, z.d, u)
}

// Record 1: its first 32 bytes, all after them kept. U is the highest slot with a scan, the job's counted.
pub fn write_boot(file: &mut [u8], z: Sizes, j: Job, u: usize) -> usize
    requires homed { Homed file.old z j }
    requires u_value { u ≡ used_after file.old z j }
    ensures value { result ≡ 1 }
    ensures file_after { file.new ≡ write file.old 0 (boot_bytes (sizes_after file.old z j)) }
{
    let b = boot::boot_bytes(sizes_after(z, j, u));
    lent::write::copy_to(file, 0, &b);
    1
}

// Record 1 again, with U lowered to what is left; the counter is not raised twice.
pub fn write_used(file: &mut [u8], z: Sizes, u: usize) -> usize
    requires booted { Booted file.old z }
    requires u_value { u ≡ highest file.old z }
    ensures value { result ≡ 1 }
    ensures file_after { file.new ≡ write file.old 0 (boot_bytes (lowered file.old z)) }
{
    let b = boot::boot_bytes(Sizes { u, ..z });
    lent::write::copy_to(file, 0, &b);
    1
}

// The slot's entry, the other bytes of its record kept.
pub fn write_entry(file: &mut [u8], z: Sizes, j: Job) -> usize
    requires { Homed file.old z j }
    ensures value { result ≡ record_of z j.slot }
    ensures file_after { file.new ≡ write file.old (home_of z j.slot) (entry_after z j) }
{
    let r = z.record(j.slot);
    entry::put_entry(file, z, j);
    r
}

// Zeros over a record of the old run.
pub fn write_zeros(file: &mut [u8], z: Sizes, r: usize) -> usize
    requires { Lying file.old z r }
    ensures value { result ≡ r }
    ensures file_after { file.new ≡ write file.old (start_of z r) (zeros z.l) }
{
    let l = z.l;
    lent::write::zero_to(file, (r - 1) * l, l);
    r
}
