//! The slots in whatever order: a mark for each record, and a mark that is met is a doubt. A record up to N is marked too, so that a run among them meets it.
ghost use Rattle.std.specs.Prelude.{◌≡◌, true, ◌*◌, ◌+◌, ◌/◌, ◌≤◌, ◌<◌, length};
ghost use Rattle.marks.specs.Marks.{Clear};
ghost use Rattle.paper.specs.Sizes.{Ranged};
ghost use Rattle.paper.specs.Index.{run_of, row_run};
ghost use Rattle.entries.specs.Row.{Fits};
ghost use Rattle.index.specs.Judging.{Decoded, JudgedTo, Reach, Shows, Lodged};

use entries::file::File;
use paper::sizes::{Run, Sizes};

// Marks the records of a run, or answers that one of them was marked.
#[inline(always)]
fn lodge(a: Run, marks: &mut [u64]) -> bool
    requires { (a.first ≤ a.last) × (a.last ≤ 1000000) × (a.last / 64 < length marks.old) }
    ensures { result ≡ true → Lodged marks.old marks.new a }
{
    a.last == 0 || marks::take_run(marks, a.first, a.last)
}

// The same of a run that is tried first: it is in order and ends at record `top` or before it.
#[inline(always)]
fn lodge_to(a: Run, top: usize, marks: &mut [u64]) -> bool
    requires { (top ≤ 1000000) × (top / 64 < length marks.old) }
    ensures { result ≡ true → (a.first ≤ a.last) × (a.last ≤ top) × Lodged marks.old marks.new a }
{
    a.first <= a.last && a.last <= top && lodge(a, marks)
}

// Marks the records of the first `j` slots of the row, or answers that fewer meet no mark: the marks are then of no use.
fn lay_row(row: &[u32], z: Sizes, j: usize, marks: &mut [u64]) -> usize
    requires ranged { Ranged z }
    requires j_in_bounds { (2 * j ≤ length row.now) × (j ≤ z.u) × Fits z (row_run row.now) j }
    requires reach { Reach z marks.old × Shows marks.old z.n (row_run row.now) 0 }
    ensures { (result ≤ j) × (j ≤ result → Shows marks.new z.n (row_run row.now) j) }
{
    for i in 0..j {
        let a = entries::row::run_in(row, i + 1);
        if !lodge(a, &mut *marks) {
            return i;
        }
    }
    j
}

// Goes on from slot `j` through a file of the current form.
fn lay_on(file: File, j: usize, row: &mut [u32], marks: &mut [u64]) -> usize
    requires decoded { Decoded file.bytes.now file.z row.old j × (file.z.version ≡ 1) }
    requires fits { Fits file.z (run_of file.bytes.now file.z) j }
    requires reach { Reach file.z marks.old × Shows marks.old file.z.n (run_of file.bytes.now file.z) j }
    ensures judged_to { JudgedTo file.entry.bytes.now file.entry.z row.new result }
    ensures shows { file.entry.z.u ≤ result → Shows marks.new file.entry.z.n (run_of file.entry.bytes.now file.entry.z) file.entry.z.u }
{
    let u = file.z.u;
    let top = file.z.n + file.z.d;
    let mut i = j;
    while i < u {
        let a = file.put_current(i + 1, &mut *row);
        if !lodge_to(a, top, &mut *marks) {
            return i;
        }
        i = super::skip::skip(&file, a, i + 1, &mut *row);
    }
    i
}

// Goes on from slot `j` through the row, which holds every slot in use.
pub fn lay_rest(row: &[u32], z: Sizes, j: usize, marks: &mut [u64]) -> usize
    requires ranged { Ranged z }
    requires u_in_bounds { (2 * z.u ≤ length row.now) × (j ≤ z.u) × Fits z (row_run row.now) j }
    requires reach { Reach z marks.old × Shows marks.old z.n (row_run row.now) j }
    ensures upper_bound { (result ≤ z.u) × Fits z (row_run row.now) result }
    ensures shows { z.u ≤ result → Shows marks.new z.n (row_run row.now) z.u }
{
    let u = z.u;
    let top = z.n + z.d;
    for i in j..u {
        let a = entries::row::run_in(row, i + 1);
        if !lodge_to(a, top, &mut *marks) {
            return i;
        }
    }
    u
}

// Of an old file the row is filled first: to ask for the form in `lay_on`, slot by slot, would cost the current form 8 in 100.
fn lay_old(file: File, j: usize, row: &mut [u32], marks: &mut [u64]) -> usize
    requires decoded { Decoded file.bytes.now file.z row.old j }
    requires fits { Fits file.z (run_of file.bytes.now file.z) j }
    requires reach { Reach file.z marks.old × Shows marks.old file.z.n (run_of file.bytes.now file.z) j }
    ensures judged_to { JudgedTo file.entry.bytes.now file.entry.z row.new result }
    ensures shows { file.entry.z.u ≤ result → Shows marks.new file.entry.z.n (run_of file.entry.bytes.now file.entry.z) file.entry.z.u }
{
    file.fill(j, &mut *row);
    lay_rest(&*row, file.z, j, marks)
}

// The rest of the slots, by the form.
fn lay_more(file: File, j: usize, row: &mut [u32], marks: &mut [u64]) -> usize
    requires decoded { Decoded file.bytes.now file.z row.old j }
    requires fits { Fits file.z (run_of file.bytes.now file.z) j }
    requires reach { Reach file.z marks.old × Shows marks.old file.z.n (run_of file.bytes.now file.z) j }
    ensures judged_to { JudgedTo file.entry.bytes.now file.entry.z row.new result }
    ensures shows { file.entry.z.u ≤ result → Shows marks.new file.entry.z.n (run_of file.entry.bytes.now file.entry.z) file.entry.z.u }
{
    if file.z.version == 0 {
        return lay_old(file, j, row, marks);
    }
    lay_on(file, j, row, marks)
}

// How many slots break no rule, as far as marks can tell: the first `j`, of more, rise and are decoded.
pub fn lay(file: File, j: usize, row: &mut [u32], marks: &mut [u64]) -> usize
    requires decoded { Decoded file.bytes.now file.z row.old j }
    requires j_lt_u { (j < file.z.u) × Fits file.z (run_of file.bytes.now file.z) j }
    requires reach { Reach file.z marks.old × Clear marks.old }
    ensures judged_to { JudgedTo file.entry.bytes.now file.entry.z row.new result }
    ensures shows { file.entry.z.u ≤ result → Shows marks.new file.entry.z.n (run_of file.entry.bytes.now file.entry.z) file.entry.z.u }
{
    let n = file.z.n;
    if !marks::take_run(&mut *marks, 0, n) {
        return 0;
    }
    let i = lay_row(&*row, file.z, j, &mut *marks);
    if i < j {
        return i;
    }
    lay_more(file, j, row, marks)
}
