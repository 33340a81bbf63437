//! The data records in order: past a scan where one begins, else to the next record. One walk counts the scans, one puts them.
ghost use Rattle.std.specs.Prelude.{◌≡◌, ◌+◌, ◌*◌, ◌≤◌, ◌<◌, length};
ghost use Rattle.lent.specs.Least.{some_number};
ghost use Rattle.lent.specs.Write.{write};
ghost use Rattle.paper.specs.Find.{takes_at, find_of, find_lines};
ghost use Rattle.find.specs.Walk.{after_of, finds_at};

use entries::file::File;

// How many records the scan has that begins at record `r`; none where a rule is broken. The rules look at its first bytes alone.
fn judged(file: File, r: usize) -> Option<usize>
    requires { (1 ≤ r) × (r ≤ file.z.n + file.z.d) }
    ensures { result ≡ some_number (takes_at file.entry.bytes.now file.entry.z r) }
{
    let at = (r - 1) * file.z.l;
    let end = (file.z.n + file.z.d) * file.z.l;
    let (head, rest) = scan::rules::judge(&file.bytes[at..end], false).ok()?;
    Some(writes::count::records_for(file.z, head + rest))
}

// The same. Two bytes say whether the number of classes is one that a scan can have, and most records that begin none go no further.
fn takes(file: File, r: usize) -> Option<usize>
    requires { (1 ≤ r) × (r ≤ file.z.n + file.z.d) }
    ensures { result ≡ some_number (takes_at file.entry.bytes.now file.entry.z r) }
{
    let at = (r - 1) * file.z.l;
    let n = lent::read::load16(file.bytes, at) as usize;
    if !scan::rules::count_kept(n) {
        return None;
    }
    judged(file, r)
}

// The record to look at after record `r`: past a scan of `k` records, else the next.
fn after(r: usize, k: Option<usize>) -> usize
    requires { after_of r k ≤ 2000000 }
    ensures { result ≡ after_of r k }
{
    r + k.unwrap_or(1)
}

// How many scans are found.
pub fn count(file: File) -> usize
    ensures { (result ≡ length (find_of file.entry.bytes.now file.entry.z)) × (result ≤ 1000000) }
{
    let last = file.z.n + file.z.d;
    let mut n = 0;
    let mut r = file.z.n + 1;
    while r <= last {
        let k = takes(file, r);
        n += usize::from(k.is_some());
        r = after(r, k);
    }
    n
}

// What is found at record `r`, if a scan of `k` records begins there, goes to `at`; the answer is the place after it.
fn put(file: File, out: &mut [u64], at: usize, r: usize, k: Option<usize>) -> usize
    requires r_bound { (1 ≤ r) × (r ≤ file.z.n + file.z.d) × (after_of r k ≤ 2000000) }
    requires k_in_bounds { at + length (find_lines (finds_at file.bytes.now file.z r k)) ≤ length out.old }
    ensures value { result ≡ at + length (find_lines (finds_at file.entry.bytes.now file.entry.z r k)) }
    ensures out_after { out.new ≡ write out.old at (find_lines (finds_at file.entry.bytes.now file.entry.z r k)) }
{
    let Some(k) = k else {
        return at;
    };
    out[at] = r as u64;
    out[at + 1] = (r + k - 1) as u64;
    out[at + 2] = lent::read::load64(file.bytes, (r - 1) * file.z.l + 48);
    at + 3
}

// The finds, of which there are `n`, one after the other. The walk ends with the last of them.
pub fn fill(file: File, n: usize, out: &mut [u64])
    requires n_bound { (n ≡ length (find_of file.bytes.now file.z)) × (n ≤ 1000000) }
    requires n_in_bounds { 3 * n ≤ length out.old }
    ensures { out.new ≡ write out.old 0 (find_lines (find_of file.entry.bytes.now file.entry.z)) }
{
    let end = 3 * n;
    let mut at = 0;
    let mut r = file.z.n + 1;
    while at < end {
        let k = takes(file, r);
        at = put(file, &mut *out, at, r, k);
        r = after(r, k);
    }
}
