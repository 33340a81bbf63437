//! The places that no run of free records can start at, because a marked record would lie in it.
ghost use Rattle.std.specs.Prelude.{◌≡◌, true, ◌+◌, ◌*◌, ◌≤◌, ◌<◌, length};
ghost use Rattle.marks.specs.Marks.{mark_of, Tail, Full, Blocked};

// Whether record `x` is marked; a record that the marks do not reach is not.
pub fn taken(marks: &[u64], x: usize) -> bool
    ensures { result ≡ true → mark_of marks.now x ≡ 1 }
{
    let w = x / 64;
    w < marks.len() && (marks[w] >> (x % 64)) % 2 == 1
}

// How many of a word's lowest bits are set, up to the first that is not.
fn low_ones(v: u64) -> usize
    ensures { Tail v result }
{
    v.trailing_ones() as usize
}

// The end of the marked records from `a` on, as far as the word of `a` goes.
fn past_bits(marks: &[u64], a: usize) -> usize
    requires { a ≤ 1280000 }
    ensures { Full marks.now a result × (result ≤ a + 64) }
{
    let w = a / 64;
    if w < marks.len() {
        a + low_ones(marks[w] >> (a % 64))
    } else {
        a
    }
}

// The words to look at: 20,000 are more than all records need, so that 64 times a word's number fits.
fn words(marks: &[u64]) -> usize
    ensures { (result ≤ length marks.now) × (result ≤ 20000) }
{
    marks.len().min(20000)
}

// The first word from `from` on whose records are not all marked.
fn past_words(marks: &[u64], from: usize) -> usize
    requires { from ≤ 20000 }
    ensures { Full marks.now (64 * from) (64 * result) × (result ≤ 20000) }
{
    let n = words(marks);
    for w in from..n {
        if marks[w] != u64::MAX {
            return w;
        }
    }
    from.max(n)
}

// The end of the marked records from `a` on: the rest of a word, whole words, the front of a word.
pub fn past_ones(marks: &[u64], a: usize) -> usize
    requires { a ≤ 1200000 }
    ensures { Full marks.now a result }
{
    let e = past_bits(marks, a);
    if e % 64 != 0 {
        return e;
    }
    let w = past_words(marks, e / 64);
    past_bits(marks, 64 * w)
}

// Record `b`, or the last one that the marks reach: those after it are not marked.
fn reached(marks: &[u64], b: usize) -> usize
    ensures { result ≤ b }
{
    b.min((64 * words(marks)).saturating_sub(1))
}

// The record of the highest mark of word `w`, whose bits are `v`.
fn top(w: usize, v: u64) -> usize
    requires { (w ≤ 20000) × (0 < v) }
{
    64 * w + v.ilog2() as usize
}

// A guess: the highest marked record up to `b`, found in the words down to that of `a`.
fn last_mark(marks: &[u64], a: usize, b: usize) -> Option<usize>
    requires { b ≤ 1200000 }
{
    let last = b / 64;
    if marks.len() <= last {
        return None;
    }
    let v = marks[last] & (u64::MAX >> (63 - b % 64));
    if v != 0 {
        return Some(top(last, v));
    }
    for w in (a / 64..last).rev() {
        if marks[w] != 0 {
            return Some(top(w, marks[w]));
        }
    }
    None
}

// The highest marked record of the `k` after record `i`, or `i`: each run of `k` that starts between them holds it.
fn past_gap(marks: &[u64], i: usize, k: usize) -> usize
    requires { (i ≤ 1000000) × (1 ≤ k) × (k ≤ 65536) }
    ensures { Blocked marks.now k i result × (result ≤ i + k) }
{
    let b = reached(marks, i + k);
    match last_mark(marks, i + 1, b) {
        Some(x) if i < x && x <= i + k && taken(marks, x) => x,
        _ => i,
    }
}

// The last place after `i` to which a marked record lies in each run of `k`, as far as one look shows; `i` where it shows none.
pub fn past(marks: &[u64], i: usize, k: usize) -> usize
    requires { (i ≤ 1000000) × (1 ≤ k) × (k ≤ 65536) }
    ensures { Blocked marks.now k i result }
{
    let j = past_gap(marks, i, k);
    // at 256 and above, steps of k are faster than words
    if j < i + k || 256 <= k {
        return j;
    }
    past_ones(marks, j + 1) - 1
}
