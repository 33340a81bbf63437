//! A bit for each record, 64 to a word: a run of records is taken where none of them is taken yet.
#![tactic(auto)]

ghost use Rattle.std.specs.Prelude.{◌≡◌, true, ◌+◌, ◌*◌, ◌/◌, ◌≤◌, ◌<◌, length};
ghost use Rattle.marks.specs.Marks.{Took, Clear, ones};

pub mod past;

// No record is marked any more.
pub fn clear(marks: &mut [u64])
    ensures { Clear marks.new }
{
    marks.fill(0);
}

// The word whose bits `x` to `y` are set, made of its two powers of two.
fn ones(x: usize, y: usize) -> u64
    requires { (x ≤ y) × (y < 64) }
    ensures { result ≡ ones x y }
{
    let p = 1u64 << x;
    let q = 1u64 << y;
    q + (q - p)
}

// Takes the records of word `i` from bit `x` to bit `y`, unless one of them is taken.
#[inline(always)]
fn take_bits(marks: &mut [u64], i: usize, x: usize, y: usize) -> bool
    requires { (i < length marks.old) × (x ≤ y) × (y < 64) }
    ensures { result ≡ true → Took marks.old marks.new (64 * i + x) (64 * i + y + 1) }
{
    let m = ones(x, y);
    let v = marks[i];
    if v & m != 0 {
        return false;
    }
    marks[i] = v | m;
    true
}

// Takes the records `a` to `b`, word by word.
#[inline(never)]
fn take_words(marks: &mut [u64], a: usize, b: usize) -> bool
    requires { (a ≤ b) × (b ≤ 1000000) × (b / 64 < length marks.old) }
    ensures { result ≡ true → Took marks.old marks.new a (b + 1) }
{
    let mut x = a % 64;
    for i in a / 64..b / 64 {
        if !take_bits(&mut *marks, i, x, 63) {
            return false;
        }
        x = 0;
    }
    take_bits(marks, b / 64, x, b % 64)
}

// Takes the records `a` to `b`, or answers that one of them was taken. A short run mostly lies in one word. The marks reach word `b / 64`; 15,626 words are the most, for the records up to 1,000,000.
#[inline(always)]
pub fn take_run(marks: &mut [u64], a: usize, b: usize) -> bool
    requires { (a ≤ b) × (b ≤ 1000000) × (b / 64 < length marks.old) }
    ensures { result ≡ true → Took marks.old marks.new a (b + 1) }
{
    let i = a / 64;
    if i == b / 64 {
        take_bits(marks, i, a % 64, b % 64)
    } else {
        take_words(marks, a, b)
    }
}
