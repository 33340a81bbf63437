//! The preamble: the number of classes and the fifteen starts, two's complement.
ghost use Rattle.std.specs.Prelude.{◌≡◌, ◌<◌, ◌≤◌, length};
ghost use Rattle.lent.specs.Number.{Plain};
ghost use Rattle.paper.specs.Entry.{natural_of};
ghost use Rattle.paper.specs.Scan.{classes_of, starts_of, word_of, rising};

use lent::read;

// The natural number that an integer is; 0 for a negative one.
pub fn natural(x: i16) -> usize
    ensures { Plain (natural_of x) 32768 result }
{
    usize::try_from(x).unwrap_or(0)
}

// The number of classes.
#[tactic(auto, unfolding(paper::specs::Scan::classes_of))]
pub fn classes(s: &[u8]) -> usize
    ensures { Plain (classes_of s.now) 32768 result }
{
    natural(read::int16(s, 0))
}

// The fifteen starts, the unused ones too, of a preamble that is all there: the compiler reads several at a time. By value, with their number apart, as document 01 has them.
pub fn starts(s: &[u8]) -> [i16; 15]
    requires { 32 ≤ length s.now }
    ensures { result ≡ starts_of s.now }
{
    let mut a = [0i16; 15];
    for k in 0..15 {
        a[k] = read::load_int16(s, 2 + 2 * k);
    }
    a
}

// Start k + 1, a word number.
pub fn word(starts: [i16; 15], k: usize) -> usize
    requires { k < 15 }
    ensures { Plain (word_of starts k) 32768 result }
{
    natural(starts[k])
}

// Whether each of the first n starts but the first is greater than the one before.
pub fn each_greater(starts: [i16; 15], n: usize) -> bool
    requires { n ≤ 15 }
    ensures { result ≡ rising starts n }
{
    for k in 1..n {
        if starts[k] <= starts[k - 1] {
            return false;
        }
    }
    true
}
