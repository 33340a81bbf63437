//! Numbers and words put into lent memory, each at a place; the answer is the place after it.
ghost use Rattle.std.specs.Prelude.{[], ◌∷◌, ◌+◌, ◌≤◌, length};
ghost use Rattle.paper.specs.Lister.{decimal};
ghost use Rattle.look.specs.Put.{Put};
ghost use Rattle.listing.specs.Text.{field_of, one_of, two_of, three_of};

// A number in decimal: what stands before its last digit, and then that.
// Into lent memory, and proved byte by byte: no Display writes there.
fn number(out: &mut [u8], at: usize, n: usize) -> usize
    requires { at + length (decimal n) ≤ length out.old }
    ensures { Put out.old at (decimal n) out.new result }
{
    if n < 10 {
        out[at] = (48 + n) as u8;
        return at + 1;
    }
    let k = number(&mut *out, at, n / 10);
    out[k] = (48 + n % 10) as u8;
    k + 1
}

// A word and a number.
fn field(out: &mut [u8], at: usize, word: &[u8], n: usize) -> usize
    requires { at + length (field_of word.now n) ≤ length out.old }
    ensures { Put out.old at (field_of word.now n) out.new result }
{
    lent::write::copy_to(&mut *out, at, word);
    number(&mut *out, at + word.len(), n)
}

// A newline.
fn end(out: &mut [u8], at: usize) -> usize
    requires { at + 1 ≤ length out.old }
    ensures { Put out.old at (10 ∷ []) out.new result }
{
    out[at] = 10;
    at + 1
}

// A line of one, two or three numbers, each after its word.
fn one(out: &mut [u8], at: usize, x: &[u8], c: usize) -> usize
    requires { at + length (one_of x.now c) ≤ length out.old }
    ensures { Put out.old at (one_of x.now c) out.new result }
{
    let k = field(&mut *out, at, x, c);
    end(&mut *out, k)
}

pub fn two(out: &mut [u8], at: usize, w: &[u8], b: usize, x: &[u8], c: usize) -> usize
    requires { at + length (two_of w.now b x.now c) ≤ length out.old }
    ensures { Put out.old at (two_of w.now b x.now c) out.new result }
{
    let k = field(&mut *out, at, w, b);
    one(&mut *out, k, x, c)
}

pub fn three(
    out: &mut [u8],
    at: usize,
    v: &[u8],
    a: usize,
    w: &[u8],
    b: usize,
    x: &[u8],
    c: usize,
) -> usize
    requires { at + length (three_of v.now a w.now b x.now c) ≤ length out.old }
    ensures { Put out.old at (three_of v.now a w.now b x.now c) out.new result }
{
    let k = field(&mut *out, at, v, a);
    two(&mut *out, k, w, b, x, c)
}
