//! Bytes set at a place. Every contract says the whole of the run afterwards.
ghost use Rattle.std.specs.Prelude.{◌≡◌, ◌+◌, ◌≤◌, length};
ghost use Rattle.lent.specs.Number.{big, bytes};
ghost use Rattle.lent.specs.Write.{write, zeros, pad};

// All of `dst` becomes `src`. The compiler makes this loop one over many bytes.
fn copy(dst: &mut [u8], src: &[u8])
    requires { length dst.old ≡ length src.now }
    ensures { dst.new ≡ src.now }
{
    for i in 0..src.len() {
        dst[i] = src[i];
    }
}

// A place and the whole of the run afterwards in one equation, which no method of a slice says. So do zero_to and put_padded.
pub fn copy_to(file: &mut [u8], at: usize, src: &[u8])
    requires { at + length src.now ≤ length file.old }
    ensures { file.new ≡ write file.old at src.now }
{
    let e = at + src.len();
    copy(&mut file[at..e], src);
}

pub fn zero_to(file: &mut [u8], at: usize, n: usize)
    requires { at + n ≤ length file.old }
    ensures { file.new ≡ write file.old at (zeros n) }
{
    let e = at + n;
    file[at..e].fill(0);
}

// A 16-bit number, the highest byte first.
// One line for each width: a trait would hold the same line, and ghost members beside it.
pub fn put16(file: &mut [u8], at: usize, half: u16)
    requires { at + 2 ≤ length file.old }
    ensures { file.new ≡ write file.old at (bytes big 2 half) }
{
    copy_to(file, at, &half.to_be_bytes());
}

// A 32-bit number, the highest byte first.
pub fn put32(file: &mut [u8], at: usize, word: u32)
    requires { at + 4 ≤ length file.old }
    ensures { file.new ≡ write file.old at (bytes big 4 word) }
{
    copy_to(file, at, &word.to_be_bytes());
}

// All of `src`, and zeros after it up to `n` bytes.
pub fn put_padded(file: &mut [u8], at: usize, n: usize, src: &[u8])
    requires n_in_bounds { at + n ≤ length file.old }
    requires src_len_bound { length src.now ≤ n }
    ensures { file.new ≡ write file.old at (pad n src.now) }
{
    let l = src.len();
    copy_to(file, at, src);
    zero_to(file, at + l, n - l);
}
