//! The program's shell: it reads and it writes. What is written is `printed`.
ghost use Rattle.std.specs.Prelude.{◌≡◌, ℕ, length, take, false, IsTrue, IfOk, IfSome, OnOk, OnErr};
ghost use Rattle.std.specs.Io.KnownBytes.{Appends, Keeps};
ghost use Rattle.paper.specs.Lister.{printed};
ghost use Rattle.listing.specs.Input.{input_of, Within, Took, Filled};

use std::io;
use std::io::{Read, Write};

// What the answer of one read says: how many bytes came, and nothing where it failed. An error is no end of the input: that is where no byte came.
fn told(got: io::Result<usize>, room: &[u8]) -> Option<usize>
    ensures { result ≡ input_of got (length room.now) }
{
    let Ok(n) = got else {
        return None;
    };
    Some(n.min(room.len()))
}

// One read.
fn some<R: Read>(input: &mut R, room: &mut [u8]) -> Option<usize>
    ensures within { Within result room.new }
    ensures bytes { Took result room.new (R.remaining input.old) (R.remaining input.new) }
{
    let got = input.read(&mut *room);
    told(got, &*room)
}

// Reads to the end of the input, or until `room` is full. A failed read is not the end, whatever came before it.
fn fill<R: Read>(input: &mut R, room: &mut [u8]) -> Option<usize>
    ensures within { Within result room.new }
    ensures bytes { Filled result room.new (R.remaining input.old) }
{
    let mut n = 0;
    while n < room.len() {
        let k = some(&mut *input, &mut room[n..])?;
        if k == 0 {
            return Some(n);
        }
        n += k;
    }
    Some(n)
}

// Writes all the bytes. Where a write fails, some of them are written.
fn write_out<W: Write>(out: &mut W, bytes: &[u8]) -> io::Result<()>
    ensures all { OnOk result (Appends (W.contents out.old) (W.contents out.new) bytes.now) }
    ensures part { OnErr result ((n : ℕ) × Appends (W.contents out.old) (W.contents out.new) (take n bytes.now)) }
{
    let mut done = 0;
    while done < bytes.len() {
        let k = out.write(&bytes[done..])?;
        if k == 0 {
            return Err(io::Error::from(io::ErrorKind::WriteZero));
        }
        done += k;
    }
    Ok(())
}

// Prints what the lister has to say of the input: its first 65,537 bytes are enough for that (law `front-printed`). Where a read
// failed nothing is printed, since a part of a file has no verdict, and the answer is false. Where a write failed, a part is printed.
pub fn print<R: Read, W: Write>(input: &mut R, out: &mut W) -> io::Result<bool>
    ensures all { IfOk result (λ read. IsTrue read → IfSome (R.remaining input.old)
        (λ f. Appends (W.contents out.old) (W.contents out.new) (printed f))) }
    ensures none { IfOk result (λ read. read ≡ false → Keeps (W.contents out.old) (W.contents out.new)) }
    ensures part { OnErr result (IfSome (R.remaining input.old)
        (λ f. (n : ℕ) × Appends (W.contents out.old) (W.contents out.new) (take n (printed f)))) }
{
    let mut file = [0u8; 65537];
    let got = fill(&mut *input, &mut file);
    let Some(n) = got else {
        return Ok(false);
    };
    let mut text = [0u8; 90000];
    let k = super::printed(&file[..n], &mut text);
    write_out(&mut *out, &text[..k])?;
    Ok(true)
}
