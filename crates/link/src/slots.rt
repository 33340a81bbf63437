//! The index's bytes laid into the row, slot by slot: an entry that lies whole in the piece is loaded, one that is cut is shifted in byte by byte.
ghost use Rattle.std.specs.Prelude.{◌≡◌, ℕ, ◌+◌, ◌≤◌, ◌<◌, ◌*◌, length, slice_index};
ghost use Rattle.paper.specs.Sizes.{capacity_of, Shaped};
ghost use Rattle.paper.specs.Link.{row_after};
ghost use Rattle.link.specs.Taking.{home_at, Put, Went, Passed};

use paper::sizes::Sizes;

// Bytes that stand in the file from byte `at` on, of a file whose index has places for its slots. Slots are counted from 0.
#[derive(Clone, Copy)]
struct Piece<'a> {
    z: Sizes,
    at: usize,
    bytes: &'a [u8],
    ghost shape: { Shaped z },
    // Of the bytes of a slice that a struct holds this is not known by itself.
    ghost small: { (i : ℕ) → slice_index bytes.now i < 256 },
    ghost fits: { at + length bytes.now < 18446744073709551616 },
}

// The element that byte `p` of the file belongs to: the entry's first number, or the one that begins at `next`.
fn element(i: usize, p: usize, next: usize) -> usize
    requires { i ≤ 4096 }
    ensures { (result ≤ 2 * i + 1) × (p < next → result ≡ 2 * i) × (next ≤ p → result ≡ 2 * i + 1) }
{
    if p < next { 2 * i } else { 2 * i + 1 }
}

impl<'a> Piece<'a> {
    // The byte of the file after the piece.
    fn end(&self) -> usize
        ensures { result ≡ self.now.at + length self.now.bytes.now }
    {
        self.at + self.bytes.len()
    }

    // The byte of the file at which the entry of slot `i` begins.
    fn home(&self, i: usize) -> usize
        requires { i ≤ capacity_of self.now.z }
        ensures { result ≡ home_at self.now.z i }
    {
        self.z.l + i * self.z.m
    }

    // Those bytes of the entry's two numbers that are in the piece, one by one.
    fn cut(&self, i: usize, row: &mut [u32])
        requires { (8192 ≤ length row.old) × (i < capacity_of self.now.z) }
        ensures { Put self.now.z self.now.at self.now.bytes.now row.old row.new i }
    {
        let home = self.home(i);
        let width = super::number::width(self.z.version);
        let next = home + width;
        for p in home.max(self.at)..(next + width).min(self.end()) {
            let e = element(i, p, next);
            row[e] = super::number::more(self.z.version, row[e], self.bytes[p - self.at]);
        }
    }

    // Both numbers at once.
    fn whole(&self, i: usize, row: &mut [u32])
        requires inside { (8192 ≤ length row.old) × (i < capacity_of self.now.z) }
        requires at_bound { (self.now.at ≤ home_at self.now.z i) × (home_at self.now.z i + 8 ≤ self.now.at + length self.now.bytes.now) }
        ensures { Put self.now.z self.now.at self.now.bytes.now row.old row.new i }
    {
        let from = self.home(i) - self.at;
        let to = 2 * i;
        if self.z.version == 0 {
            row[to] = lent::read::widened(lent::read::load16(self.bytes, from));
            row[to + 1] = lent::read::widened(lent::read::load16(self.bytes, from + 2));
            return;
        }
        row[to] = lent::read::load32(self.bytes, from);
        row[to + 1] = lent::read::load32(self.bytes, from + 4);
    }

    // Slot `i` where its entry begins before byte `edge` of the file: what the piece has of its numbers. Answers the first slot whose entry does not.
    fn before(&self, edge: usize, i: usize, row: &mut [u32]) -> usize
        requires { (8192 ≤ length row.old) × (i ≤ capacity_of self.now.z) × (i < capacity_of self.now.z → edge < home_at self.now.z (i + 1)) }
        ensures went { Went self.now.z self.now.at self.now.bytes.now row.old row.new i result }
        ensures upper_bound { (result ≤ capacity_of self.now.z) × (result < capacity_of self.now.z → edge ≤ home_at self.now.z result) }
    {
        if self.z.capacity() <= i || edge <= self.home(i) {
            return i;
        }
        self.cut(i, row);
        i + 1
    }

    // The slots from `from` on whose numbers lie whole in the piece. Answers the first of which they do not.
    fn wholes(&self, from: usize, row: &mut [u32]) -> usize
        requires { (8192 ≤ length row.old) × (from ≤ capacity_of self.now.z) × (from < capacity_of self.now.z → self.now.at ≤ home_at self.now.z from) }
        ensures went { Went self.now.z self.now.at self.now.bytes.now row.old row.new from result }
        ensures upper_bound { (result ≤ capacity_of self.now.z) × (result < capacity_of self.now.z → self.now.at + length self.now.bytes.now < home_at self.now.z result + 8) }
    {
        let slots = self.z.capacity();
        let end = self.end();
        for i in from..slots {
            if end < self.home(i) + 8 {
                return i;
            }
            self.whole(i, &mut *row);
        }
        slots
    }

    // The slot in whose entry byte `at` lies: those before it have nothing in the piece.
    fn first_slot(&self) -> usize
        ensures { (result ≤ capacity_of self.now.z) × Passed self.now.z self.now.at result × (result < capacity_of self.now.z → self.now.at < home_at self.now.z (result + 1)) }
    {
        if self.at < self.z.l {
            return 0;
        }
        ((self.at - self.z.l) / self.z.m).min(self.z.capacity())
    }
}

// The row after bytes that stand in the file from byte `at` on.
pub fn lay(z: Sizes, at: usize, bytes: &[u8], row: &mut [u32])
    requires { (8192 ≤ length row.old) × (at + length bytes.now < 18446744073709551616) }
    ensures { row.new ≡ row_after z at bytes.now row.old }
{
    if !bootstrap::ranges::shaped(z) {
        return;
    }
    let piece = Piece { z, at, bytes };
    let first = piece.before(at, piece.first_slot(), &mut *row);
    let next = piece.wholes(first, &mut *row);
    piece.before(piece.end(), next, row);
}
