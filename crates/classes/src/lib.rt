//! A reader that walks the classes of one scan in order: thin functions over the covered lookup on slice and number.
#![tactic(auto)]

ghost use Rattle.std.specs.Prelude.{◌≡◌};
ghost use Rattle.lent.specs.Part.{bytes_on};
ghost use Rattle.paper.specs.Refusals.{span_says};
ghost use Rattle.paper.specs.Scan.{class_of, part_of, span_place};
ghost use Rattle.classes.specs.Walk.{next_of};

use paper::refusal::Refusal;
use scan::preamble;

#[derive(Clone, Copy)]
pub struct Reader<'a> {
    pub scan: &'a [u8],
    pub number: usize,
}

// At the first class.
pub fn new<'a>(scan: &'a [u8]) -> Reader<'a>
    ensures { (result.scan ≡ scan.entry) × (result.number ≡ 1) }
{
    Reader { scan, number: 1 }
}

// Where the class lies at which the reader stands.
pub fn here<'a>(r: Reader<'a>) -> Result<(usize, usize), Refusal>
    ensures { span_says result ≡ span_says (class_of r.entry.scan.now r.entry.number) }
{
    scan::class(r.scan, r.number)
}

// The bytes of that class.
pub fn bytes<'a>(r: Reader<'a>) -> &'a [u8]
    ensures bytes { result.now ≡ part_of r.entry.scan.now (class_of r.entry.scan.now r.entry.number) }
    ensures place { result.ref_ptr ≡ bytes_on (span_place r.entry.scan.now (class_of r.entry.scan.now r.entry.number)) r.entry.scan.ref_ptr }
{
    scan::class_part(r.scan, r.number)
}

// The number after a class's; past the last class it stays.
#[tactic(auto, unfolding(crate::specs::Walk::next_of))]
pub fn following(scan: &[u8], number: usize) -> usize
    ensures { result ≡ next_of scan.now number }
{
    let n = preamble::classes(scan);
    if number <= n {
        return number + 1;
    }
    number
}

// At the next class.
pub fn after<'a>(r: Reader<'a>) -> Reader<'a>
    ensures { (result.scan ≡ r.entry.scan) × (result.number ≡ next_of r.entry.scan.now r.entry.number) }
{
    let number = following(r.scan, r.number);
    Reader {
        scan: r.scan,
        number,
    }
}

// The first class, by a reader. Whoever calls this one needs no walk.
pub fn first(scan: &[u8]) -> Result<(usize, usize), Refusal>
    ensures { span_says result ≡ span_says (class_of scan.now 1) }
{
    here(new(scan))
}
