//! The fields of an index entry.
ghost use Rattle.std.specs.Prelude.{◌≡◌, ◌+◌, ◌≤◌, length};
ghost use Rattle.lent.specs.Number.{int16};
ghost use Rattle.lent.specs.Part.{part};
ghost use Rattle.paper.specs.Entry.{kind_of, magic_of, position_of, version_one, fields_of};
ghost use Rattle.paper.specs.Look.{found_of};

use bootstrap::words::word;
use lent::read::{int16, word16, word32, word64};
use paper::entry::{Entry, Kind};
use paper::refusal::Refusal;
use std::num;

// What a mode makes of bytes 36 to 47.
#[tactic(auto, unfolding(paper::specs::Entry::kind_of))]
fn kind(mode: usize, a: f32, b: f64) -> Kind
    ensures { result ≡ kind_of mode a b }
{
    match mode {
        256..=304 => Kind::Continuum(mode - 256, a, b),
        512..=560 => Kind::Spectral(mode - 512, a, b),
        _ => Kind::Other(a, b),
    }
}

// Sixteen bytes by value.
fn source(file: &[u8], at: usize) -> [u8; 16]
    requires { at + 16 ≤ length file.now }
    ensures { result ≡ part at (at + 16) file.now }
{
    let mut a = [0u8; 16];
    a.copy_from_slice(&file[at..at + 16]);
    a
}

// The position code, which each form has at a place of its own.
#[tactic(auto, unfolding(paper::specs::Entry::position_of))]
fn position(file: &[u8], version: usize, at: usize) -> i16
    requires { at ≤ 4096000000 }
    ensures { result ≡ int16 (position_of version file.now at) }
{
    if version == 0 {
        return int16(file, at + 6);
    }
    int16(file, at + 60)
}

// The magic number, which the current form does not have.
#[tactic(auto, unfolding(paper::specs::Entry::magic_of, lent::specs::Number::int16))]
fn magic(file: &[u8], version: usize, at: usize) -> i16
    requires { at ≤ 4096000000 }
    ensures { result ≡ int16 (magic_of version file.now at) }
{
    if version == 0 {
        return int16(file, at + 4);
    }
    0
}

// The scan is of version 1. A current entry has no other.
#[tactic(auto, unfolding(paper::specs::Entry::version_one, paper::specs::Entry::magic_of))]
pub fn version_one(file: &[u8], version: usize, at: usize) -> bool
    requires { at ≤ 4096000000 }
    ensures { result ≡ version_one version file.now at }
{
    version != 0 || word16(file, at + 4) == 2
}

// The fields of the entry at a place. A mode above 32,767 stands for a negative number, and is of neither kind as it is.
pub fn fields(file: &[u8], version: usize, at: usize) -> Entry
    requires { (at + 62 ≤ length file.now) × (at ≤ 4096000000) }
    ensures { result ≡ fields_of version file.now at }
{
    let mode = word16(file, at + 56);
    let field4 = word32(file, at + 36);
    let field8 = word64(file, at + 40);
    Entry {
        first: word(file, version, at, 0),
        last: word(file, version, at, 1),
        horizontal: word32(file, at + 8),
        vertical: word32(file, at + 12),
        source: source(file, at + 16),
        scan: word32(file, at + 32),
        field4,
        field8,
        lst: word32(file, at + 48),
        date: word32(file, at + 52),
        mode: int16(file, at + 56),
        number: int16(file, at + 58),
        position: position(file, version, at),
        magic: magic(file, version, at),
        kind: kind(
            mode as usize,
            num::f32_from_bits_with_nan(field4),
            num::f64_from_bits_with_nan(field8),
        ),
    }
}

// The fields of a slot's entry.
pub fn found(file: &[u8], slot: usize) -> Result<Entry, Refusal>
    ensures { result ≡ found_of file.now slot }
{
    let (z, _) = super::slot::find(file, slot)?;
    Ok(fields(file, z.version, z.home(slot)))
}
