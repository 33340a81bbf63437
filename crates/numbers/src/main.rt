#![tactic(auto)]
// Numbers at the edges: what the reads make of a few bytes, at a place, past the end and near the end of all places, and which doubles
// are lengths. A line of reads holds the place, the byte, the words of 2, 4 and 8 bytes, and the first of these as an integer.
use lent::read;
use std::io;

fn reads(rt: &impl Print, s: &[u8], at: usize) -> io::Result<()> {
    let byte = read::byte(s, at);
    let half = read::word16(s, at);
    let word = read::word32(s, at);
    let long = read::word64(s, at);
    let integer = read::int16(s, at);
    println!(rt; "{at:x} {byte:02x} {half:04x} {word:08x} {long:016x} {integer}")
}

fn length(rt: &impl Print, bits: u64) -> io::Result<()> {
    print!(rt; "{bits:016x}")?;
    let w = whole::length(bits);
    match w {
        Some(n) => println!(rt; " {n}"),
        None => println!(rt; " none"),
    }
}

fn main(rt: HostRuntime) -> io::Result<()> {
    let none = [0u8; 8];
    reads(&rt, &none, 0)?;
    let ones = [255u8; 8];
    for at in [0, 5, 7, 8, usize::MAX] {
        reads(&rt, &ones, at)?;
    }
    let sign = [128u8, 0, 127, 255, 1, 2, 3, 4];
    for at in [0, 1, 2, 4] {
        reads(&rt, &sign, at)?;
    }
    // 0 and minus zero, the paper's 256, one and a half, the least number above 0
    for bits in [
        0,
        0x8000000000000000,
        0x4070000000000000,
        0x3ff8000000000000,
        1,
    ] {
        length(&rt, bits)?;
    }
    // the highest length, 65,536.5 and 65,537, 2 to the power 53, infinity, not a number
    for bits in [
        0x40f0000000000000,
        0x40f0000800000000,
        0x40f0001000000000,
        0x4340000000000000,
        0x7ff0000000000000,
        0x7ff8000000000000,
    ] {
        length(&rt, bits)?;
    }
    Ok(())
}
