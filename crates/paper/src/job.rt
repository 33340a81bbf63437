//! A job: what an accepted save, keep or clear hands back, to be stepped.
use super::refusal::Refusal;

#[derive(Clone, Copy)]
pub struct Job {
    // A save or a keep; a clear where false.
    pub saves: bool,
    // A clear of the highest slot with a scan: U is then lowered by a third write. Of a save it is not looked at.
    pub lowers: bool,
    pub slot: usize,
    // The scan's length and the file's.
    pub size: usize,
    pub span: usize,
    // The first data record, and the count of records written so far.
    pub first: usize,
    pub written: usize,
    // The records of the scan that is replaced or cleared, to be written with zeros: its first, and how many they are. Where there are none the first is not looked at.
    pub old: usize,
    pub many: usize,
    // The first 32 bytes of the file as the job was begun on them or last wrote them.
    pub boot: [u8; 32],
    // The entry's bytes 8 to 61.
    pub about: [u8; 54],
}

impl Job {
    pub const ZEROS: Job = Job {
        saves: false,
        lowers: false,
        slot: 0,
        size: 0,
        span: 0,
        first: 0,
        written: 0,
        old: 0,
        many: 0,
        boot: [0u8; 32],
        about: [0u8; 54],
    };
}

// The record written (0 when confirming), and the count of records written so far.
#[derive(Clone, Copy)]
pub enum Step {
    Wrote(usize, usize),
    Saved(usize, usize),
    Cleared(usize, usize),
}

// A refused step hands back the job as it was.
#[derive(Clone, Copy)]
pub struct Stepped {
    pub answer: Result<Step, Refusal>,
    pub job: Job,
}
