//! The sizes of a file, as its bootstrap states them, and the run of records that an index entry names.
ghost use Rattle.std.specs.Prelude.{◌≡◌};
ghost use Rattle.paper.specs.Sizes.{capacity_of, record_of, place_of, home_of, room_of, Shaped, Slotted};

// What the bootstrap's words say, in either form.
// Version and kind are numbers: a file may state any, and refusals 3 and 4 judge them after they are read.
#[derive(Clone, Copy)]
pub struct Sizes {
    pub n: usize,
    pub d: usize,
    pub l: usize,
    pub m: usize,
    pub u: usize,
    pub counter: u32,
    pub kind: usize,
    // 0 the old form, 1 the current one.
    pub version: usize,
}

impl Sizes {
    pub const MIN_N: usize = 2;

    pub const MAX_N: usize = 513;

    pub const MAX_RECORDS: usize = 1000000;

    pub const MIN_L: usize = 512;

    pub const MAX_L: usize = 4096;

    pub const MIN_M: usize = 64;

    pub const MAX_SLOTS: usize = 4096;

    pub const MAX_KIND: usize = 1;

    // How many entries the index has room for.
    pub fn capacity(self) -> usize
        requires { Shaped self }
        ensures { result ≡ capacity_of self }
    {
        (self.n - 1) * self.l / self.m
    }

    // The record that holds the entry of slot `s`.
    pub fn record(self, s: usize) -> usize
        requires { Slotted self s }
        ensures { result ≡ record_of self s }
    {
        2 + (s - 1) * self.m / self.l
    }

    // The place of that entry in its record.
    pub fn place(self, s: usize) -> usize
        requires { Slotted self s }
        ensures { result ≡ place_of self s }
    {
        (s - 1) * self.m % self.l
    }

    // The byte of the file at which that entry begins. It is the place in the record, without the two divisions.
    pub fn home(self, s: usize) -> usize
        requires { Slotted self s }
        ensures { result ≡ home_of self s }
    {
        self.l + (s - 1) * self.m
    }

    // How many records a file of `len` bytes has room for.
    pub fn room(self, len: usize) -> usize
        requires { Shaped self }
        ensures { result ≡ room_of self len }
    {
        (len / self.l).min(Sizes::MAX_RECORDS)
    }
}

// The records of one entry, first to last. Both are 0 where the entry is empty.
// Not an Option: the file and the lent row hold the two zeros.
#[derive(Clone, Copy)]
pub struct Run {
    pub first: usize,
    pub last: usize,
}
