//! The table of refusals, in its order, with the slot or the reason where the table shows one.
ghost use Rattle.std.specs.Prelude.{◌≡◌};
ghost use Rattle.paper.specs.Refusals.{number_of, value_of};

#[derive(Clone, Copy)]
pub enum Refusal {
    TooShort,
    OldForm,
    UnknownForm,
    OutOfRange,
    PastEnd,
    BadEntry(usize),
    AboveUse(usize),
    SharedRecord(usize),
    NoSuchSlot,
    EmptySlot,
    BadScan(usize),
    NoEmptySlot,
    NoRoom,
    Disagrees,
    Differs,
    BadBlank,
    TooSmall,
    NotVersionOne,
    NotConvertible,
    NotAllCame,
}

impl Refusal {
    // The paper's number.
    // A From would hold the same match and would not say which of the two numbers it gives.
    pub fn number(self) -> usize
        ensures { result ≡ number_of self }
    {
        match self {
            Refusal::TooShort => 1,
            Refusal::OldForm => 2,
            Refusal::UnknownForm => 3,
            Refusal::OutOfRange => 4,
            Refusal::PastEnd => 5,
            Refusal::BadEntry(_) => 6,
            Refusal::AboveUse(_) => 7,
            Refusal::SharedRecord(_) => 8,
            Refusal::NoSuchSlot => 9,
            Refusal::EmptySlot => 10,
            Refusal::BadScan(_) => 11,
            Refusal::NoEmptySlot => 12,
            Refusal::NoRoom => 13,
            Refusal::Disagrees => 14,
            Refusal::Differs => 15,
            Refusal::BadBlank => 16,
            Refusal::TooSmall => 17,
            Refusal::NotVersionOne => 18,
            Refusal::NotConvertible => 19,
            Refusal::NotAllCame => 20,
        }
    }

    // Its slot or reason, or 0.
    pub fn value(self) -> usize
        ensures { result ≡ value_of self }
    {
        match self {
            Refusal::TooShort => 0,
            Refusal::OldForm => 0,
            Refusal::UnknownForm => 0,
            Refusal::OutOfRange => 0,
            Refusal::PastEnd => 0,
            Refusal::BadEntry(slot) => slot,
            Refusal::AboveUse(slot) => slot,
            Refusal::SharedRecord(slot) => slot,
            Refusal::NoSuchSlot => 0,
            Refusal::EmptySlot => 0,
            Refusal::BadScan(reason) => reason,
            Refusal::NoEmptySlot => 0,
            Refusal::NoRoom => 0,
            Refusal::Disagrees => 0,
            Refusal::Differs => 0,
            Refusal::BadBlank => 0,
            Refusal::TooSmall => 0,
            Refusal::NotVersionOne => 0,
            Refusal::NotConvertible => 0,
            Refusal::NotAllCame => 0,
        }
    }
}
