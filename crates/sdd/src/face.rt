//! The structs of include/sdd.h: names differ, fields and their order do not.

// The paper's refusal number with its slot or reason; 0 and 0 where the call is accepted.
#[repr(C)]
#[derive(Clone, Copy)]
pub struct Why {
    pub number: u32,
    pub value: u32,
}

#[repr(C)]
#[derive(Clone, Copy)]
pub struct COpened {
    pub why: Why,
    pub n: u64,
    pub d: u64,
    pub l: u64,
    pub m: u64,
    pub u: u64,
    pub counter: u64,
    pub kind: u64,
    pub capacity: u64,
    pub room: u64,
    // 0 old, 1 current.
    pub version: u64,
}

#[repr(C)]
#[derive(Clone, Copy)]
pub struct CListed {
    pub why: Why,
    pub scans: u64,
}

#[repr(C)]
#[derive(Clone, Copy)]
pub struct CAnswer {
    pub why: Why,
    pub yes: u64,
}

#[repr(C)]
#[derive(Clone, Copy)]
pub struct CSpan {
    pub why: Why,
    pub from: u64,
    pub to: u64,
}

#[repr(C)]
#[derive(Clone, Copy)]
pub struct CEntry {
    pub why: Why,
    pub first: u32,
    pub last: u32,
    pub horizontal: u32,
    pub vertical: u32,
    pub source: [u8; 16],
    pub scan: u32,
    pub field4: u32,
    pub field8: u64,
    pub lst: u32,
    pub date: u32,
    pub mode: i16,
    pub number: i16,
    pub position: i16,
    pub magic: i16,
    pub kind: u16,
    pub single: f32,
    pub double: f64,
}

#[repr(C)]
#[derive(Clone, Copy)]
pub struct CJob {
    pub saves: u64,
    pub slot: u64,
    pub size: u64,
    pub span: u64,
    pub first: u64,
    pub written: u64,
    pub lowers: u64,
    pub old: u64,
    pub many: u64,
    pub boot: [u8; 32],
    pub about: [u8; 54],
}

#[repr(C)]
#[derive(Clone, Copy)]
pub struct CBegun {
    pub why: Why,
    pub job: CJob,
}

#[repr(C)]
#[derive(Clone, Copy)]
pub struct CStepped {
    pub why: Why,
    pub done: u64,
    pub wrote: u64,
    pub written: u64,
    pub job: CJob,
}

// A verdict under way: boot, length, came and index_end. The array stands first, so that in an answer each part lies where a copy of the link reads it.
#[repr(C)]
#[derive(Clone, Copy)]
pub struct CLink {
    pub boot: [u8; 32],
    pub span: u64,
    pub came: u64,
    pub ends: u64,
}

#[repr(C)]
#[derive(Clone, Copy)]
pub struct CLinked {
    pub why: Why,
    pub link: CLink,
}
