// One weave: its state by value, each kind of change to it, the arguments of a call, and each check that speaks of these.
#![tactic(auto)]

pub mod args;
pub mod charges;
pub mod checks;
pub mod codes;
pub mod findings;
pub mod moves;
pub mod state;
pub mod sums;
pub mod table;

use card::Cursor;
use record::{Header, VirtualTime};

// 01's codes; Fine where a check finds nothing wrong.
#[derive(Clone, Copy)]
pub enum Code {
    Fine,
    Denied,
    NotNow,
    Unsound,
    NoRoom,
    Bad,
    Budget,
    BadValue,
}

// What a check of a module call finds: a code and, with -5, the field of its argument record that failed, by its offset. 0 with any other code.
#[derive(Clone, Copy)]
pub struct Finding {
    pub code: Code,
    pub field: u64,
}

// Why every further module call of the weave is refused.
#[derive(Clone, Copy)]
pub enum Spoiled {
    Not,
    Overspent,
    Panicked,
}

// (A struct of its own, so that it can be stored in a weave.)
#[derive(Clone, Copy)]
pub struct Mark(pub Spoiled);

// Room for one open cursor: its handle, 0 where it is free.
#[derive(Clone, Copy)]
pub struct Slot {
    pub handle: u64,
    pub cursor: Cursor,
}

// The lengths of the buffers that every operation is lent.
#[derive(Clone, Copy, PartialEq, Eq)]
pub struct Lengths {
    pub staging: usize,
    pub card: usize,
    pub manifest: usize,
}

// What a weave has. Outside a weave all of it is 0.
#[derive(Clone, Copy)]
pub struct Weave {
    pub running: bool,
    pub spoiled: Mark,
    pub turn: u64,
    pub late: bool, // for ingress: a module call or a return has been accepted
    pub staged: usize,
    pub count: u64,
    pub units: u64,
    pub resmax: u64,
    pub time: VirtualTime,
    pub trace: [u8; Header::TRACE_SIZE],
    pub opened: u64,
    pub slots: [Slot; Cursor::OPEN],
}
