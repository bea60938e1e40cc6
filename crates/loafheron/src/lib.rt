// The C library: the host's state as plain numbers, and every operation under a C name, thin over the proved host.
// include/loafheron.h says to a C program what stands here.
#![tactic(auto)]

mod answers;
mod calls;
mod crossing;
mod hosts;
mod lookup;
mod turns;

use card::Cursor;
use record::Header;
use text::limits::Limits;

// Room for one open cursor: its handle, 0 where it is free, and what the cursor still has to list.
#[repr(C)]
#[derive(Clone, Copy)]
pub struct Room {
    pub handle: u64,
    pub from: u64,
    pub to: u64,
    pub limit: u64,
    pub desc: u64,
    pub size: u64,
    pub filter: [u8; Limits::FILTER],
}

// The host's state. A flag is 0 or 1, a spoiled weave's reason its code. There is no padding.
#[repr(C)]
#[derive(Clone, Copy)]
pub struct State {
    pub staginglen: u64,
    pub cardlen: u64,
    pub manifestlen: u64,
    pub indexlen: u64,
    pub used: u64,
    pub next: u64,
    pub faulted: u64,
    pub running: u64,
    pub spoiled: i64,
    pub turn: u64,
    pub late: u64,
    pub staged: u64,
    pub count: u64,
    pub units: u64,
    pub resmax: u64,
    pub time: u64,
    pub opened: u64,
    pub trace: [u8; Header::TRACE_SIZE],
    pub rooms: [Room; Cursor::OPEN],
}

// What mount answers: 0, or its code with the offset of the first record not sound.
#[repr(C)]
#[derive(Drop)]
pub struct MountReply {
    pub code: i64,
    pub at: u64,
    pub state: State,
}

// What any other call answers: 0 and a value, or its code and, with -5 from a module call, the field that failed.
#[repr(C)]
#[derive(Drop)]
pub struct Reply {
    pub code: i64,
    pub value: u64,
    pub field: u64,
    pub state: State,
}

// What a return leads to: refused, discarded, running or committed.
#[repr(C)]
#[derive(Drop)]
pub struct Outcome {
    pub kind: u64,
    pub code: i64,
    pub events: u64,
    pub bytes: u64,
}

#[repr(C)]
#[derive(Drop)]
pub struct ReturnReply {
    pub outcome: Outcome,
    pub state: State,
}

// Where a looked-up record lies: nowhere, on the card or in the staging.
#[repr(C)]
#[derive(Drop)]
pub struct Place {
    pub buffer: u64,
    pub at: u64,
    pub len: u64,
}
