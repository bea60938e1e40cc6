// The host: its state by value, checks 1 to 3, the one place where a call is accepted or refused, and begin, open, close and return. The other operations are
// functions over this state, in crates of their own.
//
// Staging, card, manifest and index are parameters, and no struct: the C interface lends each by itself, and which of them a call may write to differs from call to call.
// Contracts take them together, as `lent_as`.
#![tactic(auto)]

pub mod begin;
pub mod cursors;
pub mod ending;
pub mod outcome;
pub mod state;

use manifest::Manifest;
use record::EventId;
use weave::{Code, Lengths, Weave};

// What the box knows between two calls.
#[derive(Clone, Copy)]
pub struct Host {
    pub lengths: Lengths,
    pub index: usize, // how many entries the table has that lies beside the card
    pub used: usize,
    pub next: EventId,
    pub faulted: bool,
    pub weave: Weave,
}

// What the first checks of an operation find, and the manifest as it was read for them. (No Result: the later checks are made whether or not this one failed, and
// they ask the manifest.)
#[derive(Clone, Copy)]
pub struct Entry {
    pub check: Code,
    pub grants: Manifest,
}

// What an operation answers: Fine and a number, or the code it was refused with and, with -5 from a module call, the field that failed; and the next state.
#[derive(Drop)]
pub struct Answer {
    pub code: Code,
    pub value: u64,
    pub field: u64,
    pub host: Host,
}

// What a module's return leads to.
#[derive(Clone, Copy)]
pub enum Fate {
    Refused(Code),
    Discarded(Code),
    Running,
    Committed { events: u64, bytes: usize },
}

#[derive(Drop)]
pub struct Returned {
    pub fate: Fate,
    pub host: Host,
}

// What mount answers: Fine, or the code it was refused with, -3 with the offset of the first record not sound.
#[derive(Clone, Copy)]
pub struct Mounted {
    pub code: Code,
    pub at: usize,
    pub host: Host,
}
