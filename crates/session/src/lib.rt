// A rehearsal, as document 01 has it, line by line: a session beside its buffers; one line in, its lines out.
#![tactic(auto)]

pub mod calls;
pub mod fates;
pub mod listing;
pub mod playing;
pub mod steps;

use host::Host;
use script::Buffer;

// The table of offsets beside a card of 65,536 bytes: it has room for 65,536 / 136 records, the most that such a card can have.
pub type Index = [u32; 481];

// "All buffers are 65,536 bytes". The index is as long as a card of that length can need (02, A9).
#[derive(Clone, Copy)]
pub struct Buffers {
    pub memory: Buffer,
    pub staging: Buffer,
    pub card: Buffer,
    pub text: Buffer, // the manifest
    pub index: Index,
}

// How far a session has come.
#[derive(Clone, Copy, PartialEq, Eq)]
pub enum Phase {
    Listing, // its manifest is being read
    Overfull, // the same, and the manifest is too long already
    Playing, // behind `go`
    Over,
}

#[derive(Clone, Copy)]
pub struct Session {
    pub phase: Phase,
    pub lines: u64, // read so far
    pub size: usize, // of the manifest
    pub host: Host,
}
