// The script of a rehearsal: its lines as they are read, and as they are printed.
#![tactic(auto)]

pub mod events;
pub mod forms;
pub mod gather;
pub mod laying;
pub mod say;

// 01: "All buffers are 65,536 bytes".
pub type Buffer = [u8; 65536];
