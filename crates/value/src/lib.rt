// A Filament value: what its 32 bytes say, its check, its stored form, and its pointer when it is handed out.
// The crates above know four things of it: the payload that is stored, the fault for which there is none, the test of a stored payload, and the payload as shown.
#![tactic(auto)]

pub mod cell;
pub mod check;
pub mod decode;
pub mod form;
mod pattern;
pub mod scalar;
pub mod shown;
pub mod store;

use cell::Cell;
use scalar::Scalar;

// A run of bytes in a memory.
#[derive(Clone, Copy)]
pub struct Span {
    pub ptr: u64,
    pub len: u64,
}

// What 32 bytes say: a scalar, a string, a byte array, or nothing that may be stored.
#[derive(Clone, Copy)]
pub enum Value {
    Plain(Scalar),
    Text(Span),
    Array(Span),
    Wrong,
}

impl Value {
    // 01: "write's len is 32"; a string's or byte array's own bytes are stored right behind.
    pub const SIZE: u64 = Cell::SIZE as u64;
}

// What is wrong with a value: a span outside memory (-5), or a type or content that may not be (-7).
#[derive(Clone, Copy)]
pub enum Fault {
    Outside,
    Unfit,
}
