// Standard input, piece by piece: each line of it is answered as soon as it is whole. The one loop of the programs `rehearse` and `sessions`.
#![tactic(auto)]

pub mod closing;
pub mod feeding;
pub mod standing;

use script::Buffer;
use session::{Buffers, Session};

// A session with its buffers, and the line under way.
#[derive(Clone, Copy)]
pub struct Play {
    pub session: Session,
    pub buffers: Buffers,
    pub many: bool, // sessions follow one another, each under its name
    pub named: bool, // and one has been named
    pub line: Buffer,
    pub held: usize, // bytes of the line under way, at the front of its buffer
}

// How many bytes were printed for a line, and how many of the piece it took.
#[derive(Drop)]
pub struct Step {
    pub wrote: usize,
    pub took: usize,
}
