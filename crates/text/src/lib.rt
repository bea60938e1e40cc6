// Texts, spans, sizes and flags: what documents 01 and 02 say of bytes before they say what they are for.
#![tactic(auto)]

pub mod compare;
pub mod decimal;
pub mod flags;
pub mod limits;
pub mod lines;
pub mod sizes;
pub mod span;
pub mod topic;
pub mod utf8;
pub mod words;
