// The module calls.
use crate::buffers::{Buffers, front};
use crate::lay::{Call, word_at};
use crate::{pages, say};
use host::{Answer, Host};
use reads::next::next;
use reads::read::read;
use streams::Streams;
use writes::write::write;

// With its arguments at `at`.
fn answered(h: Host, call: Call, at: u64, b: &mut Buffers) -> Answer {
    let n = b.lent;
    let memory = front(&mut b.memory, n.memory);
    let staging = front(&mut b.staging, n.staging);
    let card = front(&mut b.card, n.card);
    let text = le::front(&b.manifest, n.manifest);
    let index = front(&mut b.index, n.index);
    match call {
        Call::Read => read(h, memory, staging, card, text, at),
        Call::Next => next(h, memory, staging, card, text, index, at),
        Call::Open => h.open(memory, staging, card, text, at),
        Call::Close => h.close(memory, staging, card, text, at),
        _ => write(h, memory, staging, card, text, at),
    }
}

// Where a read or a next is to put its page.
fn out_of(call: Call, at: usize, memory: &[u8]) -> Option<usize> {
    match call {
        Call::Read => Some(word_at(memory, at.saturating_add(24)) as usize),
        Call::Next => Some(word_at(memory, at.saturating_add(8)) as usize),
        _ => None,
    }
}

// What is answered, and the events of a page; the next state.
pub(crate) fn by_module(
    streams: &mut Streams,
    h: Host,
    call: Call,
    at: u64,
    b: &mut Buffers,
) -> Host {
    let n = b.lent.memory;
    let out = out_of(call, at as usize, le::front(&b.memory, n));
    let a = answered(h, call, at, b);
    let size = a.value as usize;
    let is = say::called(streams, a);
    if let Some(out) = out {
        pages::events(streams, le::front(&b.memory, n), out, size);
    }
    is
}
