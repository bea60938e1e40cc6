// The events of a page, each in a line of its own, as the module finds them.
ghost use Rattle.std.specs.Prelude.{◌<◌};

use crate::lay::word_at;
use crate::say;
use saying::{number, word};
use streams::Streams;

fn half(s: &[u8], at: usize) -> usize
    ensures { result < 4294967296 }
{
    (word_at(s, at) & 0xFFFF_FFFF) as usize
}

// A value: its type and flags; a text or bytes where its pointer says, or a number.
fn value(streams: &mut Streams, memory: &[u8], v: &[u8]) {
    let t = half(v, 0);
    let n = word_at(v, 8);
    word(streams, b" type");
    number(streams, t as u64);
    word(streams, b" flags");
    number(streams, word_at(v, 0) >> 32);
    if t == 5 || t == 9 {
        word(streams, b" ptr");
        number(streams, n);
        let size = word_at(v, 16) as usize;
        say::text(streams, le::cut(memory, n as usize, size));
        return;
    }
    number(streams, n);
}

fn payload(streams: &mut Streams, memory: &[u8], flags: usize, p: &[u8]) {
    match flags {
        2 | 10 => value(streams, memory, p),
        _ => say::text(streams, p),
    }
}

fn header(streams: &mut Streams, r: &[u8]) {
    word(streams, b"\n  event");
    number(streams, word_at(r, 8));
    word(streams, b" flags");
    number(streams, half(r, 4) as u64);
    word(streams, b" time");
    number(streams, word_at(r, 16));
    word(streams, b" agent");
    number(streams, word_at(r, 32));
}

// The record that these bytes of memory begin with; how long it is.
fn event(streams: &mut Streams, memory: &[u8], r: &[u8]) -> usize
    ensures { result < 4294967296 }
{
    let n = half(r, 80);
    let d = half(r, 84);
    header(streams, r);
    say::text(streams, le::cut(r, 128, n));
    let p = le::cut(r, 128 + n.next_multiple_of(8), d);
    payload(streams, memory, half(r, 4), p);
    half(r, 0)
}

// Those of the page of n bytes at `out`; what is said behind them has a line of its own.
pub(crate) fn events(streams: &mut Streams, memory: &[u8], out: usize, n: usize) {
    let page = le::cut(memory, out, n);
    let mut rest = page;
    while !rest.is_empty() {
        let size = event(streams, memory, rest);
        if size == 0 {
            return;
        }
        rest = le::tail(rest, size);
    }
    if !page.is_empty() {
        word(streams, b"\n");
    }
}
