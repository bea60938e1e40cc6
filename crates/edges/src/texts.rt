// Bytes as texts, topics, lines and fields.
ghost use Rattle.std.specs.Prelude.{◌<◌};

use crate::numbers;
use cases::{bytes, size};
use saying::{answer, result, word};
use streams::Streams;
use text::lines::{closed, field, field_count, line};
use text::topic::{card_topic, good_filter, good_topic};
use text::utf8::valid;

// Bytes, at the end of a line that asks for them.
fn shown(streams: &mut Streams, s: &[u8]) {
    word(streams, b":");
    saying::bytes(streams, s);
    word(streams, b"\n");
}

// What is said of the bytes that field k writes, 64 at most.
fn given<F: FnOnce(&[u8])>(l: &[u8], k: usize, say: F)
    requires { F.IsAlwaysCallable say }
{
    let mut room = [0u8; 64];
    let n = bytes(field(l, k), &mut room);
    say(&room[..n]);
}

// So many `a`s as field 1 says.
fn long(l: &[u8]) -> &'static [u8] {
    le::front(&[b'a'; 2049], size(l, 1))
}

// Whether these bytes are UTF-8 among n letters, over those from `at` on. There are 64 letters: a case has to fit.
fn laid(s: &[u8], at: usize, n: usize) -> bool {
    let mut a = [b'a'; 64];
    le::lay(s, &mut a, at);
    valid(le::front(&a, n.saturating_add(s.len())))
}

// At how many places among n letters, and behind them, they are.
fn among(n: usize, s: &[u8]) -> usize
    requires { n < 64 }
{
    (0..=n).filter(|at| laid(s, *at, n)).count()
}

// Behind how many of 0 to n letters.
fn behind(n: usize, s: &[u8]) -> usize
    requires { n < 64 }
{
    (0..=n).filter(|at| laid(s, *at, *at)).count()
}

pub(crate) fn case(streams: &mut Streams, l: &[u8]) {
    match field(l, 0) {
        b"utf8" => given(l, 1, |s| answer(streams, valid(s))),
        b"topic" => given(l, 1, |s| answer(streams, good_topic(s))),
        b"topic on a card" => given(l, 1, |s| answer(streams, card_topic(s))),
        b"filter" => given(l, 1, |s| answer(streams, good_filter(s))),
        b"topic of" => answer(streams, good_topic(long(l))),
        b"topic on a card of" => answer(streams, card_topic(long(l))),
        b"filter of" => answer(streams, good_filter(long(l))),
        b"fields of" => given(l, 1, |s| result(streams, field_count(s) as u64)),
        b"field" => given(l, 3, |s| shown(streams, field(s, size(l, 1)))),
        b"line at" => given(l, 3, |s| shown(streams, line(s, size(l, 1)))),
        b"closed" => given(l, 1, |s| answer(streams, closed(s))),
        b"utf8 among" => given(l, 2, |s| result(streams, among(size(l, 1) % 64, s) as u64)),
        b"utf8 behind 0 to" => given(l, 2, |s| result(streams, behind(size(l, 1) % 64, s) as u64)),
        _ => numbers::case(streams, l),
    }
}

// A topic, then what is asked of it.
pub(crate) fn compared(streams: &mut Streams, l: &[u8]) {
    let t = field(l, 0);
    match field(l, 1) {
        b"begins with" => answer(streams, text::compare::starts_with(t, field(l, 2))),
        b"is a core topic" => answer(streams, text::words::is_core(t)),
        b"is the panic topic" => answer(streams, text::words::is_panic(t)),
        _ => word(streams, b"\n"),
    }
}
