// What a line of a program's answers is made of.
#![tactic(auto)]

use streams::Streams;

pub fn word(streams: &mut Streams, s: &[u8]) {
    streams.write(s);
}

// A number, behind a blank.
pub fn number(streams: &mut Streams, n: u64) {
    word(streams, b" ");
    streams.decimal(n);
}

// A number in base 16, behind a blank.
pub fn pattern(streams: &mut Streams, n: u64) {
    word(streams, b" ");
    streams.hex(n);
}

// The bytes, each behind a blank, as two digits of base 16.
pub fn bytes(streams: &mut Streams, s: &[u8]) {
    for b in s {
        word(streams, b" ");
        streams.hex_byte(u64::from(*b));
    }
}

// One of two words, and the end of the line.
pub fn either(streams: &mut Streams, yes: bool, one: &[u8], other: &[u8]) {
    word(streams, if yes { one } else { other });
    word(streams, b"\n");
}

// The end of a line that asks: whether it is so.
pub fn answer(streams: &mut Streams, yes: bool) {
    either(streams, yes, b": yes", b": no");
}

pub fn good(streams: &mut Streams, yes: bool) {
    either(streams, yes, b": good", b": not good");
}

// The end of a line that asks for a number.
pub fn result(streams: &mut Streams, n: u64) {
    word(streams, b":");
    number(streams, n);
    word(streams, b"\n");
}

// A line's fields, a blank between each two.
pub fn echo(streams: &mut Streams, l: &[u8]) {
    for (k, f) in l.split(|b| *b == b'\t').enumerate() {
        if 0 < k {
            word(streams, b" ");
        }
        word(streams, f);
    }
}
