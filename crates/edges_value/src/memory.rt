// Values of a memory: checked, stored, tested, shown.
use crate::say;
use cases::{half, pattern};
use saying::word;
use streams::Streams;
use text::lines::field;
use value::Fault;
use value::check::check_value;
use value::store::store_value;

// A memory of 2,048 bytes. At 16 a value with flags 11, whose last eight bytes are not 0; at 64 a text, behind it what is no text; all else is `a`.
fn memory(kind: u32, first: u64, second: u64) -> [u8; 2048] {
    let mut m = [0x61u8; 2048];
    le::put::<u32>(&mut m, 16, kind);
    le::put::<u32>(&mut m, 20, 0x11);
    le::put::<u64>(&mut m, 24, first);
    le::put::<u64>(&mut m, 32, second);
    le::put::<u64>(&mut m, 40, 0x5A5A_5A5A_5A5A_5A5A);
    le::copy_at(b"h\xC3\xA9\xE2\x82\xAC", &mut m, 64);
    le::copy_at(
        b"\xC0\x80\xED\xA0\x80\xF4\x90\x80\x80\xF4\x8F\xBF\xBF",
        &mut m,
        80,
    );
    m
}

fn accepted(streams: &mut Streams, m: &[u8; 2048], len: u64) {
    let mut out = [0xA5u8; 2100];
    store_value(m, 16, &mut out, 8);
    saying::number(streams, len);
    word(streams, b" bytes:");
    say::numbers(streams, &out);
    say::behind(streams, &out);
    say::good(
        streams,
        value::form::good_stored(le::cut(&out, 8, len as usize)),
    );
    value::shown::show_value(&mut out, 8, 0x1000);
    word(streams, b"; shown at 1000:");
    say::numbers(streams, &out);
}

fn refused(streams: &mut Streams, m: &[u8; 2048], fault: Fault) {
    let mut out = [0xA5u8; 2100];
    store_value(m, 16, &mut out, 8);
    say::code(streams, Err(fault));
    let stored = le::get::<u64>(&out, 8) != 0xA5A5_A5A5_A5A5_A5A5;
    word(
        streams,
        if stored {
            b", but stored"
        } else {
            b", nothing stored"
        },
    );
}

pub(crate) fn asks(streams: &mut Streams, l: &[u8]) {
    let m = memory(half(l, 2), pattern(field(l, 3)), pattern(field(l, 4)));
    match check_value(&m, 16) {
        Ok(len) => accepted(streams, &m, len),
        Err(fault) => refused(streams, &m, fault),
    }
}

pub(crate) fn address(streams: &mut Streams, p: u64) {
    say::code(streams, check_value(&memory(2, 5, 0), p));
}

// A string of 3 takes 35 bytes: into a buffer of 40, from `at` on.
pub(crate) fn room(streams: &mut Streams, at: usize) {
    let m = memory(5, 67, 3);
    let mut out = [0xA5u8; 40];
    store_value(&m, 16, &mut out, at);
    saying::pattern(streams, le::get::<u64>(&out, 8));
}
