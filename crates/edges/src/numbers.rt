// Numbers: spans, flags, decimal numbers read and written, a record's size, little-endian.
use crate::texts::compared;
use cases::{half, number, size};
use saying::{answer, result, word};
use streams::Streams;
use text::flags::good_flags;
use text::lines::field;
use text::sizes::total_len;
use text::span::inside;

fn read(streams: &mut Streams, s: &[u8]) {
    match text::decimal::read_number(s) {
        Some(k) => result(streams, k),
        None => word(streams, b": none\n"),
    }
}

// At the end of a buffer, with room for so many bytes, which stand as they are where the number does not fit.
fn written(streams: &mut Streams, n: u64, room: usize) {
    let mut out = [46u8; 24];
    if 24 < room {
        return;
    }
    let at = 24 - room;
    let ok = text::decimal::put_number(&mut out, at, n);
    word(streams, b" ");
    word(streams, le::tail(&out, at));
    answer(streams, ok);
}

// Two numbers, written into sixteen bytes.
fn sixteen() -> [u8; 16] {
    let mut b = [255u8; 16];
    le::put::<u32>(&mut b, 2, 0x1234_5678);
    le::put::<u64>(&mut b, 8, 0xFEDC_BA98_7654_3210);
    b
}

// The 32 bits at a place of them, where there are so many.
fn half_at(streams: &mut Streams, at: usize) {
    if at <= 12 {
        result(streams, u64::from(le::get::<u32>(&sixteen(), at)));
    }
}

// The 64 bits.
fn word_at(streams: &mut Streams, at: usize) {
    if at <= 8 {
        result(streams, le::get::<u64>(&sixteen(), at));
    }
}

pub(crate) fn case(streams: &mut Streams, l: &[u8]) {
    match field(l, 0) {
        b"span" => answer(streams, inside(number(l, 1), number(l, 2), number(l, 4))),
        b"flags" => answer(streams, good_flags(half(l, 1))),
        b"number" => read(streams, field(l, 1)),
        b"written" => written(streams, number(l, 1), size(l, 3)),
        b"total_len" => result(streams, total_len(half(l, 1), half(l, 2))),
        b"bytes" => {
            saying::bytes(streams, &sixteen());
            word(streams, b"\n");
        }
        b"u32 at" => half_at(streams, size(l, 1)),
        b"u64 at" => word_at(streams, size(l, 1)),
        _ => compared(streams, l),
    }
}
