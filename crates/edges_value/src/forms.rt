// Payloads as a card may have them, whole and damaged: tested for the stored form.
use crate::say;
use cases::{half, pattern, size};
use streams::Streams;
use text::lines::field;

// The first n of 40 bytes: the head with flags 11, then a byte, then `bcdefgh`.
pub(crate) fn holds(streams: &mut Streams, l: &[u8]) {
    let mut b = [0u8; 40];
    le::put::<u32>(&mut b, 0, half(l, 2));
    le::put::<u32>(&mut b, 4, 0x11);
    for (at, k) in [(8, 3), (16, 4), (24, 5)] {
        le::put::<u64>(&mut b, at, pattern(field(l, k)));
    }
    le::copy_at(b"abcdefgh", &mut b, 32);
    b[32] = (pattern(field(l, 6)) & 0xFF) as u8;
    say::good(streams, value::form::good_stored(le::front(&b, size(l, 7))));
}
