// Questions to samples.
use crate::samples::Sample;
use record::EventId;
use record::good::good_record;
use saying::{number, word};
use streams::Streams;

// Which bytes stand at a place, so many?
pub(crate) fn field(streams: &mut Streams, sample: Sample, at: usize, n: usize) {
    let b = sample.bytes();
    word(streams, sample.name());
    word(streams, b", byte");
    number(streams, at as u64);
    word(streams, b" on:");
    saying::bytes(streams, le::cut(le::tail(&b, 8), at, n));
    word(streams, b"\n");
}

// Is so much of the buffer, from where the sample begins, a good record with this id?
pub(crate) fn part(streams: &mut Streams, sample: Sample, n: usize, id: u64) {
    let b = sample.bytes();
    word(streams, sample.name());
    word(streams, b",");
    number(streams, n as u64);
    word(streams, b" bytes, expected id");
    number(streams, id);
    saying::good(streams, good_record(le::cut(&b, 8, n), EventId(id)));
}

// With a place's byte changed to this one, is the sample good?
pub(crate) fn byte(streams: &mut Streams, sample: Sample, at: usize, value: u64) {
    word(streams, sample.name());
    if 200 <= at {
        return;
    }
    let mut b = sample.bytes();
    b[at + 8] = (value & 0xFF) as u8;
    word(streams, b", byte");
    number(streams, at as u64);
    word(streams, b" is ");
    streams.hex_byte(value);
    let r = le::cut(&b, 8, sample.size());
    saying::good(streams, good_record(r, sample.head().id));
}
