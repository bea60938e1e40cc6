// Records handed to a module.
use crate::samples::Sample;
use record::EventId;
use saying::{number, word};
use streams::Streams;

// A memory that has 5a in every byte, with a good record at an address.
fn placed(r: &[u8], id: EventId, at: usize) -> [u8; 512] {
    let mut m = [0x5Au8; 512];
    if at <= 304 && r.len() <= 200 && record::good::good_record(r, id) {
        record::shown::put_shown(r, &mut m, at);
    }
    m
}

// What then stands at the address: the record, and at least 8 bytes behind it.
pub(crate) fn shown(streams: &mut Streams, sample: Sample, flags: u32, address: u64) {
    let at = address as usize;
    let mut b = sample.bytes();
    le::put::<u32>(&mut b, 12, flags);
    let m = placed(le::cut(&b, 8, sample.size()), sample.head().id, at);
    word(streams, sample.name());
    word(streams, b", flags");
    number(streams, u64::from(flags));
    word(streams, b", at");
    number(streams, address);
    word(streams, b":");
    saying::bytes(streams, le::cut(&m, at, 184));
    word(streams, b"\n");
}
