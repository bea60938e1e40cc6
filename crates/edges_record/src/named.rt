// Topics, and which agent may have the panic topic.
use crate::samples;
use record::EventId;
use saying::{number, word};
use streams::Streams;

// A record of an agent, with flags 1 and no payload, is good.
fn sound(topic: &[u8], agent: u64) -> bool {
    let mut b = [0xA5u8; 2184];
    if 2049 < topic.len() {
        return false;
    }
    let n = text::sizes::total_len(topic.len() as u32, 0) as usize;
    let h = samples::header(9, 1, agent);
    record::put::put_record(&mut b, 0, h, &samples::trace(), topic, b"");
    record::good::good_record(le::front(&b, n), EventId(9))
}

pub(crate) fn named(streams: &mut Streams, topic: &[u8], agent: u64) {
    word(streams, b"agent");
    number(streams, agent);
    word(streams, b", topic ");
    word(streams, topic);
    saying::good(streams, sound(topic, agent));
}

// A topic of so many `a`s.
pub(crate) fn long(streams: &mut Streams, n: usize) {
    word(streams, b"a topic of");
    number(streams, n as u64);
    saying::good(streams, sound(le::front(&[b'a'; 2049], n), 1));
}
