// The card that the cases are about.
use cases::{half, number};
use record::{EventId, Header, VirtualTime};
use text::lines::field;
use text::sizes::total_len;

// Its bytes, and how many of them are records.
#[derive(Drop)]
pub(crate) struct Card {
    pub bytes: [u8; 1400],
    len: usize,
}

impl Card {
    pub(crate) fn new() -> Card {
        Card {
            bytes: [0; 1400],
            len: 0,
        }
    }

    // The record of a line behind the others, where there is room.
    fn add(&mut self, l: &[u8], payload: &[u8]) {
        let topic = field(l, 4);
        if 2048 < topic.len() || 2048 < payload.len() {
            return;
        }
        let n = total_len(topic.len() as u32, payload.len() as u32) as usize;
        if self.bytes.len().saturating_sub(self.len) < n {
            return;
        }
        let mut trace = [0x77u8; 32];
        le::put::<u64>(&mut trace, 0, 0x1112_1314_1516_1718);
        record::put::put_record(&mut self.bytes, self.len, head(l), &trace, topic, payload);
        self.len += n;
    }

    // record id flags agent topic payload
    pub(crate) fn record(&mut self, l: &[u8]) {
        self.add(l, field(l, 5));
    }

    // string id flags agent topic: its payload is the string.
    pub(crate) fn string(&mut self, l: &[u8]) {
        self.add(l, &stored());
    }
}

fn head(l: &[u8]) -> Header {
    Header {
        id: EventId(number(l, 1)),
        flags: half(l, 2),
        time: VirtualTime(5000),
        agent: number(l, 3),
    }
}

// The string `abc` as it is stored.
fn stored() -> [u8; 35] {
    let mut memory = [0u8; 48];
    le::put::<u32>(&mut memory, 8, 5);
    le::put::<u64>(&mut memory, 16, 40);
    le::put::<u64>(&mut memory, 24, 3);
    le::copy_at(b"abc", &mut memory, 40);
    let mut out = [0u8; 35];
    value::store::store_value(&memory, 8, &mut out, 0);
    out
}
