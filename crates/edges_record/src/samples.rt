// Good records. Each is written at 8 of a buffer that has a5 in every byte, and at least 8 of these stay behind it.
use record::{EventId, Header, VirtualTime};

// By number, from 1 on.
#[derive(Clone, Copy)]
pub(crate) enum Sample {
    Raw, // flags 9, module 3, topic `loop/take`, payload `verse`: P1's sizes
    Ingress, // the panic topic, payload `downbeat`
    Text, // flags 2, module 16, topic `loop/key`, `abc`: P3's sizes
    Float, // flags 10, module 1, topic `a`, P7's, which is not a number
    Boolean, // flags 2, module 2, topic `a`, true
    ByteArray, // flags 10, module 1, topic `loop/key`, 2 bytes that are no UTF-8
    Empty, // an empty string: flags 2, module 1, topic `a`
}

// (The numbers stand in the input; any other is the last sample.)
impl From<u32> for Sample {
    fn from(n: u32) -> Sample {
        match n {
            1 => Sample::Raw,
            2 => Sample::Ingress,
            3 => Sample::Text,
            4 => Sample::Float,
            5 => Sample::Boolean,
            6 => Sample::ByteArray,
            _ => Sample::Empty,
        }
    }
}

impl Sample {
    pub(crate) fn name(self) -> &'static [u8] {
        match self {
            Sample::Raw => b"raw",
            Sample::Ingress => b"ingress",
            Sample::Text => b"string",
            Sample::Float => b"float",
            Sample::Boolean => b"boolean",
            Sample::ByteArray => b"byte array",
            Sample::Empty => b"empty string",
        }
    }

    pub(crate) fn head(self) -> Header {
        match self {
            Sample::Raw => header(7, 9, 3),
            Sample::Ingress => header(8, 1, 0),
            Sample::Text => header(1, 2, 16),
            Sample::Float => header(2, 10, 1),
            Sample::Boolean => header(3, 2, 2),
            Sample::ByteArray => header(4, 10, 1),
            Sample::Empty => header(5, 2, 1),
        }
    }

    pub(crate) fn bytes(self) -> [u8; 208] {
        let h = self.head();
        match self {
            Sample::Raw => with_bytes(h, b"loop/take", b"verse"),
            Sample::Ingress => with_bytes(h, b"filament/core/panic", b"downbeat"),
            Sample::Text => with_value(h, b"loop/key", 5, 40, 3),
            Sample::Float => with_value(h, b"a", 4, 0xFFF0_0000_0000_0001, 0),
            Sample::Boolean => with_value(h, b"a", 1, 1, 0),
            Sample::ByteArray => with_value(h, b"loop/key", 9, 43, 2),
            Sample::Empty => with_value(h, b"a", 5, 0, 0),
        }
    }

    // As many bytes as the record has.
    pub(crate) fn size(self) -> usize {
        match self {
            Sample::Raw => 152,
            Sample::Ingress => 160,
            Sample::Text | Sample::ByteArray => 176,
            Sample::Float | Sample::Boolean | Sample::Empty => 168,
        }
    }
}

pub(crate) fn header(id: u64, flags: u32, agent: u64) -> Header {
    Header {
        id: EventId(id),
        flags,
        time: VirtualTime(0x0102_0304_0506_0708),
        agent,
    }
}

// 32 bytes, none of them 0.
pub(crate) fn trace() -> [u8; 32] {
    let mut t = [0x77u8; 32];
    le::put::<u64>(&mut t, 0, 0x1716_1514_1312_1110);
    le::put::<u64>(&mut t, 24, 0x2F2E_2D2C_2B2A_2928);
    t
}

fn with_bytes(h: Header, topic: &[u8], payload: &[u8]) -> [u8; 208] {
    let mut b = [0xA5u8; 208];
    if topic.len() <= 24 && payload.len() <= 40 {
        record::put::put_record(&mut b, 8, h, &trace(), topic, payload);
    }
    b
}

// A memory with a value at 8, whose last eight bytes are not 0, and `abc` and what is no text behind it.
fn memory(kind: u32, first: u64, second: u64) -> [u8; 64] {
    let mut m = [0x5Au8; 64];
    le::put::<u32>(&mut m, 8, kind);
    le::put::<u32>(&mut m, 12, 0x11);
    le::put::<u64>(&mut m, 16, first);
    le::put::<u64>(&mut m, 24, second);
    le::copy_at(b"abc\xC0\x80", &mut m, 40);
    m
}

// The record of the value at 8 of such a memory; nothing where check 8 finds a fault, or where there is no room.
fn with_value(h: Header, topic: &[u8], kind: u32, first: u64, second: u64) -> [u8; 208] {
    let mut b = [0xA5u8; 208];
    let m = memory(kind, first, second);
    let Ok(n) = value::check::check_value(&m, 8) else {
        return b;
    };
    if 48 < n {
        return b;
    }
    if 16 < topic.len() {
        return b;
    }
    record::put::put_value_record(&mut b, 8, h, &trace(), topic, &m, 8, n as u32);
    b
}
