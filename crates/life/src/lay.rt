// The arguments of a call, laid into memory: the record at 8, the topic at 64, the payload or the value at 2176, a value's text at 2208.
use cases::{number, number_or};
use text::lines::field;

pub(crate) const TOPIC: usize = 64;

pub(crate) const DATA: usize = 2176;

const TEXT: usize = 2208;

const JUNK: u64 = 0xEEEE_EEEE_EEEE_EEEE;

// The calls that take what is laid.
#[derive(Clone, Copy)]
pub(crate) enum Call {
    Write,
    Value,
    Read,
    Open,
    Next,
    Close,
    Ingress,
}

impl Call {
    pub(crate) fn named(w: &[u8]) -> Option<Call> {
        match w {
            b"write" => Some(Call::Write),
            b"value" => Some(Call::Value),
            b"read" => Some(Call::Read),
            b"open" => Some(Call::Open),
            b"next" => Some(Call::Next),
            b"close" => Some(Call::Close),
            b"ingress" => Some(Call::Ingress),
            _ => None,
        }
    }
}

// The eight bytes at `at` as a number, 0 where there are no such.
pub(crate) fn word_at(s: &[u8], at: usize) -> u64 {
    if s.len() < 8 || s.len() - 8 < at {
        return 0;
    }
    le::get::<u64>(s, at)
}

pub(crate) fn put_word(s: &mut [u8], at: usize, n: u64) {
    if 8 <= s.len() && at <= s.len() - 8 {
        le::put::<u64>(s, at, n);
    }
}

// Letters, n of them, where there is room for all.
fn letters(s: &mut [u8], at: usize, n: usize) {
    if s.len() < at || s.len() - at < n {
        return;
    }
    for (i, b) in s[at..at + n].iter_mut().enumerate() {
        *b = b'a' + (i % 26) as u8;
    }
}

// A text as it stands, or, where it is a star and a number, so many letters; how long it is.
pub(crate) fn put_text(s: &mut [u8], at: usize, t: &[u8]) -> u64 {
    if let [b'*', many @ ..] = t {
        let n = number(many, 0);
        letters(s, at, n as usize);
        return n;
    }
    if s.len() < at || s.len() - at < t.len() {
        return 0;
    }
    le::copy_at(t, s, at);
    t.len() as u64
}

// The six numbers of a record.
fn six(m: &mut [u8], words: [u64; 6]) {
    for (k, n) in words.iter().enumerate() {
        put_word(m, 8 + 8 * k, *n);
    }
}

// value topic type content [its flags] [the write's flags]: a text where the type is 5 or 9, else a number. No unused byte is 0.
fn value(m: &mut [u8], l: &[u8]) {
    let t = number(l, 2) & 0xFFFF_FFFF;
    put_word(m, DATA, number(l, 4) << 32 | t);
    put_word(m, DATA + 24, JUNK);
    if t == 5 || t == 9 {
        let n = put_text(m, TEXT, field(l, 3));
        put_word(m, DATA + 8, TEXT as u64);
        put_word(m, DATA + 16, n);
        return;
    }
    put_word(m, DATA + 8, number(l, 3));
    put_word(m, DATA + 16, JUNK);
}

// What the call that the line names is to find in memory.
pub(crate) fn lay(m: &mut [u8], l: &[u8]) {
    let Some(call) = Call::named(field(l, 0)) else {
        return;
    };
    let topic = TOPIC as u64;
    let place = DATA as u64;
    let n = put_text(m, TOPIC, field(l, 1));
    let a = number(l, 1);
    let b = number(l, 2);
    let c = number(l, 3);
    match call {
        Call::Write | Call::Ingress => {
            let d = put_text(m, DATA, field(l, 2));
            six(m, [topic, n, place, d, number_or(l, 3, 1), 0]);
        }
        Call::Value => {
            value(m, l);
            six(m, [topic, n, place, 32, number_or(l, 5, 2), 0]);
        }
        Call::Read => six(m, [topic, n, b, number_or(l, 4, 4096), c, 0]),
        Call::Open => six(m, [topic, n, b, c, number(l, 4), number(l, 5)]),
        Call::Next => six(m, [a, number_or(l, 3, 4096), b, 0, 0, 0]),
        Call::Close => six(m, [a, 0, 0, 0, 0, 0]),
    }
}
