// What a line is made of. What is answered is said, and the next state given.
use crate::lay::word_at;
use crate::words;
use host::{Answer, Fate, Host, Mounted, Returned};
use saying::{number, word};
use streams::Streams;
use weave::Code;

// A text, and how long it is where it is cut.
pub(crate) fn text(streams: &mut Streams, s: &[u8]) {
    word(streams, b" ");
    word(streams, le::front(s, 40));
    if 40 < s.len() {
        word(streams, b"..");
        number(streams, s.len() as u64);
    }
}

// A code, or the number that is answered where it is fine.
pub(crate) fn answer(streams: &mut Streams, c: Code, n: u64) {
    if c.fine() {
        number(streams, n);
        return;
    }
    word(streams, b" -");
    streams.decimal(c.number().unsigned_abs());
}

// The field that comes with -5 from a module call. Where none may come and one does, it is said too.
pub(crate) fn field(streams: &mut Streams, comes: bool, n: u64) {
    if comes || n != 0 {
        word(streams, b" field");
        number(streams, n);
    }
}

// A module call, where no field may come but with -5.
pub(crate) fn called(streams: &mut Streams, a: Answer) -> Host {
    answer(streams, a.code, a.value);
    field(streams, a.code.bad(), a.field);
    a.host
}

// What the host is asked beside a module: no field may come.
pub(crate) fn own(streams: &mut Streams, a: Answer) -> Host {
    answer(streams, a.code, a.value);
    field(streams, false, a.field);
    a.host
}

pub(crate) fn mounted(streams: &mut Streams, m: Mounted) -> Host {
    answer(streams, m.code, 0);
    word(streams, b" at");
    number(streams, m.at as u64);
    m.host
}

pub(crate) fn returned(streams: &mut Streams, r: Returned) -> Host {
    match r.fate {
        Fate::Refused(c) => answer(streams, c, 0),
        Fate::Discarded(c) => {
            word(streams, b" discarded");
            answer(streams, c, 0);
        }
        Fate::Running => word(streams, b" running"),
        Fate::Committed { events, bytes } => {
            word(streams, b" committed");
            number(streams, events);
            number(streams, bytes as u64);
        }
    }
    r.host
}

// A record that was looked up: how long it is, its own number, and the sum of its bytes.
pub(crate) fn found(streams: &mut Streams, r: &[u8]) {
    if r.is_empty() {
        word(streams, b" none");
        return;
    }
    number(streams, r.len() as u64);
    word(streams, b" bytes, id");
    number(streams, word_at(r, 8));
    word(streams, b", sum");
    number(streams, words::sum(r));
}
