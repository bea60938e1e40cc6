// A page: its bytes and the numbers of its records, and where the cursor then stands.
ghost use Rattle.std.specs.Prelude.{◌≡◌, true};
ghost use Rattle.card.specs.Look.{CanWalk};
ghost use Rattle.card.specs.declared.Page.TheVariants.{Fault};

use card::{Cursor, Page, Part, Query};
use record::Header;
use saying::{number, word};
use streams::Streams;

// The pointer of the value that a record has.
fn pointer(streams: &mut Streams, r: &[u8]) {
    if r.len() < 128 {
        return;
    }
    let at = Header::payload_at(le::get::<u32>(r, Header::TOPIC_LEN));
    if le::get::<u32>(r, Header::FLAGS) == 2 && at + 16 <= r.len() {
        word(streams, b" ptr");
        number(streams, le::get::<u64>(r, at + 8));
    }
}

// The numbers of the records that these bytes are, and where they point to.
fn ids(streams: &mut Streams, page: &[u8]) {
    let mut rest = page;
    while 16 <= rest.len() {
        number(streams, le::get::<u64>(rest, 8));
        pointer(streams, rest);
        let n = le::get::<u32>(rest, 0) as usize;
        if n == 0 {
            return;
        }
        rest = le::tail(rest, n);
    }
}

// Memory outside of the page has the bytes that it had.
fn kept(streams: &mut Streams, s: &[u8]) {
    if s.iter().any(|b| *b != 0xEE) {
        word(
            streams,
            b", and memory changed behind the page or before it",
        );
    }
}

// What was found, and what now lies in memory from `out` on. Whether the list has ended.
fn found(streams: &mut Streams, p: Page, memory: &[u8], out: usize) -> bool {
    kept(streams, le::front(memory, out));
    match p {
        Page::End => {
            word(streams, b": end");
            kept(streams, memory);
            true
        }
        Page::Short => {
            word(streams, b": no room");
            kept(streams, memory);
            false
        }
        Page::Fault => {
            word(streams, b": not sound");
            kept(streams, memory);
            true
        }
        Page::Bytes(n) => {
            word(streams, b":");
            number(streams, n as u64);
            word(streams, b" bytes ids");
            ids(streams, le::cut(memory, out, n));
            kept(streams, le::tail(le::tail(memory, out), n));
            false
        }
    }
}

fn stands(streams: &mut Streams, c: Cursor) {
    word(streams, b", then from");
    number(streams, c.from.0);
    word(streams, b" to");
    number(streams, c.to.0);
    word(streams, b" limit");
    number(streams, c.limit);
}

// Every record that was looked at is sound; else there is no page to copy.
fn sound(p: Page) -> bool
    ensures { result ≡ true → p ≡ Fault → ⊥ }
{
    !matches!(p, Page::Fault)
}

// The page that is asked for, at the address `out`, of the part that is lent: the cursor for the next one, none where the list has ended.
pub(crate) fn page(streams: &mut Streams, part: Part, q: Query, out: usize) -> Option<Cursor>
    requires { CanWalk q part.bytes.now }
{
    if 1024 < q.cap || 1024 < out {
        return None;
    }
    let mut notes = [0usize; Page::NOTES];
    let p = card::pages::measure(part, q, &mut notes);
    let mut memory = [0xEEu8; 2048];
    let mut after = q.cursor;
    if sound(p) {
        after = card::pages::copy_page(part, q, &mut memory, out);
    }
    let ended = found(streams, p, &memory, out);
    stands(streams, after);
    if ended { None } else { Some(after) }
}
