// Look-up by number, of a whole card and of a damaged one: by the table of the card as it was before.
use crate::chains;
use crate::tables::table_of;
use cases::size;
use record::EventId;
use saying::{number, word};
use streams::Streams;

// The record that the table has for a number.
fn by_table<'a>(s: &'a [u8], table: &[u32], id: u64) -> &'a [u8] {
    let p = card::spots::spot_by(s, table, EventId(1), EventId(id));
    le::cut(s, p.at, p.len)
}

// The staged record with a number.
fn by_walk<'a>(s: &'a [u8], first: u64, id: u64) -> &'a [u8] {
    match card::walk::find(s, EventId(first), EventId(id)) {
        Some(at) => le::cut(s, at, le::get::<u32>(s, at) as usize),
        None => le::front(s, 0),
    }
}

// look used staged next id: of so many bytes of the card and so many staged, and what is said to be the next number on the card.
pub(crate) fn look(streams: &mut Streams, l: &[u8], card: &[u8]) {
    let table = table_of(le::front(card, 992), 1);
    let next = cases::number(l, 3);
    let id = cases::number(l, 4);
    let r = if id < next {
        by_table(le::front(card, size(l, 1)), &table, id)
    } else {
        by_walk(le::cut(card, 992, size(l, 2)), next, id)
    };
    found(streams, r);
}

// The record's length and its own number, or that there is none.
fn found(streams: &mut Streams, r: &[u8]) {
    if r.len() < 128 {
        word(streams, b": none");
        return;
    }
    word(streams, b":");
    number(streams, r.len() as u64);
    word(streams, b" bytes, number");
    number(streams, le::get::<u64>(r, 8));
}

fn damaged(streams: &mut Streams, s: &[u8], table: &[u32]) {
    chains::chain(streams, s, 1, 7);
    word(streams, b":");
    for id in 1..7 {
        number(streams, by_table(s, table, id).len() as u64);
    }
    word(streams, b"\n");
}

// set at b: the byte at `at` of the card becomes b, and is then what it was. The chain, whether it goes up to 7, and the length of each record that
// look-up still gives, 0 where it gives none.
pub(crate) fn set(streams: &mut Streams, l: &[u8], card: &mut [u8]) {
    let at = size(l, 1);
    word(streams, l);
    if card.len() <= at {
        return;
    }
    let table = table_of(le::front(card, 992), 1);
    let was = card[at];
    card[at] = (cases::number(l, 2) & 0xFF) as u8;
    damaged(streams, le::front(card, 992), &table);
    card[at] = was;
}
