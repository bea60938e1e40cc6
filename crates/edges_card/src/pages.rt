// What cursors and reads list, page by page.
use crate::show;
use crate::tables::table_of;
use card::{Cursor, Numbers, Part, Query, Way};
use manifest::Manifest;
use record::EventId;
use streams::Streams;
use text::lines::field;

// The cursor that tl_open makes of its arguments: filter, from, to, limit, desc. (A filter above 64 bytes it has refused.)
fn cursor(l: &[u8]) -> Cursor {
    let mut filter = [0u8; 64];
    let f = field(l, 4);
    if f.len() <= 64 {
        le::copy_at(f, &mut filter, 0);
    }
    Cursor {
        filter,
        size: f.len(),
        from: EventId(cases::number(l, 5)),
        to: EventId(cases::number(l, 6)),
        limit: cases::number(l, 7),
        desc: cases::number(l, 8) == 1,
    }
}

// Of the first n bytes of the card, by the table of the whole of it; it is said to have the numbers below `next`. For a module: 1 may list one topic, 2
// none, 3 all four.
fn one(streams: &mut Streams, l: &[u8], card: &[u8], c: Cursor) -> Option<Cursor> {
    let text =
        b"modules\t3\ngrant\t1\tin\tloop/take\ngrant\t2\tout\tloop/take\ngrant\t3\tin\tloop/take\ngrant\t3\tin\ta\ngrant\t3\tin\tloop/mix\ngrant\t3\tin\tloop/take/2\n";
    let table = table_of(le::front(card, 992), 1);
    let first = EventId(1);
    let grants = Manifest::read(text);
    let mut room = [0usize; Manifest::PLACES];
    let many = grants.held(cases::number(l, 3), &mut room);
    let part = Part {
        bytes: le::front(card, cases::size(l, 1)),
        table: &table,
        text,
        places: le::front(&room, many),
    };
    let q = Query {
        way: Way::Indexed,
        first,
        numbers: c.window(first, EventId(cases::number(l, 2))),
        cursor: c,
        cap: cases::size(l, 9),
    };
    show::page(streams, part, q, cases::size(l, 10))
}

// page n next module filter from to limit desc cap out
pub(crate) fn page(streams: &mut Streams, l: &[u8], card: &[u8]) {
    one(streams, l, card, cursor(l));
}

// The same, page after page until the list has ended, 8 at most.
pub(crate) fn pages(streams: &mut Streams, l: &[u8], card: &[u8]) {
    let mut at = cursor(l);
    for _ in 0..8 {
        let Some(next) = one(streams, l, card, at) else {
            return;
        };
        at = next;
    }
}

// read topic start cap out: of the staged records, which have no table.
pub(crate) fn read(streams: &mut Streams, l: &[u8], card: &[u8]) {
    let s = le::cut(card, 992, 296);
    let from = EventId(7);
    let to = EventId(9);
    if card::walk::chain_to(s, from, to) {
        let topic = field(l, 1);
        let place = [0, topic.len()];
        let q = Query {
            way: Way::Walked,
            first: from,
            numbers: Numbers { from, to },
            cursor: Cursor::reading(EventId(cases::number(l, 2))),
            cap: cases::size(l, 3),
        };
        let part = Part {
            bytes: s,
            table: &[0; 1],
            text: topic,
            places: &place,
        };
        show::page(streams, part, q, cases::size(l, 4));
    }
}
