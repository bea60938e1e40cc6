// How the state crosses: each field as a number.
ghost use Rattle.std.specs.Prelude.{◌≡◌};
ghost use Rattle.loafheron.specs.Crossing.{flag_said, mark_of, mark_said, room_of, slot_said, rooms_of, slots_said};

use crate::Room;
use card::Cursor;
use record::EventId;
use weave::{Code, Mark, Slot, Spoiled};

pub(crate) fn flag_said(n: u64) -> bool
    ensures { result ≡ flag_said n }
{
    n != 0
}

// The reason by its number, 0 where there is none.
pub(crate) fn mark_of(m: Mark) -> i64
    ensures { result ≡ mark_of m }
{
    let c = m.code();
    c.number()
}

// (A number that is no reason is taken as a panic: nothing more is accepted.)
pub(crate) fn mark_said(n: i64) -> Mark
    ensures { result ≡ mark_said n }
{
    if n == 0 {
        return Mark(Spoiled::Not);
    }
    if n == Code::BUDGET {
        return Mark(Spoiled::Overspent);
    }
    Mark(Spoiled::Panicked)
}

fn room_of(s: Slot) -> Room
    ensures { result ≡ room_of s }
{
    let c = s.cursor;
    let desc = u64::from(c.desc);
    let filter = c.filter;
    Room {
        handle: s.handle,
        from: c.from.0,
        to: c.to.0,
        limit: c.limit,
        desc,
        size: c.size as u64,
        filter,
    }
}

fn slot_said(r: Room) -> Slot
    ensures { result ≡ slot_said r }
{
    let desc = flag_said(r.desc);
    let filter = r.filter;
    let cursor = Cursor {
        filter,
        size: r.size as usize,
        from: EventId(r.from),
        to: EventId(r.to),
        limit: r.limit,
        desc,
    };
    Slot {
        handle: r.handle,
        cursor,
    }
}

pub(crate) fn rooms_of(s: [Slot; Cursor::OPEN]) -> [Room; Cursor::OPEN]
    ensures { result ≡ rooms_of s }
{
    s.map(room_of)
}

pub(crate) fn slots_said(r: [Room; Cursor::OPEN]) -> [Slot; Cursor::OPEN]
    ensures { result ≡ slots_said r }
{
    r.map(slot_said)
}
