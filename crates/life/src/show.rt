// What has changed in the host's state and in the buffers.
use crate::buffers::{Buffers, ENTRIES};
use crate::words::sum;
use host::Host;
use saying::word;
use streams::Streams;
use weave::{Slot, Weave};

// A number, and its name.
type Named = (&'static [u8], u64);

fn of_host(h: Host) -> [Named; 7] {
    [
        (b"faulted", u64::from(h.faulted)),
        (b"used", h.used as u64),
        (b"next", h.next.0),
        (b"staging length", h.lengths.staging as u64),
        (b"card length", h.lengths.card as u64),
        (b"manifest length", h.lengths.manifest as u64),
        (b"index length", h.index as u64),
    ]
}

// A spoiled weave shows as 6 or 1, as in -6 and -1.
fn of_weave(w: Weave) -> [Named; 11] {
    [
        (b"running", u64::from(w.running)),
        (b"spoiled", w.spoiled.code().number().unsigned_abs()),
        (b"turn", w.turn),
        (b"late", u64::from(w.late)),
        (b"staged", w.staged as u64),
        (b"count", w.count),
        (b"units", w.units),
        (b"most", w.resmax),
        (b"time", w.time.0),
        (b"trace", sum(&w.trace)),
        (b"opened", w.opened),
    ]
}

fn of_slot(s: Slot) -> [Named; 7] {
    let c = s.cursor;
    [
        (b"handle", s.handle),
        (b"size", c.size as u64),
        (b"filter", sum(&c.filter)),
        (b"from", c.from.0),
        (b"to", c.to.0),
        (b"limit", c.limit),
        (b"desc", u64::from(c.desc)),
    ]
}

// Of what is lent.
pub(crate) fn sums(b: &Buffers) -> [Named; 4] {
    let n = b.lent;
    [
        (b"memory sum", sum(le::front(&b.memory, n.memory))),
        (b"staging sum", sum(le::front(&b.staging, n.staging))),
        (b"card sum", sum(le::front(&b.card, n.card))),
        (b"index sum", sum(&b.index[..n.index.min(ENTRIES)])),
    ]
}

// Each number that has changed, behind its name.
pub(crate) fn changed(streams: &mut Streams, was: &[Named], is: &[Named]) {
    for ((name, a), (_, b)) in was.iter().zip(is) {
        if a != b {
            word(streams, b"  ");
            word(streams, name);
            saying::number(streams, *b);
        }
    }
}

pub(crate) fn state(streams: &mut Streams, was: Host, is: Host) {
    changed(streams, &of_host(was), &of_host(is));
    changed(streams, &of_weave(was.weave), &of_weave(is.weave));
    for (a, b) in was.weave.slots.iter().zip(&is.weave.slots) {
        changed(streams, &of_slot(*a), &of_slot(*b));
    }
}
