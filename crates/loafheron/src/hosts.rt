// The whole state, both ways.
ghost use Rattle.std.specs.Prelude.{◌≡◌};
ghost use Rattle.loafheron.specs.Crossing.{state_of, weave_said, host_said};

use crate::State;
use crate::crossing::{flag_said, mark_of, mark_said, rooms_of, slots_said};
use host::Host;
use record::{EventId, VirtualTime};
use weave::{Lengths, Weave};

pub(crate) fn state_of(h: Host) -> State
    ensures { result ≡ state_of h }
{
    let w = h.weave;
    let n = h.lengths;
    let faulted = u64::from(h.faulted);
    let running = u64::from(w.running);
    let mark = w.spoiled;
    let spoiled = mark_of(mark);
    let late = u64::from(w.late);
    let slots = w.slots;
    let rooms = rooms_of(slots);
    let trace = w.trace;
    State {
        staginglen: n.staging as u64,
        cardlen: n.card as u64,
        manifestlen: n.manifest as u64,
        indexlen: h.index as u64,
        used: h.used as u64,
        next: h.next.0,
        faulted,
        running,
        spoiled,
        turn: w.turn,
        late,
        staged: w.staged as u64,
        count: w.count,
        units: w.units,
        resmax: w.resmax,
        time: w.time.0,
        opened: w.opened,
        trace,
        rooms,
    }
}

fn weave_said(s: State) -> Weave
    ensures { result ≡ weave_said s }
{
    let running = flag_said(s.running);
    let spoiled = mark_said(s.spoiled);
    let late = flag_said(s.late);
    let rooms = s.rooms;
    let slots = slots_said(rooms);
    let trace = s.trace;
    Weave {
        running,
        spoiled,
        turn: s.turn,
        late,
        staged: s.staged as usize,
        count: s.count,
        units: s.units,
        resmax: s.resmax,
        time: VirtualTime(s.time),
        trace,
        opened: s.opened,
        slots,
    }
}

pub(crate) fn host_said(s: State) -> Host
    ensures { result ≡ host_said s }
{
    let weave = weave_said(s);
    let faulted = flag_said(s.faulted);
    let lengths = Lengths {
        staging: s.staginglen as usize,
        card: s.cardlen as usize,
        manifest: s.manifestlen as usize,
    };
    Host {
        lengths,
        index: s.indexlen as usize,
        used: s.used as usize,
        next: EventId(s.next),
        faulted,
        weave,
    }
}
