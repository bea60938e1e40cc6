// Fields of the state, set by hand.
use cases::number;
use host::Host;
use record::EventId;
use text::lines::field;
use weave::Spoiled;

fn spoiled_by(n: u64) -> Spoiled {
    match n {
        6 => Spoiled::Overspent,
        1 => Spoiled::Panicked,
        _ => Spoiled::Not,
    }
}

// state field number
pub(crate) fn set(was: Host, l: &[u8]) -> Host {
    let mut h = was;
    let n = number(l, 2);
    match field(l, 1) {
        b"staging length" => h.lengths.staging = n as usize,
        b"card length" => h.lengths.card = n as usize,
        b"manifest length" => h.lengths.manifest = n as usize,
        b"index length" => h.index = n as usize,
        b"faulted" => h.faulted = n == 1,
        b"used" => h.used = n as usize,
        b"next" => h.next = EventId(n),
        b"running" => h.weave.running = n == 1,
        b"spoiled" => h.weave = h.weave.spoilt(spoiled_by(n)),
        b"turn" => h.weave.turn = n,
        b"late" => h.weave.late = n == 1,
        b"staged" => h.weave.staged = n as usize,
        b"count" => h.weave.count = n,
        b"units" => h.weave.units = n,
        b"most" => h.weave.resmax = n,
        _ => h.weave.opened = n,
    }
    h
}
