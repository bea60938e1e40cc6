// What a module's return leads to: document 01's number for each case, and its values.
ghost use Rattle.std.specs.Prelude.{◌≡◌};
ghost use Rattle.host.specs.Fates.{fate_number, fate_events, fate_bytes, ends};

use crate::Fate;

impl Fate {
    // Below 0 for a refusal and for a discard.
    pub fn number(self) -> i64
        ensures { result ≡ fate_number self }
    {
        match self {
            Fate::Refused(c) | Fate::Discarded(c) => c.number(),
            Fate::Running | Fate::Committed { .. } => 0,
        }
    }

    // How many events it puts onto the card.
    pub fn events(self) -> u64
        ensures { result ≡ fate_events self }
    {
        match self {
            Fate::Committed { events, .. } => events,
            _ => 0,
        }
    }

    // How many bytes it puts there.
    pub fn bytes(self) -> usize
        ensures { result ≡ fate_bytes self }
    {
        match self {
            Fate::Committed { bytes, .. } => bytes,
            _ => 0,
        }
    }

    // Whether the weave is over.
    pub fn ends(self) -> bool
        ensures { result ≡ ends self }
    {
        matches!(self, Fate::Discarded(_) | Fate::Committed { .. })
    }
}
