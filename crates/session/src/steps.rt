// Before the first line, and the next session.
ghost use Rattle.std.specs.Prelude.{◌≡◌};
ghost use Rattle.session.specs.Sessions.{counted, became, fresh_session, no_bytes};

use crate::{Buffers, Phase, Session};
use host::Host;

impl Buffers {
    // Every byte is 0.
    pub fn fresh() -> Buffers
        ensures { result ≡ no_bytes }
    {
        Buffers {
            memory: [0; 65536],
            staging: [0; 65536],
            card: [0; 65536],
            text: [0; 65536],
            index: [0; 481],
        }
    }
}

impl Session {
    // Before the first line.
    pub fn fresh() -> Session
        ensures { result ≡ fresh_session }
    {
        Session {
            phase: Phase::Listing,
            lines: 0,
            size: 0,
            host: Host::none(),
        }
    }

    // The number of the line that is being answered.
    pub(crate) fn counted(self) -> u64
        ensures { result ≡ counted self }
    {
        self.lines.saturating_add(1)
    }

    pub(crate) fn becomes(&mut self, phase: Phase, size: usize, host: Host)
        ensures { self.new ≡ became self.old phase size host }
    {
        *self = Session {
            phase,
            lines: self.counted(),
            size,
            host,
        };
    }
}
