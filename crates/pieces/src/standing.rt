// Standard input.
ghost use Rattle.std.specs.Prelude.{◌≡◌};
ghost use Rattle.pieces.specs.Feeding.{stand_of, fresh_stand, Read, ReadAll};

use crate::Play;
use script::Buffer;
use session::{Buffers, Session};
use streams::Streams;

impl Play {
    fn fresh(many: bool) -> Play
        ensures { stand_of result ≡ fresh_stand many }
    {
        Play {
            session: Session::fresh(),
            buffers: Buffers::fresh(),
            many,
            named: false,
            line: [0; 65536],
            held: 0,
        }
    }

    // The next piece, as many bytes as there are by now: at a keyboard a line is answered when it is typed. Whether there is no more to read.
    fn more(&mut self, streams: &mut Streams, out: &mut Buffer) -> bool
        ensures { Read (stand_of self.old) (stand_of self.new) result }
    {
        let mut input = [0u8; 65536];
        let n = streams.read(&mut input);
        let piece = le::front(&input, n);
        self.feed(streams, piece, out);
        (piece.len() == 0) | (!self.many & self.session.over())
    }

    fn through(&mut self, streams: &mut Streams, out: &mut Buffer)
        ensures { ReadAll (stand_of self.old) (stand_of self.new) }
    {
        // No input has so many pieces.
        for _ in 0..u64::MAX {
            if self.more(streams, out) {
                break;
            }
        }
    }
}

// All of standard input: one session, or many under their names.
pub fn all(streams: &mut Streams, many: bool) {
    let mut out = [0u8; 65536];
    let mut play = Play::fresh(many);
    play.through(streams, &mut out);
    play.end(streams, &mut out);
}
