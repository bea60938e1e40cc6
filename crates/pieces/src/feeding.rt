// A piece of input, line by line, and the end of the input.
ghost use Rattle.std.specs.Prelude.{◌≡◌};
ghost use Rattle.script.specs.Gathering.{gathered};
ghost use Rattle.pieces.specs.Feeding.{stand_of, Hears, one_line, fed, last_line, ended};

use crate::{Play, Step};
use script::Buffer;
use script::gather::gather;
use streams::Streams;

// What one line printed. No contract can say what reaches standard output: this hand-over is only tested.
fn tell(streams: &mut Streams, out: &Buffer, n: usize) {
    streams.write(le::front(out, n));
}

impl Play {
    // The line at the head of a piece, or what there is of it. What it says is put at the front of `out`.
    pub fn step(&mut self, piece: &[u8], out: &mut Buffer) -> Step
        ensures hears { Hears (one_line (stand_of self.old) piece.now) (stand_of self.new) out.old out.new result.wrote }
        ensures took { result.took ≡ (gathered piece.now 0 0).at }
    {
        let held = le::front(&self.line, self.held).len();
        let g = gather(piece, 0, &mut self.line, held);
        self.held = g.held;
        let wrote = if g.whole { self.closed(out) } else { 0 };
        Step { wrote, took: g.at }
    }

    // One piece.
    pub fn feed(&mut self, streams: &mut Streams, piece: &[u8], out: &mut Buffer)
        ensures { stand_of self.new ≡ (fed (stand_of self.old) piece.now).stand }
    {
        let mut rest = piece;
        // (How much of a piece a line takes only `step` knows.)
        while !rest.is_empty() {
            let s = self.step(rest, out);
            tell(streams, out, s.wrote);
            rest = le::tail(rest, s.took);
        }
    }

    // The last line of the input may lack byte 10.
    fn last(&mut self, streams: &mut Streams, out: &mut Buffer)
        ensures stand { stand_of self.new ≡ (last_line (stand_of self.old)).stand }
        ensures line { self.new.line ≡ self.old.line }
    {
        if le::front(&self.line, self.held).len() < 1 {
            return;
        }
        let n = self.closed(out);
        tell(streams, out, n);
    }

    // The end of the input.
    pub fn end(&mut self, streams: &mut Streams, out: &mut Buffer)
        ensures stand { stand_of self.new ≡ (ended (stand_of self.old)).stand }
        ensures line { self.new.line ≡ self.old.line }
    {
        self.last(streams, out);
        let n = self.finish(out);
        tell(streams, out, n);
    }
}
