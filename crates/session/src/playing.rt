// Behind `go`, and a whole line.
ghost use Rattle.std.specs.Prelude.{◌≡◌, ◌≤◌, length};
ghost use Rattle.script.specs.Saying.{Put, said_bad};
ghost use Rattle.session.specs.Sessions.{Answers, became, counted, played, playing, answered, end_in, is_over};
ghost use Rattle.session.specs.declared.Phase.TheVariants.{Over};

use crate::{Buffers, Phase, Session};
use script::Buffer;
use script::forms::Line;
use script::say::say_answer;
use weave::Code;

impl Session {
    // A line of another form.
    fn bad(&mut self, out: &mut Buffer) -> usize
        ensures next_value { self.new ≡ became self.old Over self.old.size self.old.host }
        ensures put { Put out.old out.new 0 (said_bad (counted self.old)) result }
    {
        let number = self.counted();
        self.becomes(Phase::Over, self.size, self.host);
        say_answer(out, b"bad", Code::Fine, number)
    }

    fn played(&mut self, line: &[u8], l: Line, buffers: &mut Buffers, out: &mut Buffer) -> usize
        requires { length line.now ≤ 65535 }
        ensures { Answers (played self.old buffers.old line.now l) self.new buffers.new out.old out.new result }
    {
        match l {
            Line::Begin { units, time } => self.begin(units, time, buffers, out),
            Line::Write => self.write(line, buffers, out),
            Line::Open(w) => self.open(line, w, buffers, out),
            Line::Next { handle, cap } => self.next(handle, cap, buffers, out),
            Line::Return => self.turn_over(line, buffers, out),
            Line::Bad => self.bad(out),
        }
    }

    // A line behind `go`. One that with its byte 10 is longer than a buffer has no form.
    fn playing(&mut self, line: &[u8], buffers: &mut Buffers, out: &mut Buffer) -> usize
        ensures { Answers (playing self.old buffers.old line.now) self.new buffers.new out.old out.new result }
    {
        if Line::LONGEST < line.len() {
            return self.bad(out);
        }
        self.played(line, Line::read(line), buffers, out)
    }

    // A line, without its byte 10: what it says is put at the front of `out`, and how many bytes that are.
    pub fn answer(&mut self, line: &[u8], buffers: &mut Buffers, out: &mut Buffer) -> usize
        ensures { Answers (answered self.old buffers.old line.now) self.new buffers.new out.old out.new result }
    {
        match self.phase {
            Phase::Listing => self.listing(line, buffers, out),
            Phase::Overfull => self.overfull(line, buffers, out),
            Phase::Playing => self.playing(line, buffers, out),
            Phase::Over => 0,
        }
    }

    // The end of the input.
    pub fn end(self, out: &mut Buffer) -> usize
        ensures { Put out.old out.new 0 (end_in self.phase self) result }
    {
        match self.phase {
            Phase::Listing | Phase::Overfull => {
                say_answer(out, b"bad", Code::Fine, self.counted())
            }
            Phase::Playing | Phase::Over => 0,
        }
    }

    // Whether there is nothing more to answer.
    pub fn over(self) -> bool
        ensures { result ≡ is_over self.phase }
    {
        self.phase == Phase::Over
    }
}
