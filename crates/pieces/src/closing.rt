// A line that is whole: a session's, or the name of the next one.
ghost use Rattle.std.specs.Prelude.{◌≡◌, true, [], ◌∷◌, ◌++◌, ◌≤◌, length, take};
ghost use Rattle.script.specs.Saying.{Put};
ghost use Rattle.session.specs.Sessions.{fresh_session};
ghost use Rattle.pieces.specs.Feeding.{stand_of, Hears, is_name, end_said, closed};

use crate::Play;
use script::Buffer;
use script::say::Printer;
use session::Session;
use text::compare::starts_with;

fn is_name(many: bool, line: &[u8]) -> bool
    ensures { result ≡ is_name many line.now }
{
    many & (line.len() <= 1024) & starts_with(line, b"== ")
}

impl Play {
    // The end of a session.
    pub(crate) fn finish(&self, out: &mut Buffer) -> usize
        ensures put { Put out.old out.new 0 (end_said self.now.many self.now.named self.now.session) result }
        ensures upper_bound { result ≤ 32 }
    {
        if self.many & !self.named {
            return 0;
        }
        self.session.end(out)
    }

    // A name: the session before it ends here.
    fn title(&mut self, out: &mut Buffer) -> usize
        requires { length (take self.old.held self.old.line) ≤ 1024 }
        ensures play_value { self.new ≡ record self.old { session = fresh_session; named = true; held = 0 } }
        ensures put { Put out.old out.new 0 (end_said self.old.many self.old.named self.old.session ++ (take self.old.held self.old.line ++ (10 ∷ []))) result }
    {
        let at = self.finish(out);
        let mut p = Printer { out, at };
        p.bytes(le::front(&self.line, self.held));
        p.byte(b'\n');
        self.session = Session::fresh();
        self.named = true;
        self.held = 0;
        p.at
    }

    // The line that is held is whole: what it says is put at the front of `out`.
    pub(crate) fn closed(&mut self, out: &mut Buffer) -> usize
        ensures hears { Hears (closed (stand_of self.old)) (stand_of self.new) out.old out.new result }
        ensures line { self.new.line ≡ self.old.line }
    {
        let line = le::front(&self.line, self.held);
        if is_name(self.many, line) {
            return self.title(out);
        }
        self.held = 0;
        self.session.answer(line, &mut self.buffers, out)
    }
}
