// The calls: what is lent to the host for a line, and what is printed of its answer.
ghost use Rattle.std.specs.Prelude.{◌≡◌, ◌≤◌, length};
ghost use Rattle.host.specs.Ending.{return_index};
ghost use Rattle.text.specs.Lines.{field};
ghost use Rattle.script.specs.Forms.{code_of};
ghost use Rattle.script.specs.Laying.{write_laid, open_laid, next_laid};
ghost use Rattle.script.specs.Saying.{Put, said_answer};
ghost use Rattle.session.specs.Calls.{begin_after, write_after, open_after, next_after, return_after};
ghost use Rattle.session.specs.Sessions.{Answers, became, called, lent_of};
ghost use Rattle.session.specs.declared.Phase.TheVariants.{Playing};

use crate::fates::say_fate;
use crate::{Buffers, Phase, Session};
use host::Answer;
use record::VirtualTime;
use script::Buffer;
use script::forms::{Window, code_of};
use script::laying::{begin_args, lay_next, lay_open, lay_write};
use script::say::{Printer, say_answer};
use text::lines::field;

impl Session {
    // It goes on as the call left the host, and says what the call was answered with.
    fn go_on(&mut self, word: &[u8], a: Answer, out: &mut Buffer) -> usize
        requires { length word.now ≤ 9 }
        ensures next_value { self.new ≡ became self.old Playing self.old.size a.host }
        ensures put { Put out.old out.new 0 (said_answer word.now a.code a.value) result }
        ensures upper_bound { result ≤ 32 }
    {
        self.becomes(Phase::Playing, self.size, a.host);
        say_answer(out, word, a.code, a.value)
    }

    pub(crate) fn begin(
        &mut self,
        units: u64,
        time: VirtualTime,
        buffers: &mut Buffers,
        out: &mut Buffer,
    ) -> usize
        ensures { Answers (called self.old buffers.old (begin_after (lent_of self.old buffers.old) self.old.host buffers.old.memory units time.0) buffers.old.index) self.new buffers.new out.old out.new result }
    {
        let args = begin_args(units, time);
        let text = le::front(&buffers.text, self.size);
        let a = self
            .host
            .begin(&mut buffers.staging, &buffers.card, text, &args);
        self.go_on(b"begin", a, out)
    }

    pub(crate) fn write(&mut self, line: &[u8], buffers: &mut Buffers, out: &mut Buffer) -> usize
        requires { length line.now ≤ 65535 }
        ensures { Answers (called self.old buffers.old (write_after (lent_of self.old buffers.old) self.old.host (write_laid buffers.old.memory (field 1 line.now) (field 2 line.now))) buffers.old.index) self.new buffers.new out.old out.new result }
    {
        lay_write(&mut buffers.memory, field(line, 1), field(line, 2));
        let text = le::front(&buffers.text, self.size);
        let a = writes::write::write(
            self.host,
            &buffers.memory,
            &mut buffers.staging,
            &buffers.card,
            text,
            8,
        );
        self.go_on(b"write", a, out)
    }

    pub(crate) fn open(
        &mut self,
        line: &[u8],
        w: Window,
        buffers: &mut Buffers,
        out: &mut Buffer,
    ) -> usize
        ensures { Answers (called self.old buffers.old (open_after (lent_of self.old buffers.old) self.old.host (open_laid buffers.old.memory (field 1 line.now) w)) buffers.old.index) self.new buffers.new out.old out.new result }
    {
        lay_open(&mut buffers.memory, field(line, 1), w);
        let text = le::front(&buffers.text, self.size);
        let a = self
            .host
            .open(&buffers.memory, &buffers.staging, &buffers.card, text, 8);
        self.go_on(b"open", a, out)
    }

    pub(crate) fn next(
        &mut self,
        handle: u64,
        cap: u64,
        buffers: &mut Buffers,
        out: &mut Buffer,
    ) -> usize
        ensures { Answers (called self.old buffers.old (next_after (lent_of self.old buffers.old) buffers.old.index self.old.host (next_laid buffers.old.memory handle cap)) buffers.old.index) self.new buffers.new out.old out.new result }
    {
        lay_next(&mut buffers.memory, handle, cap);
        let text = le::front(&buffers.text, self.size);
        let a = reads::next::next(
            self.host,
            &mut buffers.memory,
            &buffers.staging,
            &buffers.card,
            text,
            &buffers.index,
            8,
        );
        let page = le::cut(&buffers.memory, 8, a.value as usize);
        let at = self.go_on(b"next", a, out);
        let mut p = Printer { out, at };
        p.events(page);
        p.at
    }

    pub(crate) fn turn_over(
        &mut self,
        line: &[u8],
        buffers: &mut Buffers,
        out: &mut Buffer,
    ) -> usize
        ensures { Answers (called self.old buffers.old (return_after (lent_of self.old buffers.old) buffers.old.index self.old.host buffers.old.memory (code_of (field 1 line.now))) (return_index (lent_of self.old buffers.old) buffers.old.index self.old.host (code_of (field 1 line.now)))) self.new buffers.new out.old out.new result }
    {
        let code = code_of(field(line, 1));
        let text = le::front(&buffers.text, self.size);
        let a = self.host.module_return(
            &mut buffers.staging,
            &mut buffers.card,
            text,
            &mut buffers.index,
            code,
        );
        self.becomes(Phase::Playing, self.size, a.host);
        say_fate(out, a.fate)
    }
}
