// Up to `go`: the manifest, and the mount.
ghost use Rattle.std.specs.Prelude.{◌≡◌};
ghost use Rattle.script.specs.Saying.{Put, said_mount};
ghost use Rattle.session.specs.Sessions.{Answers, became, mount_answer, with_index, lent_of, manifest_line, refused_mount, listing};
ghost use Rattle.session.specs.declared.Phase.TheVariants.{Over};
ghost use Rattle.mounts.specs.Mount.{mounted, mount_index};

use crate::{Buffers, Phase, Session};
use mounts::mount::mount;
use script::Buffer;
use script::forms::Line;
use script::say::say_answer;
use text::compare::same;
use weave::Code;
use weave::sums::within;

impl Session {
    fn refused(&mut self, code: Code, out: &mut Buffer) -> usize
        ensures next_value { self.new ≡ became self.old Over self.old.size self.old.host }
        ensures put { Put out.old out.new 0 (said_mount code) result }
    {
        self.becomes(Phase::Over, self.size, self.host);
        say_answer(out, b"mount", code, 0)
    }

    fn mount(&mut self, buffers: &mut Buffers, out: &mut Buffer) -> usize
        ensures { Answers (mount_answer self.old (with_index buffers.old (mount_index (lent_of self.old buffers.old) buffers.old.index 0)) (mounted (lent_of self.old buffers.old) buffers.old.index 0)) self.new buffers.new out.old out.new result }
    {
        let text = le::front(&buffers.text, self.size);
        let m = mount(&buffers.staging, &buffers.card, text, &mut buffers.index, 0);
        if m.code.fine() {
            self.becomes(Phase::Playing, self.size, m.host);
            return 0;
        }
        self.refused(m.code, out)
    }

    // One more line of the manifest.
    fn manifest_line(&mut self, line: &[u8], buffers: &mut Buffers, out: &mut Buffer) -> usize
        ensures { Answers (manifest_line self.old buffers.old line.now) self.new buffers.new out.old out.new result }
    {
        let size = self.size;
        let n = line.len();
        if within(size as u64, n as u64, Line::LONGEST as u64) {
            le::copy_at(line, &mut buffers.text, size);
            buffers.text[size + n] = b'\n';
            self.becomes(Phase::Listing, size + n + 1, self.host);
        } else {
            self.becomes(Phase::Overfull, size, self.host);
        }
        0
    }

    pub(crate) fn listing(&mut self, line: &[u8], buffers: &mut Buffers, out: &mut Buffer) -> usize
        ensures { Answers (listing self.old buffers.old line.now) self.new buffers.new out.old out.new result }
    {
        if same(line, b"go") {
            return self.mount(buffers, out);
        }
        self.manifest_line(line, buffers, out)
    }

    // A manifest that is too long.
    pub(crate) fn overfull(&mut self, line: &[u8], buffers: &mut Buffers, out: &mut Buffer) -> usize
        ensures { Answers (refused_mount self.old buffers.old line.now) self.new buffers.new out.old out.new result }
    {
        if same(line, b"go") {
            return self.refused(Code::Bad, out);
        }
        self.becomes(Phase::Overfull, self.size, self.host);
        0
    }
}
