// What a return prints.
ghost use Rattle.std.specs.Prelude.{◌≡◌};
ghost use Rattle.script.specs.Saying.{Put};
ghost use Rattle.session.specs.Fates.{said_fate};

use host::Fate;
use script::Buffer;
use script::say::Printer;

pub(crate) fn say_fate(out: &mut Buffer, f: Fate) -> usize
    ensures { Put out.old out.new 0 (said_fate f) result }
{
    let mut p = Printer { out, at: 0 };
    match f {
        Fate::Refused(c) => {
            p.bytes(b"return");
            p.answer(c, 0);
        }
        Fate::Discarded(c) => {
            p.bytes(b"return\tdiscarded");
            p.answer(c, 0);
        }
        Fate::Running => p.bytes(b"return\trunning"),
        Fate::Committed { events, bytes } => {
            p.bytes(b"return\tcommitted");
            p.numeral(events);
            p.numeral(bytes as u64);
        }
    }
    p.byte(b'\n');
    p.at
}
