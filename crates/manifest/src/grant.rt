// One grant, by the place of its topic in the text.
ghost use Rattle.std.specs.Prelude.{◌≡◌, ◌≤◌, ◌<◌, length};
ghost use Rattle.manifest.specs.Rights.{gives};
ghost use Rattle.manifest.specs.Places.{no_grants, grant_at, right_at};

use crate::reading::holder_in;
use le::cut;
use text::compare::same;
use text::limits::Limits;
use text::lines::{behind, field};

// Module `holder` may write (`out`), or read and list (not `out`), the topic of `len` bytes that stands at `start` of the text. Eight bytes with no gap
// between them: all 64 are cleared and handed on in every call, and a gap takes that apart into hundreds of stores.
#[derive(Clone, Copy)]
pub struct Grant {
    pub start: u32,
    pub len: u16,
    pub holder: u8,
    pub out: bool,
}

impl Grant {
    // Room for 64 grants, none of it taken.
    pub(crate) fn none() -> [Grant; Limits::GRANTS]
        ensures { result ≡ no_grants }
    {
        let free = Grant {
            start: 0,
            len: 0,
            holder: 0,
            out: false,
        };
        [free; Limits::GRANTS]
    }

    // The grant of a line that ends at `end` of the text; its holder is 0 where the line is no grant. Line one stands before it.
    pub(crate) fn at(line: &[u8], end: usize, modules: u64) -> Grant
        requires line_len_bound { (length line.now < end) × (end ≤ 65536) }
        requires modules_bound { modules ≤ 16 }
        ensures { result ≡ grant_at modules end line.now }
    {
        // Each tab is looked for behind the one before it.
        let one = behind(line, 1);
        let two = behind(one, 1);
        let topic = behind(two, 1);
        let way = field(two, 0);
        let holder = holder_in(line, field(one, 0), way, topic, modules);
        let out = same(way, b"out");
        // A grant's topic is all that stands behind the third tab: nobody looks for a fourth.
        let len = if holder == 0 {
            field(topic, 0).len()
        } else {
            topic.len()
        };
        Grant {
            start: (end - len) as u32,
            len: len as u16,
            holder: holder as u8,
            out,
        }
    }

    // Whether this is the grant asked for: the module, the direction, and the topic byte for byte. Most questions end at the first two, which are cheap.
    pub(crate) fn gives(self, text: &[u8], holder: u64, out: bool, topic: &[u8]) -> bool
        ensures { result ≡ gives (right_at text.now self) holder out topic.now }
    {
        if self.holder as u64 != holder {
            return false;
        }
        if self.out != out {
            return false;
        }
        let start = self.start as usize;
        let len = self.len as usize;
        same(cut(text, start, len), topic)
    }
}
