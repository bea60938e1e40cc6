// The head of a manifest: line one, and behind it lines that may be left out.
ghost use Rattle.std.specs.Prelude.{◌≡◌, ◌≤◌, length};
ghost use Rattle.text.specs.Lines.{line_at};
ghost use Rattle.manifest.specs.Places.{passed};

use crate::charge::Charge;
use text::lines::line;

// What it says.
#[derive(Clone, Copy)]
pub struct Head {
    pub modules: u64,
    pub charge: Charge,
}

// Where the lines go on behind one that may be left out and would start at `at`. The line there has said 0 where it is another, which is then still to be read.
pub(crate) fn passed(said: u64, text: &[u8], at: usize) -> usize
    requires { (length text.now ≤ 65536) × (at ≤ 65537) }
    ensures { result ≡ passed said at (length (line_at at text.now)) }
{
    if said == 0 {
        return at;
    }
    at + line(text, at).len() + 1
}
