// A line, gathered from the pieces in which the input is read.
ghost use Rattle.std.specs.Prelude.{◌≡◌};
ghost use Rattle.le.specs.Splice.{splice};
ghost use Rattle.script.specs.Gathering.{more, held_with, gathered};

use crate::Buffer;
use text::lines::find;

#[derive(Drop)]
pub struct Gathered {
    pub at: usize, // of the piece: where the next line begins
    pub held: usize, // of this line
    pub whole: bool, // byte 10 was met
}

fn held_with(held: usize, n: usize) -> usize
    ensures { result ≡ held_with held n }
{
    if n <= 65536_usize.saturating_sub(held) {
        held + n
    } else {
        65536
    }
}

// More of the line of which `held` bytes stand in `line`: from `at` on of the piece, up to its end or the line's.
// (`at` stays beside the piece: the contract holds for each place in it, and behind its end too.)
pub fn gather(piece: &[u8], at: usize, line: &mut Buffer, held: usize) -> Gathered
    ensures value { result ≡ gathered piece.now at held }
    ensures line_after { line.new ≡ splice line.old held (more piece.now at) }
{
    if piece.len() <= at {
        return Gathered {
            at,
            held,
            whole: false,
        };
    }
    let end = find(piece, at, b'\n');
    le::lay(le::cut(piece, at, end - at), line, held);
    let held = held_with(held, end - at);
    if end < piece.len() {
        return Gathered {
            at: end + 1,
            held,
            whole: true,
        };
    }
    Gathered {
        at: end,
        held,
        whole: false,
    }
}
