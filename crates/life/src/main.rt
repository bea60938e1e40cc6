// Whole lives of a box, call by call. Each line of the input is a step: it is written again, with what the host answers and all that changed.
// `stdout` was made from documents 01 and 02 by other means than this program.
#![tactic(auto)]

mod buffers;
mod calls;
mod lay;
mod life;
mod pages;
mod say;
mod show;
mod state;
mod words;

ghost use Rattle.std.specs.Prelude.{◌≡◌, length};

use buffers::{Buffers, CARD, ENTRIES, LARGE, Lengths};
use host::Host;
use std::io;
use streams::Streams;

// (With its length: so many zeros are too many to count in a proof.)
fn large() -> [u8; LARGE]
    ensures { LARGE ≡ length result }
{
    [0; LARGE]
}

fn main(rt: HostRuntime) -> io::Result<()> {
    let mut host = Host::none();
    let mut buffers = Buffers {
        memory: [0; LARGE],
        staging: [0; LARGE],
        card: [0; CARD],
        manifest: [0; CARD],
        index: [0; ENTRIES],
        lent: Lengths::default(),
    };
    let mut text = large();
    cases::run(
        Streams::of(rt.stdin(), rt.stdout()),
        &mut text,
        |streams, l| host = life::step(streams, host, l, &mut buffers),
    )
}
