// The cases at the edges of `le` and `text` that are run and compared: outside vectors, and those of documents 01 and 02. Each line of the input is a case: it is
// written again, a blank for each tab, with what it gives. Bytes stand in base 16.
#![tactic(auto)]

mod numbers;
mod texts;

use std::io;
use streams::Streams;

// A case begins with a word of its own, or with a topic.
fn case(streams: &mut Streams, l: &[u8]) {
    saying::echo(streams, l);
    texts::case(streams, l);
}

fn main(rt: HostRuntime) -> io::Result<()> {
    cases::run(Streams::of(rt.stdin(), rt.stdout()), &mut [0; 65536], case)
}
