// The rehearsal: standard input to standard output.
#![tactic(auto)]

use pieces::standing::all;
use std::io;
use streams::Streams;

fn main(rt: HostRuntime) -> io::Result<()> {
    let mut streams = Streams::of(rt.stdin(), rt.stdout());
    all(&mut streams, false);
    streams.outcome()
}
