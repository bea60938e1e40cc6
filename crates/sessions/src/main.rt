// Many sessions, one behind the other. A line that begins with `== ` names the next one; it is printed, and what the session says under it.
#![tactic(auto)]

use pieces::standing::all;
use std::io;
use streams::Streams;

fn main(rt: HostRuntime) -> io::Result<()> {
    let mut streams = Streams::of(rt.stdin(), rt.stdout());
    all(&mut streams, true);
    streams.outcome()
}
