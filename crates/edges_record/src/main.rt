// Records at their edges: good ones as they are written, each rule of soundness broken one at a time, and records shown at addresses. Each line of the
// input is a case, and a line of another kind says nothing.
//
// field sample at n          the n bytes at a place of a sample
// part sample n id           so much of the buffer, and the id that is expected
// byte sample at b           a place's byte changed
// shown sample flags address with these flags, shown at this address
// named agent topic          a record of an agent, with a topic
// long n                     a topic of n bytes
#![tactic(auto)]

mod named;
mod questions;
mod samples;
mod shown;

use cases::{half, number, size};
use samples::Sample;
use std::io;
use streams::Streams;
use text::lines::field;

fn case(streams: &mut Streams, l: &[u8]) {
    let sample = Sample::from(half(l, 1));
    match field(l, 0) {
        b"field" => questions::field(streams, sample, size(l, 2), size(l, 3)),
        b"part" => questions::part(streams, sample, size(l, 2), number(l, 3)),
        b"byte" => questions::byte(streams, sample, size(l, 2), number(l, 3)),
        b"shown" => shown::shown(streams, sample, half(l, 2), number(l, 3)),
        b"named" => named::named(streams, field(l, 2), number(l, 1)),
        b"long" => named::long(streams, size(l, 1)),
        _ => {}
    }
}

fn main(rt: HostRuntime) -> io::Result<()> {
    cases::run(Streams::of(rt.stdin(), rt.stdout()), &mut [0; 65536], case)
}
