// The card at its edges: six records on a card, and two staged behind them. Each line of the input is a case; it is written again, with what it gives. The
// lines before them put the records there, and say nothing: of 152, 152, 136, 176, 168 and 208 bytes, 992 in all, and of 152 and 144.
#![tactic(auto)]

mod build;
mod chains;
mod look;
mod pages;
mod show;
mod tables;

use build::Card;
use saying::word;
use std::io;
use streams::Streams;
use text::lines::field;

fn step(streams: &mut Streams, l: &[u8], card: &mut Card) {
    match field(l, 0) {
        b"record" => card.record(l),
        b"string" => card.string(l),
        b"set" => look::set(streams, l, &mut card.bytes),
        _ => asked(streams, l, &card.bytes),
    }
}

// A line that begins with another word is a heading.
fn asked(streams: &mut Streams, l: &[u8], card: &[u8]) {
    word(streams, l);
    match field(l, 0) {
        b"chain" => chains::case(streams, l, card),
        b"look" => look::look(streams, l, card),
        b"page" => pages::page(streams, l, card),
        b"pages" => pages::pages(streams, l, card),
        b"read" => pages::read(streams, l, card),
        _ => {}
    }
    word(streams, b"\n");
}

fn main(rt: HostRuntime) -> io::Result<()> {
    let mut card = Card::new();
    cases::run(
        Streams::of(rt.stdin(), rt.stdout()),
        &mut [0; 65536],
        |streams, l| step(streams, l, &mut card),
    )
}
