// Manifests at the edges of what documents 01 and 02 say of them: what a text is read as, and what it grants. Each line of the input is a step; `stdout` was made
// from them by other means than this program. In a text `|` stands for a tab, `;` for byte 10, and `<1f>` for a byte that is no sign of ASCII.
//
// read text                 the text, and what it is read as
// new text                  a text to be added to: nothing is said
// add times text            behind it, so many times
// grants times n            behind it, so many grants with a topic of n bytes
// ask label                 what it is read as
// in, out module topic      what it grants
// label text                the text alone, for the next question
// hand in, out module topic what a manifest grants that no text was read to
#![tactic(auto)]

mod making;
mod show;

use cases::size;
use making::Text;
use std::io;
use streams::Streams;
use text::lines::field;

fn step(streams: &mut Streams, l: &[u8], text: &mut Text) {
    match field(l, 0) {
        b"read" => {
            text.make(field(l, 1));
            show::answer(streams, field(l, 1), text.made());
        }
        b"new" => text.make(field(l, 1)),
        b"add" => text.repeat(field(l, 2), size(l, 1)),
        b"grants" => text.grants(size(l, 1), size(l, 2)),
        b"ask" => show::answer(streams, field(l, 1), text.made()),
        b"in" => show::granted(streams, l, text.made(), false),
        b"out" => show::granted(streams, l, text.made(), true),
        b"label" => saying::word(streams, field(l, 1)),
        b"hand" => show::by_hand(streams, l),
        _ => {}
    }
}

fn main(rt: HostRuntime) -> io::Result<()> {
    let mut text = Text::new();
    cases::run(
        Streams::of(rt.stdin(), rt.stdout()),
        &mut [0; 65536],
        |streams, l| step(streams, l, &mut text),
    )
}
