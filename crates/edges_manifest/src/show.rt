// What is written: a case, and the answer.
use cases::number;
use manifest::Manifest;
use manifest::charge::Charge;
use manifest::grant::Grant;
use manifest::head::Head;
use saying::word;
use streams::Streams;
use text::lines::field;

fn edition(charge: Charge) -> u64 {
    match charge {
        Charge::First => 1,
        Charge::Second => 2,
    }
}

// What a text is read as, behind its name.
pub(crate) fn answer(streams: &mut Streams, label: &[u8], text: &[u8]) {
    word(streams, label);
    let m = Manifest::read(text);
    if !m.good {
        word(streams, b": bad\n");
        return;
    }
    word(streams, b": good, modules");
    saying::number(streams, m.head.modules);
    word(streams, b", charge");
    saying::number(streams, edition(m.head.charge));
    word(streams, b", grants");
    saying::number(streams, m.count as u64);
    word(streams, b"\n");
}

// What a manifest of the text grants a module; `out` or else `in`.
fn ask(streams: &mut Streams, m: Manifest, text: &[u8], module: &[u8], out: bool, topic: &[u8]) {
    word(streams, module);
    word(streams, if out { b" out " } else { b" in " });
    word(streams, topic);
    saying::answer(streams, m.granted(text, number(module, 0), out, topic));
}

// in, out module topic: of the text.
pub(crate) fn granted(streams: &mut Streams, l: &[u8], text: &[u8], out: bool) {
    ask(
        streams,
        Manifest::read(text),
        text,
        field(l, 1),
        out,
        field(l, 2),
    );
}

// hand in, out module topic: of a manifest that no text was read to, with places and a count beyond everything.
pub(crate) fn by_hand(streams: &mut Streams, l: &[u8]) {
    let far = Grant {
        start: 0xFFFF_FFFF,
        len: 0xFFFF,
        holder: 1,
        out: false,
    };
    let m = Manifest {
        good: true,
        head: Head {
            modules: 1,
            charge: Charge::Second,
        },
        count: 0xFFFF_FFFF_FFFF_FFFF,
        grants: [far; 64],
    };
    word(streams, b"made by hand: ");
    ask(
        streams,
        m,
        b"modules\t1\n",
        field(l, 2),
        field(l, 1) == b"out".as_slice(),
        field(l, 3),
    );
}
