// What only these answers are made of.
use saying::{pattern, word};
use streams::Streams;
use value::Fault;

// What a check found, by its number.
pub(crate) fn code(streams: &mut Streams, checked: Result<u64, Fault>) {
    let code: &[u8] = match checked {
        Ok(_) => b" 0",
        Err(Fault::Outside) => b" -5",
        Err(Fault::Unfit) => b" -7",
    };
    word(streams, code);
}

pub(crate) fn good(streams: &mut Streams, yes: bool) {
    word(streams, if yes { b" good" } else { b" not good" });
}

// The 32 bytes at 8, as type, flags, the union's two numbers, and the last eight bytes.
pub(crate) fn numbers(streams: &mut Streams, out: &[u8; 2100]) {
    pattern(streams, u64::from(le::get::<u32>(out, 8)));
    pattern(streams, u64::from(le::get::<u32>(out, 12)));
    pattern(streams, le::get::<u64>(out, 16));
    pattern(streams, le::get::<u64>(out, 24));
    pattern(streams, le::get::<u64>(out, 32));
}

// The four bytes behind them; a5 is a byte that nobody wrote.
pub(crate) fn behind(streams: &mut Streams, out: &[u8; 2100]) {
    word(streams, b", then");
    saying::bytes(streams, le::cut(out, 40, 4));
    word(streams, b";");
}
