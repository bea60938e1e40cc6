// The chain that a part is, and its numbers.
use card::Broken;
use record::EventId;
use saying::{number, word};
use streams::Streams;

// From the number first on, and whether up to next.
pub(crate) fn chain(streams: &mut Streams, s: &[u8], first: u64, next: u64) {
    if 9223372036854775808 < first {
        return;
    }
    match card::walk::check_chain(s, EventId(first)) {
        Ok(next) => {
            word(streams, b": whole, next");
            number(streams, next.0);
        }
        Err(Broken { at }) => {
            word(streams, b": broken at");
            number(streams, at as u64);
        }
    }
    let goes = card::walk::chain_to(s, EventId(first), EventId(next));
    word(streams, if goes { b": yes" } else { b": no" });
}

// chain at n first next: of n bytes from `at` on.
pub(crate) fn case(streams: &mut Streams, l: &[u8], card: &[u8]) {
    let s = le::cut(card, cases::size(l, 1), cases::size(l, 2));
    chain(streams, s, cases::number(l, 3), cases::number(l, 4));
}
