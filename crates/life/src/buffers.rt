// The buffers that are lent to the host, and what is done to them by hand: manifest and box made, lent lengths, single bytes and texts.
use crate::lay;
use cases::{number, number_or, size};
use text::lines::field;

// More than a memory or a staging buffer may have.
pub(crate) const LARGE: usize = 1_048_584;

// A card's, and a manifest's.
pub(crate) const CARD: usize = 65536;

// As many entries as such a card can need.
pub(crate) const ENTRIES: usize = 481;

// How much of each buffer is lent.
#[derive(Clone, Copy, Default)]
pub(crate) struct Lengths {
    pub memory: usize,
    pub staging: usize,
    pub card: usize,
    pub manifest: usize,
    pub index: usize,
}

#[derive(Drop)]
pub(crate) struct Buffers {
    pub memory: [u8; LARGE],
    pub staging: [u8; LARGE],
    pub card: [u8; CARD],
    pub manifest: [u8; CARD],
    pub index: [u32; ENTRIES],
    pub lent: Lengths,
}

// The first n, all of them where there are not so many.
pub(crate) fn front<T>(s: &mut [T], n: usize) -> &mut [T] {
    let n = n.min(s.len());
    &mut s[..n]
}

fn put<T: Copy>(s: &mut [T], at: usize, x: T) {
    if at < s.len() {
        s[at] = x;
    }
}

// `piece` behind the first `at` bytes, where it fits; where it ends.
fn add(text: &mut [u8], at: usize, piece: &[u8]) -> usize {
    if text.len() < at || text.len() - at < piece.len() {
        return at;
    }
    le::copy_at(piece, text, at);
    at + piece.len()
}

impl Buffers {
    // What a line does by hand; where it names a call, its arguments are laid.
    pub(crate) fn by_hand(&mut self, l: &[u8]) {
        match field(l, 0) {
            b"box" => self.clear(l),
            b"lend" => self.lend_next(field(l, 1), size(l, 2)),
            b"modules" => {
                self.lent.manifest = 0;
                self.tell(l);
            }
            b"charge" | b"grant" => self.tell(l),
            b"poke" => self.poke(l),
            b"word" => lay::put_word(&mut self.memory, size(l, 1), number(l, 2)),
            b"text" => {
                lay::put_text(&mut self.memory, size(l, 1), field(l, 2));
            }
            b"lay" => lay::lay(&mut self.memory, le::tail(l, 4)),
            _ => lay::lay(&mut self.memory, l),
        }
    }

    // box staging card memory [entries]
    fn clear(&mut self, l: &[u8]) {
        self.memory.fill(0);
        self.staging.fill(0);
        self.card.fill(0);
        self.index.fill(0);
        self.lent.memory = size(l, 3);
        self.lent.staging = size(l, 1);
        self.lent.card = size(l, 2);
        self.lent.index = number_or(l, 4, ENTRIES as u64) as usize;
    }

    // lend buffer length
    fn lend_next(&mut self, buffer: &[u8], n: usize) {
        match buffer {
            b"memory" => self.lent.memory = n,
            b"staging" => self.lent.staging = n,
            b"card" => self.lent.card = n,
            b"manifest" => self.lent.manifest = n,
            b"index" => self.lent.index = n,
            _ => {}
        }
    }

    // A line of the manifest, behind what is lent of it.
    fn tell(&mut self, l: &[u8]) {
        let end = add(&mut self.manifest, self.lent.manifest, l);
        self.lent.manifest = add(&mut self.manifest, end, b"\n");
    }

    // poke buffer offset byte, and poke index entry number
    fn poke(&mut self, l: &[u8]) {
        let at = size(l, 2);
        let b = (number(l, 3) & 0xFF) as u8;
        match field(l, 1) {
            b"memory" => put(&mut self.memory, at, b),
            b"staging" => put(&mut self.staging, at, b),
            b"card" => put(&mut self.card, at, b),
            b"manifest" => put(&mut self.manifest, at, b),
            _ => put(&mut self.index, at, cases::half(l, 3)),
        }
    }
}
