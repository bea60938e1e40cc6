// UTF-8 as RFC 3629 has it.
ghost use Rattle.std.specs.Prelude.{◌≡◌, ◌+◌, ◌≤◌, length, drop};
ghost use Rattle.le.specs.Splice.{part};
ghost use Rattle.text.specs.Utf8.{after, utf8_from, utf8, due, due_of};

// What a character wants behind its first byte: `left` bytes, the first from lo to hi, the others from 0x80 to 0xBF.
#[derive(Clone, Copy)]
pub struct Due {
    pub left: usize,
    pub lo: u8,
    pub hi: u8,
}

impl Due {
    fn of(left: usize, lo: u8, hi: u8) -> Due
        ensures { result ≡ due_of left lo hi }
    {
        Due { left, lo, hi }
    }
}

// What a first byte of 128 or more asks for: the rows of the RFC's table, each by where it ends. A byte that begins no character asks for one that there is not, from 1 to 0.
// (Of ranges as patterns the compiler makes a table of jumps: text of many kinds of characters that is checked again and again then takes half as long again.)
#[tactic(auto, unfolding(crate::specs::Utf8::after))]
fn first(b: u8) -> Due
    requires { 0x80 ≤ b }
    ensures { due result.left result.lo result.hi ≡ after b }
{
    match b {
        b if b < 0xC2 => Due::of(1, 1, 0),
        b if b < 0xE0 => Due::of(1, 0x80, 0xBF),
        b if b < 0xE1 => Due::of(2, 0xA0, 0xBF),
        b if b < 0xED => Due::of(2, 0x80, 0xBF),
        b if b < 0xEE => Due::of(2, 0x80, 0x9F),
        b if b < 0xF0 => Due::of(2, 0x80, 0xBF),
        b if b < 0xF1 => Due::of(3, 0x90, 0xBF),
        b if b < 0xF4 => Due::of(3, 0x80, 0xBF),
        b if b < 0xF5 => Due::of(3, 0x80, 0x8F),
        _ => Due::of(1, 1, 0),
    }
}

// Whether the bytes that are due stand at `at`.
fn follows(s: &[u8], at: usize, d: Due) -> bool
    requires { at + d.left ≤ length s.now }
    ensures { result ≡ utf8_from (due d.left d.lo d.hi) (part at d.left s.now) }
{
    match &s[at..at + d.left] {
        [] => true,
        [b, others @ ..] => {
            let begun = (d.lo <= *b) & (*b <= d.hi);
            begun && others.iter().all(|b| (0x80 <= *b) & (*b <= 0xBF))
        }
    }
}

// From a place where no character is under way, past bytes below 128 in steps of eight: each of these is a character by itself.
fn past_ascii(s: &[u8], at: usize) -> usize
    requires { at ≤ length s.now }
    ensures { (at ≤ result) × (utf8 (drop result s.now) ≡ utf8 (drop at s.now)) }
{
    let mut i = at;
    // (A `for` over the eights makes the check of lyrics a fifth slower, and that of ASCII a seventh.)
    while 8 <= s.len() - i {
        // A byte above 127 has the highest bit.
        if le::get::<u64>(s, i) & 0x8080_8080_8080_8080 != 0 {
            return i;
        }
        i += 8;
    }
    i
}

pub fn valid(s: &[u8]) -> bool
    ensures { result ≡ utf8 s.now }
{
    let mut i = 0;
    // No character is under way here. (A turn passes one character, of one to four bytes, or eights: no iterator goes by such steps.)
    while i < s.len() {
        let b = s[i];
        if b < 0x80 {
            i = past_ascii(s, i + 1);
        } else {
            let d = first(b);
            // The text ends inside the character.
            if s.len() - i <= d.left {
                return false;
            }
            if follows(s, i + 1, d) {
                i += 1 + d.left;
            } else {
                return false;
            }
        }
    }
    true
}
