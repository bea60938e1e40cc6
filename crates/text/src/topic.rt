// Topics and filters.
ghost use Rattle.std.specs.Prelude.{◌≡◌, true, ℕ, ◌≤◌, ◌<◌, length, get_or, drop};
ghost use Rattle.le.specs.Le.{le_bytes};
ghost use Rattle.text.specs.Utf8.{utf8};
ghost use Rattle.text.specs.declared.topic.Rule.{Rule};
ghost use Rattle.text.specs.Topic.{may_stand, no_control, good_text, good_topic, card_topic, good_filter};

use crate::limits::Limits;

// Which bytes may stand: in a topic or filter of a call or a grant; in a record's topic, on the card or staged. Cards outlive the rule for calls.
#[derive(Clone, Copy)]
pub enum Rule {
    Called,
    Kept,
}

fn may_stand(b: u8, rule: Rule) -> bool
    ensures { result ≡ may_stand rule b }
{
    match rule {
        Rule::Called => 32 <= b && b != 127,
        Rule::Kept => 32 <= b,
    }
}

fn no_control(s: &[u8], rule: Rule) -> bool
    ensures { result ≡ no_control rule s.now }
{
    s.iter().all(|b| may_stand(*b, rule))
}

// Whether each of the eight bytes of a number is from 32 to 126: it may stand by either rule. Nothing is claimed of a no: such bytes are looked at again.
fn plain(eight: u64) -> bool
    ensures { result ≡ true → (k : ℕ) → k < 8 → (32 ≤ get_or (le_bytes 8 eight) k 0) × (get_or (le_bytes 8 eight) k 0 ≤ 126) }
{
    // A byte above 127 has the highest bit.
    if eight & 0x8080_8080_8080_8080 != 0 {
        return false;
    }
    // Add 96 to a byte below 32, and its highest bit is still 0. Add 1 to a byte below 127, and it is too. (Of seven bits, so that no sum can run over.)
    let low = eight & 0x7F7F_7F7F_7F7F_7F7F;
    if (low + 0x6060_6060_6060_6060) & 0x8080_8080_8080_8080 != 0x8080_8080_8080_8080 {
        return false;
    }
    (low + 0x0101_0101_0101_0101) & 0x8080_8080_8080_8080 == 0
}

// How many bytes at the front are plain, in steps of eight: whether the text is good is then up to the others.
fn plain_front(s: &[u8]) -> usize
    ensures { (result ≤ length s.now) × (utf8 (drop result s.now) ≡ utf8 s.now) × ((rule : Rule) → no_control rule (drop result s.now) ≡ no_control rule s.now) }
{
    let eights = s.len() / 8;
    for k in 0..eights {
        if !plain(le::get::<u64>(s, 8 * k)) {
            return 8 * k;
        }
    }
    8 * eights
}

// The same on from a place: four at once, with four spaces in place of the others, and then byte by byte.
fn plain_bytes(s: &[u8], from: usize) -> usize
    requires { from ≤ length s.now }
    ensures { (result ≤ length s.now) × (utf8 (drop result s.now) ≡ utf8 (drop from s.now)) × ((rule : Rule) → no_control rule (drop result s.now) ≡ no_control rule (drop from s.now)) }
{
    let mut i = from;
    if 4 <= s.len() - i {
        if plain(le::get::<u32>(s, i) as u64 + 0x2020_2020_0000_0000) {
            i += 4;
        } else {
            return i;
        }
    }
    for k in i..s.len() {
        let b = s[k];
        if b < 32 || 126 < b {
            return k;
        }
    }
    s.len()
}

fn good_text(s: &[u8], rule: Rule, least: usize, most: usize) -> bool
    ensures { result ≡ good_text rule least most s.now }
{
    if s.len() < least {
        return false;
    }
    if most < s.len() {
        return false;
    }
    let plain = plain_bytes(s, plain_front(s));
    if plain == s.len() {
        return true;
    }
    let rest = le::tail(s, plain);
    if crate::utf8::valid(rest) {
        no_control(rest, rule)
    } else {
        false
    }
}

// A topic of a call or of a grant. (This and the next two are one function by a rule and two sizes; 01 names the three, and so do the promises.)
pub fn good_topic(s: &[u8]) -> bool
    ensures { result ≡ good_topic s.now }
{
    good_text(s, Rule::Called, Limits::LEAST_TOPIC, Limits::TOPIC)
}

// A topic of a record.
pub fn card_topic(s: &[u8]) -> bool
    ensures { result ≡ card_topic s.now }
{
    good_text(s, Rule::Kept, Limits::LEAST_TOPIC, Limits::TOPIC)
}

pub fn good_filter(s: &[u8]) -> bool
    ensures { result ≡ good_filter s.now }
{
    good_text(s, Rule::Called, 0, Limits::FILTER)
}
