// One line of a manifest. 0 stands for "none", as no number of a manifest may be 0: what a line says and whether it is good are one answer.
ghost use Rattle.std.specs.Prelude.{◌≡◌, drop};
ghost use Rattle.text.specs.Lines.{line_at, fields, field, tabbed};
ghost use Rattle.manifest.specs.Line.{one_to, number_in, modules_in, charge_in, grant_form, holder_in};

use crate::charge::Charge;
use le::tail;
use text::compare::{same, starts_with};
use text::decimal::read_number;
use text::limits::Limits;
use text::lines::{behind, field, line};
use text::topic::good_topic;

// The number from 1 to `most` that the bytes write, 0 where they write none.
#[tactic(auto, unfolding(crate::specs::Line::one_to))]
fn one_to(s: &[u8], most: u64) -> u64
    ensures { result ≡ one_to most s.now }
{
    match read_number(s) {
        Some(n) if n <= most => n,
        _ => 0,
    }
}

// The number from 1 to `most` that stands behind a word, 0 where a line is not just these two. No number has a tab: where all that stands behind the first tab is
// one, there are two fields.
fn number_in(word: &[u8], most: u64, line: &[u8]) -> u64
    ensures { result ≡ number_in word.now most line.now }
{
    if same(field(line, 0), word) {
        one_to(behind(line, 1), most)
    } else {
        0
    }
}

// The number of modules that line one says, 0 where it is no line one.
pub(crate) fn modules_in(line: &[u8]) -> u64
    ensures { result ≡ modules_in line.now }
{
    number_in(b"modules", Limits::MODULES, line)
}

// The edition that the line at `at` names, 0 where it is no line `charge`. Its end is looked for only where it begins with the word: any other line may be long.
pub(crate) fn charge_at(text: &[u8], at: usize) -> u64
    ensures { result ≡ charge_in (line_at at text.now) }
{
    if starts_with(tail(text, at), b"charge") {
        number_in(b"charge", Charge::EDITIONS, line(text, at))
    } else {
        0
    }
}

// Whether a line is a grant, but for its module number: `way` is its third field, and `topic` all that stands behind its third tab. A good topic has no tab: where
// that is one, there are four fields.
fn grant_form(line: &[u8], way: &[u8], topic: &[u8]) -> bool
    requires { (way.now ≡ field 2 line.now) × (topic.now ≡ tabbed (drop 3 (fields line.now))) }
    ensures { result ≡ grant_form line.now }
{
    let word = same(field(line, 0), b"grant");
    let direction = same(way, b"in") | same(way, b"out");
    word & (direction & good_topic(topic))
}

// The module that a line grants something, 0 where the line is no grant: `number` is its second field.
pub(crate) fn holder_in(line: &[u8], number: &[u8], way: &[u8], topic: &[u8], modules: u64) -> u64
    requires number_value { number.now ≡ field 1 line.now }
    requires way_value { (way.now ≡ field 2 line.now) × (topic.now ≡ tabbed (drop 3 (fields line.now))) }
    ensures { result ≡ holder_in modules line.now }
{
    if grant_form(line, way, topic) {
        one_to(number, modules)
    } else {
        0
    }
}
