// The manifest: how many modules there are, what a write costs, and which modules may write, read and list which topics.
//
// A text is read once a call, to the places of its grants: nothing is copied, and each question is then a few comparisons.
#![tactic(auto)]

ghost use Rattle.std.specs.Prelude.{◌≡◌, ◌≤◌, ◌<◌, length, drop};
ghost use Rattle.text.specs.Lines.{lines};
ghost use Rattle.manifest.specs.Rights.{granted};
ghost use Rattle.manifest.specs.Places.{refused, read_lines, read_rest, read_of, rights_of};

use crate::charge::Charge;
use crate::grant::Grant;
use crate::head::{Head, passed};
use crate::reading::{charge_at, modules_in};
use le::front;
use text::limits::Limits;
use text::lines::{closed, line};
use text::words::is_core;

pub mod charge;
pub mod grant;
pub mod head;
pub mod held;
mod reading;

// What a text is read as. The first `count` grants are its own. Where it is not good it has no module and no grant, and the first charge rule.
#[derive(Clone, Copy)]
pub struct Manifest {
    pub good: bool,
    pub head: Head,
    pub count: usize,
    pub grants: [Grant; Limits::GRANTS],
}

impl Manifest {
    // What a bad text is read as.
    fn refused() -> Manifest
        ensures { result ≡ refused }
    {
        let grants = Grant::none();
        let head = Head {
            modules: 0,
            charge: Charge::First,
        };
        Manifest {
            good: false,
            head,
            count: 0,
            grants,
        }
    }

    // The lines from `at` on, behind the head, each of which must be a grant.
    fn read_grants(text: &[u8], at: usize, head: Head) -> Manifest
        requires at_nonzero { (0 < at) × (length text.now ≤ 65536) }
        requires modules_bound { head.modules ≤ 16 }
        ensures { result ≡ read_lines head at (lines (drop at text.now)) }
    {
        let mut grants = Grant::none();
        let mut count: usize = 0;
        let mut from = at;
        // (A `while`: where the next line begins is known only when this one has been looked at.)
        while from < text.len() {
            if Limits::GRANTS <= count {
                return Manifest::refused();
            }
            let here = line(text, from);
            let end = from + here.len();
            let g = Grant::at(here, end, head.modules);
            if g.holder == 0 {
                return Manifest::refused();
            }
            grants[count] = g;
            count += 1;
            from = end + 1;
        }
        Manifest {
            good: true,
            head,
            count,
            grants,
        }
    }

    // The lines from `at` on, behind line one: those that may be left out, then the grants.
    fn read_rest(text: &[u8], at: usize, modules: u64) -> Manifest
        requires at_nonzero { (0 < at) × (at ≤ 65537) }
        requires text_len_bound { (length text.now ≤ 65536) × (modules ≤ 16) }
        ensures { result ≡ read_rest modules at text.now }
    {
        let said = charge_at(text, at);
        let from = passed(said, text, at);
        let charge = Charge::named(said);
        Manifest::read_grants(text, from, Head { modules, charge })
    }

    // The manifest that a text is; for a text that is none, one that is not good.
    pub fn read(text: &[u8]) -> Manifest
        ensures { result ≡ read_of text.now }
    {
        if Limits::MANIFEST < text.len() {
            return Manifest::refused();
        }
        if closed(text) {
            let one = line(text, 0);
            let modules = modules_in(one);
            if modules == 0 {
                return Manifest::refused();
            }
            let at = one.len() + 1;
            Manifest::read_rest(text, at, modules)
        } else {
            Manifest::refused()
        }
    }

    // Whether a module may write (`out`), or read and list (not `out`), a topic, by this manifest of the text. One that was read from no text, or from
    // another, is answered too: its places give what bytes stand there, and grants past the 64 are none.
    pub fn granted(self, text: &[u8], holder: u64, out: bool, topic: &[u8]) -> bool
        ensures { result ≡ granted (rights_of self text.now) holder out topic.now }
    {
        if out & is_core(topic) {
            return true;
        }
        for g in front(&self.grants, self.count) {
            if g.gives(text, holder, out, topic) {
                return true;
            }
        }
        false
    }
}
