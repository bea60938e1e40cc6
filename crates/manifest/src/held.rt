// The topics that one module may read and list, by their places in the text. A page asks for them at every record that it looks at: a lent slice of numbers
// is handed down there, as a manifest by value would be copied for each record.
ghost use Rattle.std.specs.Prelude.{◌≡◌, ◌≤◌, length, take};
ghost use Rattle.le.specs.Splice.{splice};
ghost use Rattle.manifest.specs.Held.{reads, held_of, stands_at};

use crate::Manifest;
use crate::grant::Grant;
use le::{cut, front};
use text::compare::same;
use text::limits::Limits;

impl Grant {
    // The module may read and list by it.
    pub(crate) fn reads(self, holder: u64) -> bool
        ensures { result ≡ reads self holder }
    {
        (self.holder as u64 == holder) & !self.out
    }
}

impl Manifest {
    // Room for the places of all the grants that there may be.
    pub const PLACES: usize = 2 * Limits::GRANTS;

    // Puts the places of the topics that a module may read and list to the front of `places`, and says how many numbers that are.
    pub fn held(self, holder: u64, places: &mut [usize]) -> usize
        requires { 128 ≤ length places.old }
        ensures many { result ≡ length (held_of self holder) }
        ensures put { places.new ≡ splice places.old 0 (held_of self holder) }
        ensures front { take result places.new ≡ held_of self holder }
    {
        let mut k: usize = 0;
        for g in front(&self.grants, self.count) {
            if g.reads(holder) {
                places[k] = g.start as usize;
                places[k + 1] = g.len as usize;
                k += 2;
            }
        }
        k
    }
}

// Whether a topic stands at one of these places of a text.
pub fn stands_at(text: &[u8], places: &[usize], topic: &[u8]) -> bool
    ensures { result ≡ stands_at text.now places.now topic.now }
{
    let mut i: usize = 0;
    while 2 <= places.len() - i {
        if same(cut(text, places[i], places[i + 1]), topic) {
            return true;
        }
        i += 2;
    }
    false
}
