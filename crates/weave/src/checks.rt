// The checks that speak of the state.
ghost use Rattle.std.specs.Prelude.{◌≡◌};
ghost use Rattle.weave.specs.Checks.{same_lengths, numbers_fine, turn_fine, lent_fine, running_check, handle_fine, slot_fine, budget_check};

use crate::codes::need;
use crate::sums::within;
use crate::table::find_slot;
use crate::{Code, Lengths, Weave};
use card::Cursor;
use record::EventId;

fn numbers_fine(next: EventId, count: u64) -> bool
    ensures { result ≡ numbers_fine next.0 count }
{
    (1 <= next.0) & within(next.0, count, EventId::BEYOND)
}

impl Weave {
    fn turn_fine(self, modules: u64) -> bool
        ensures { result ≡ turn_fine self modules }
    {
        !self.running | ((1 <= self.turn) & (self.turn <= modules))
    }

    // Check 1, but for the memory.
    pub fn lent_fine(
        self,
        was: Lengths,
        is: Lengths,
        good: bool,
        modules: u64,
        used: usize,
        next: EventId,
    ) -> bool
        ensures { result ≡ lent_fine was is good modules used next.0 self }
    {
        let lengths = is == was;
        let numbers = numbers_fine(next, self.count);
        let turn = self.turn_fine(modules);
        let parts = (used <= is.card) & ((self.staged <= is.staging) & (numbers & turn));
        lengths & (good & parts)
    }

    // Checks 2 and 3 of a module call.
    pub fn running_check(self) -> Code
        ensures { result ≡ running_check self }
    {
        let mark = self.spoiled;
        let running = need(self.running, Code::NotNow);
        running.then(mark.code())
    }

    pub fn handle_fine(self, k: u64) -> bool
        ensures { result ≡ handle_fine self k }
    {
        let slots = self.slots;
        (0 < k) & (find_slot(slots, k) < Cursor::OPEN)
    }

    pub fn slot_fine(self) -> bool
        ensures { result ≡ slot_fine self }
    {
        let slots = self.slots;
        (find_slot(slots, 0) < Cursor::OPEN) & (self.opened < Cursor::OPENED)
    }

    pub fn budget_check(self, charge: u64) -> Code
        ensures { result ≡ budget_check self charge }
    {
        need(within(self.units, charge, self.resmax), Code::Budget)
    }
}
