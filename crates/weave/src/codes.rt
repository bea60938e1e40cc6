// Codes, and the order of checks.
ghost use Rattle.std.specs.Prelude.{◌≡◌};
ghost use Rattle.weave.specs.Codes.{is_fine, is_budget, is_bad, first, number, need, reason_of, spoiled_code};

use crate::{Code, Mark, Spoiled};

impl Code {
    pub const DENIED: i64 = -1;

    pub const NOT_NOW: i64 = -2;

    pub const UNSOUND: i64 = -3;

    pub const NO_ROOM: i64 = -4;

    pub const BAD: i64 = -5;

    pub const BUDGET: i64 = -6;

    pub const BAD_VALUE: i64 = -7;

    // The paper's number.
    pub fn number(self) -> i64
        ensures { result ≡ number self }
    {
        match self {
            Code::Fine => 0,
            Code::Denied => Code::DENIED,
            Code::NotNow => Code::NOT_NOW,
            Code::Unsound => Code::UNSOUND,
            Code::NoRoom => Code::NO_ROOM,
            Code::Bad => Code::BAD,
            Code::Budget => Code::BUDGET,
            Code::BadValue => Code::BAD_VALUE,
        }
    }

    pub fn fine(self) -> bool
        ensures { result ≡ is_fine self }
    {
        matches!(self, Code::Fine)
    }

    // The one refusal that marks the weave.
    pub fn budget(self) -> bool
        ensures { result ≡ is_budget self }
    {
        matches!(self, Code::Budget)
    }

    // The one code that comes with a field.
    pub fn bad(self) -> bool
        ensures { result ≡ is_bad self }
    {
        matches!(self, Code::Bad)
    }

    // The first of two checks that finds fault.
    pub fn then(self, later: Code) -> Code
        ensures { result ≡ first self later }
    {
        if self.fine() { later } else { self }
    }

    // What a module's return code means: Fine for 0 and 1, and what the weave is discarded with for the others. (The numbers are 01's: they come from outside.)
    pub fn reason(code: i64) -> Code
        ensures { result ≡ reason_of code }
    {
        match code {
            0 => Code::Fine,
            1 => Code::Fine,
            -1 => Code::Denied,
            -2 => Code::NotNow,
            -3 => Code::Unsound,
            -4 => Code::NoRoom,
            -5 => Code::Bad,
            -6 => Code::Budget,
            -7 => Code::BadValue,
            _ => Code::Bad,
        }
    }
}

// A check: the code where the test fails.
pub fn need(t: bool, c: Code) -> Code
    ensures { result ≡ need t c }
{
    if t { Code::Fine } else { c }
}

impl Mark {
    // Check 3 of a module call.
    pub fn code(self) -> Code
        ensures { result ≡ spoiled_code self }
    {
        let s = self.0;
        match s {
            Spoiled::Not => Code::Fine,
            Spoiled::Overspent => Code::Budget,
            Spoiled::Panicked => Code::Denied,
        }
    }
}
