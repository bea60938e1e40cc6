// What a check of a module call finds: its code and, with -5, the field that failed.
ghost use Rattle.std.specs.Prelude.{◌≡◌};
ghost use Rattle.weave.specs.Findings.{plain, naming, need_at, is_clear, first_found};

use crate::codes::need;
use crate::{Code, Finding};

impl Code {
    // It names no field.
    pub fn plain(self) -> Finding
        ensures { result ≡ plain self }
    {
        Finding {
            code: self,
            field: 0,
        }
    }

    // With -5 it names this field.
    pub fn naming(self, field: u64) -> Finding
        ensures { result ≡ naming self field }
    {
        if self.bad() {
            return Finding { code: self, field };
        }
        self.plain()
    }
}

// A check of a field: -5, and the field, where the test fails.
pub fn need_at(t: bool, field: u64) -> Finding
    ensures { result ≡ need_at t field }
{
    need(t, Code::Bad).naming(field)
}

impl Finding {
    // In place of a field: the record's own address, check 4, and anything before it. No field has such an offset.
    pub const RECORD: u64 = 255;

    pub const BEFORE: u64 = 254;

    pub fn fine(self) -> bool
        ensures { result ≡ is_clear self }
    {
        let c = self.code;
        c.fine()
    }

    // The first of two checks that finds fault.
    pub fn then(self, later: Finding) -> Finding
        ensures { result ≡ first_found self later }
    {
        if self.fine() { later } else { self }
    }
}
