// The stored form, written.
ghost use Rattle.std.specs.Prelude.{◌≡◌, ◌+◌, ◌≤◌, length, Ok};
ghost use Rattle.le.specs.Splice.{splice, wholly};
ghost use Rattle.value.specs.Values.{value_fault};
ghost use Rattle.value.specs.Forms.{cell_of, payload};

use crate::Value;
use crate::cell::Cell;

// The 32 bytes that a value is stored as: unused numbers are 0, and a pointer is to the byte right behind.
pub(crate) fn stored_cell(flags: u32, v: Value) -> Cell
    ensures { result ≡ cell_of flags 32 v }
{
    match v {
        Value::Plain(s) => crate::scalar::scalar_cell(flags, s),
        Value::Text(s) => Cell {
            kind: 5,
            flags: flags,
            first: Value::SIZE, // not the effect's own pointer
            second: s.len,
        },
        Value::Array(s) => Cell {
            kind: 9,
            flags: flags,
            first: Value::SIZE,
            second: s.len,
        },
        Value::Wrong => Cell {
            kind: 0, // never stored: it has a fault
            flags: flags,
            first: 0,
            second: 0,
        },
    }
}

// The payload of the value at p, for a caller that has had `check_value` find no fault, and has room for as many bytes as it said.
pub fn put_value(m: &[u8], p: u64, out: &mut [u8], at: usize)
    requires p_value { value_fault m.now p ≡ Ok tt }
    requires p_in_bounds { at + length (payload m.now p) ≤ length out.old }
    ensures { out.new ≡ splice out.old at (payload m.now p) }
{
    let c = crate::cell::read_cell(m, p as usize);
    let v = crate::decode::decode(c);
    let d = stored_cell(c.flags, v);
    crate::cell::put_cell(out, at, d);
    let s = crate::decode::content_span(v);
    let a = s.ptr as usize;
    let n = s.len as usize;
    le::copy_part(m, a, n, out, at + Cell::SIZE);
}

// The payload of any value at any address: nothing where it has a fault, and nothing where it does not fit.
pub fn store_value(m: &[u8], p: u64, out: &mut [u8], at: usize)
    ensures { out.new ≡ wholly out.old at (payload m.now p) }
{
    let Ok(n) = crate::check::check_value(m, p) else {
        return;
    };
    if out.len() < at {
        return;
    }
    if ((out.len() - at) as u64) < n {
        return;
    }
    put_value(m, p, out, at);
}
