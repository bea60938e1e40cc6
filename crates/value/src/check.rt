// Check 8 of a write: type, span, content.
ghost use Rattle.std.specs.Prelude.{◌≡◌};
ghost use Rattle.value.specs.Values.{span_fault, text_fault, fault_of};
ghost use Rattle.value.specs.Forms.{checked_of, checked_value};

use crate::{Fault, Span, Value};

fn span_fault(m: &[u8], s: Span) -> Result<(), Fault>
    ensures { result ≡ span_fault m.now s }
{
    if text::span::inside(s.ptr, s.len, m.len() as u64) {
        Ok(())
    } else {
        Err(Fault::Outside)
    }
}

// The bytes are looked at only where the span is inside.
fn text_fault(m: &[u8], s: Span) -> Result<(), Fault>
    ensures { result ≡ text_fault m.now s }
{
    span_fault(m, s)?;
    if text::utf8::valid(le::cut(m, s.ptr as usize, s.len as usize)) {
        Ok(())
    } else {
        Err(Fault::Unfit)
    }
}

fn fault_of(m: &[u8], v: Value) -> Result<(), Fault>
    ensures { result ≡ fault_of m.now v }
{
    match v {
        Value::Plain(_) => Ok(()),
        Value::Text(s) => text_fault(m, s),
        Value::Array(s) => span_fault(m, s),
        Value::Wrong => Err(Fault::Unfit),
    }
}

// The payload's length, where there is no fault: in one go, so that a string's bytes are looked at once.
pub(crate) fn check_decoded(m: &[u8], v: Value) -> Result<u64, Fault>
    ensures { result ≡ checked_of m.now v }
{
    fault_of(m, v)?;
    let s = crate::decode::content_span(v);
    Ok(Value::SIZE + s.len)
}

// The same of the value at address p.
pub fn check_value(m: &[u8], p: u64) -> Result<u64, Fault>
    ensures { result ≡ checked_value m.now p }
{
    let whole = Span {
        ptr: p,
        len: Value::SIZE,
    };
    span_fault(m, whole)?;
    let v = crate::decode::read_value(m, p as usize);
    check_decoded(m, v)
}
