// What 32 bytes say.
ghost use Rattle.std.specs.Prelude.{◌≡◌, ◌+◌, ◌≤◌, length};
ghost use Rattle.value.specs.Cells.{cell_at};
ghost use Rattle.value.specs.Values.{boolean, decoded, content_span};

use crate::cell::Cell;
use crate::scalar::Scalar;
use crate::{Span, Value};

fn boolean_of(b: u64) -> Value
    ensures { result ≡ boolean b }
{
    if b == 0 {
        return Value::Plain(Scalar::Bool(false));
    }
    if b == 1 {
        return Value::Plain(Scalar::Bool(true));
    }
    Value::Wrong
}

pub(crate) fn decode(c: Cell) -> Value
    ensures { result ≡ decoded c }
{
    let t = c.kind;
    let n = c.first;
    let len = c.second;
    // (The numbers are 01's types: they stand in a memory.)
    match t {
        0 => Value::Plain(Scalar::Unit),
        1 => boolean_of(n % 256), // the union's first byte
        2 => Value::Plain(Scalar::Signed(crate::pattern::signed_of(n))),
        3 => Value::Plain(Scalar::Unsigned(n)),
        4 => Value::Plain(Scalar::Float(crate::pattern::float_of(n))),
        5 => Value::Text(Span { ptr: n, len: len }),
        9 => Value::Array(Span { ptr: n, len: len }),
        _ => Value::Wrong,
    }
}

// A value, decoded from 32 bytes: a scalar, or where the bytes of a string or byte array lie.
pub fn read_value(m: &[u8], p: usize) -> Value
    requires { p + 32 ≤ length m.now }
    ensures { result ≡ decoded (cell_at m.now p) }
{
    decode(crate::cell::read_cell(m, p))
}

// Where the bytes lie that are stored behind the 32: an empty span where a value has none.
pub(crate) fn content_span(v: Value) -> Span
    ensures { result ≡ content_span v }
{
    match v {
        Value::Plain(s) => Span { ptr: 0, len: 0 },
        Value::Text(s) => s,
        Value::Array(s) => s,
        Value::Wrong => Span { ptr: 0, len: 0 },
    }
}
