// Scalars stored to 32 bytes, and decoded from them.
use crate::say;
use saying::{number, word};
use std::cmp::Ordering;
use streams::Streams;
use value::Value;
use value::scalar::Scalar;

fn signed(streams: &mut Streams, z: i64) {
    let sign: &[u8] = match z.cmp(&0) {
        Ordering::Less => b" signed, below 0",
        Ordering::Equal => b" signed 0",
        Ordering::Greater => b" signed, above 0",
    };
    word(streams, sign);
}

fn float(streams: &mut Streams, x: f64) {
    let sign: &[u8] = match x.partial_cmp(&0.0) {
        Some(Ordering::Less) => b" float, below 0",
        Some(Ordering::Equal) => b" float 0",
        Some(Ordering::Greater) => b" float, above 0",
        None => b" float, not a number",
    };
    word(streams, sign);
}

fn scalar(streams: &mut Streams, s: Scalar) {
    match s {
        Scalar::Unit => word(streams, b" unit"),
        Scalar::Bool(true) => word(streams, b" true"),
        Scalar::Bool(false) => word(streams, b" false"),
        Scalar::Signed(z) => signed(streams, z),
        Scalar::Unsigned(n) => {
            word(streams, b" unsigned");
            number(streams, n);
        }
        Scalar::Float(x) => float(streams, x),
    }
}

// By number.
fn numbered(k: u64) -> Scalar {
    match k {
        0 => Scalar::Unit,
        1 => Scalar::Bool(false),
        2 => Scalar::Bool(true),
        3 => Scalar::Signed(-1),
        4 => Scalar::Signed(i64::MIN),
        5 => Scalar::Signed(i64::MAX),
        6 => Scalar::Signed(0),
        8 => Scalar::Float(1.5),
        9 => Scalar::Float(-0.0),
        10 => Scalar::Float(f64::INFINITY),
        11 => Scalar::Float(f64::NEG_INFINITY),
        12 => Scalar::Float(f64::NAN),
        _ => Scalar::Unsigned(u64::MAX),
    }
}

pub(crate) fn back(streams: &mut Streams, k: u64) {
    let mut out = [0xA5u8; 2100];
    value::scalar::put_scalar(&mut out, 8, 7, numbered(k));
    say::numbers(streams, &out);
    say::behind(streams, &out);
    match value::decode::read_value(&out, 8) {
        Value::Plain(s) => scalar(streams, s),
        Value::Text(_) => word(streams, b" string"),
        Value::Array(_) => word(streams, b" byte array"),
        Value::Wrong => word(streams, b" wrong"),
    }
}
