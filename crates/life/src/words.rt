// A step's numbers, and sums of bytes.
use cases::number;
use text::lines::field;

// What a module returns: field 1, with a minus sign or without.
pub(crate) fn returned(l: &[u8]) -> i64 {
    let f = field(l, 1);
    let n = match f {
        [b'-', digits @ ..] => number(digits, 0).wrapping_neg(),
        _ => number(f, 0),
    };
    n.cast_signed()
}

// One number for many, bytes or entries: another one, but by chance, where one of them is another.
pub(crate) fn sum<T: Copy + Into<u64>>(s: &[T]) -> u64 {
    let mut h: u64 = 1;
    for x in s {
        h = h.wrapping_mul(257).wrapping_add((*x).into()) % 4294967291;
    }
    h
}
