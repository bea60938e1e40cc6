// Bytes compared. Long texts by the library, which takes many bytes at once. Most topics are short: these in a few looks that may share bytes, as a call of the library's costs
// half as much again.
ghost use Rattle.std.specs.Prelude.{◌≡◌, ◌*◌, ◌≤◌, length};
ghost use Rattle.text.specs.Compare.{prefix_of, same_bytes};

use le::Number;

// Whether a topic begins with a filter.
pub fn starts_with(topic: &[u8], filter: &[u8]) -> bool
    ensures { result ≡ prefix_of filter.now topic.now }
{
    topic.starts_with(filter)
}

// Two texts of one length, with as many bytes as a number has, or up to twice as many: by the number at the front and the one at the end, which may share bytes.
fn same_ends<N: Number>(a: &[u8], b: &[u8]) -> bool
    requires lengths { length a.now ≡ length b.now }
    requires least { N.WIDTH ≤ length a.now }
    requires most { length a.now ≤ 2 * N.WIDTH }
    ensures { result ≡ same_bytes a.now b.now }
{
    let end = a.len() - N::WIDTH;
    let front = le::get::<N>(a, 0).widened() == le::get::<N>(b, 0).widened();
    front && le::get::<N>(a, end).widened() == le::get::<N>(b, end).widened()
}

// The same of 16 to 32 bytes: by the first 16 and the last.
fn same_halves(a: &[u8], b: &[u8]) -> bool
    requires lengths { length a.now ≡ length b.now }
    requires least { 16 ≤ length a.now }
    requires most { length a.now ≤ 32 }
    ensures { result ≡ same_bytes a.now b.now }
{
    let end = a.len() - 16;
    same_ends::<u64>(le::front(a, 16), le::front(b, 16))
        && same_ends::<u64>(le::tail(a, end), le::tail(b, end))
}

// Byte for byte.
pub fn same(a: &[u8], b: &[u8]) -> bool
    ensures { result ≡ same_bytes a.now b.now }
{
    if a.len() != b.len() {
        return false;
    }
    match a.len() {
        4..=8 => same_ends::<u32>(a, b),
        9..=16 => same_ends::<u64>(a, b),
        17..=32 => same_halves(a, b),
        _ => a == b,
    }
}
