// A program's cases, as lines of its input: a word, then numbers, words and bytes, a tab between each two.
#![tactic(auto)]

ghost use Rattle.std.specs.Prelude.{◌≡◌, ◌%◌, ◌^◌, ◌<◌, ◌≤◌, length, unwrap_or};
ghost use Rattle.text.specs.Decimal.{number_of};
ghost use Rattle.text.specs.Lines.{field};
ghost use Rattle.cases.specs.Run.{Runs};

use std::io;
use streams::Streams;
use text::decimal::read_number;
use text::lines::{field, line};

// The number that field k is; another where it is none.
pub fn number_or(l: &[u8], k: usize, other: u64) -> u64
    ensures { result ≡ unwrap_or (number_of (field k l.now)) other }
{
    read_number(field(l, k)).unwrap_or(other)
}

// The number that field k is; 0 where it is none. (No Option: a case that lacks a number asks with 0; who wants another says it by `number_or`.)
pub fn number(l: &[u8], k: usize) -> u64
    ensures { result ≡ unwrap_or (number_of (field k l.now)) 0 }
{
    number_or(l, k, 0)
}

pub fn size(l: &[u8], k: usize) -> usize
    ensures { result ≡ unwrap_or (number_of (field k l.now)) 0 }
{
    number(l, k) as usize
}

// The same, of 32 bits.
pub fn half(l: &[u8], k: usize) -> u32
    ensures { result ≡ unwrap_or (number_of (field k l.now)) 0 % 2 ^ 32 }
{
    (number(l, k) % 4294967296) as u32
}

// The value of a digit of base 16.
fn digit(b: u8) -> u64
    ensures { result < 16 }
{
    match b {
        b'0'..=b'9' => u64::from(b - b'0'),
        b'a'..=b'f' => u64::from(b - b'a' + 10),
        _ => 0,
    }
}

// The number that the bytes write in base 16, of which the last 16 digits count.
pub fn pattern(s: &[u8]) -> u64 {
    s.iter().fold(0, |n, b| n << 4 | digit(*b))
}

// The bytes that pairs of digits write, a blank between each two, as far as there is room: how many they are.
pub fn bytes(s: &[u8], out: &mut [u8]) -> usize
    ensures { result ≤ length out.new }
{
    let pairs = s.chunks(3);
    let n = pairs.len().min(out.len());
    for (b, pair) in out.iter_mut().zip(pairs) {
        *b = (pattern(le::front(pair, 2)) & 0xFF) as u8;
    }
    n
}

// A program's run: each line of standard input, as far as the buffer has room for it, is a case. What all of it came to.
pub fn run<F: FnMut(&mut Streams, &[u8])>(
    mut streams: Streams,
    buffer: &mut [u8],
    mut case: F,
) -> io::Result<()>
    requires { F.IsAlwaysCallable case }
    ensures { Runs F.FnMut case buffer.new result }
{
    let n = streams.read_full(buffer);
    let mut rest = &buffer[..n];
    while !rest.is_empty() {
        let l = line(rest, 0);
        case(&mut streams, l);
        rest = le::tail(rest, l.len() + 1);
    }
    streams.outcome()
}
