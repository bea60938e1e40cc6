// The lines behind `go`.
ghost use Rattle.std.specs.Prelude.{◌≡◌, true};
ghost use Rattle.script.specs.Forms.{numeral, value_at, formed, minus, unsigned, in_range, good_code, signed, code_of, is_begin, is_write, is_open, is_next, is_return, line_of};

use record::{EventId, VirtualTime};
use text::compare::same;
use text::decimal::read_number;
use text::lines::{field, field_count};

// What a cursor is asked to list, but for its filter.
#[derive(Drop)]
pub struct Window {
    pub from: EventId,
    pub to: EventId,
    pub limit: u64,
    pub desc: u64,
}

// A line's numbers. Its texts, and a return's code, stay in it.
#[derive(Drop)]
pub enum Line {
    Begin { units: u64, time: VirtualTime },
    Write,
    Open(Window),
    Next { handle: u64, cap: u64 },
    Return,
    Bad,
}

fn numeral(line: &[u8], k: usize) -> bool
    ensures { result ≡ numeral k line.now }
{
    read_number(field(line, k)).is_some()
}

fn value_at(line: &[u8], k: usize) -> u64
    ensures { result ≡ value_at k line.now }
{
    read_number(field(line, k)).unwrap_or(0)
}

fn formed(line: &[u8], word: &[u8], n: usize) -> bool
    ensures { result ≡ formed word.now n line.now }
{
    same(field(line, 0), word) & (field_count(line) == n)
}

// ---- a return's code

fn minus(f: &[u8]) -> bool
    ensures { result ≡ minus f.now }
{
    f.starts_with(b"-")
}

fn unsigned(f: &[u8]) -> &[u8]
    ensures { result.now ≡ unsigned f.now }
{
    f.strip_prefix(b"-").unwrap_or(f)
}

fn in_range(minus: bool, n: u64) -> bool
    ensures { result ≡ in_range minus n }
{
    if minus {
        return (1 <= n) & (n <= 0x8000_0000_0000_0000);
    }
    n <= 0x7FFF_FFFF_FFFF_FFFF
}

fn good_code(f: &[u8]) -> bool
    ensures { result ≡ good_code f.now }
{
    let n = read_number(unsigned(f));
    n.is_some() & in_range(minus(f), n.unwrap_or(0))
}

// A number in range, with its sign.
fn signed(minus: bool, n: u64) -> i64
    requires { in_range minus n ≡ true }
    ensures { result ≡ signed minus n }
{
    if minus {
        return -1 - ((n - 1) as i64);
    }
    n as i64
}

pub fn code_of(f: &[u8]) -> i64
    ensures { result ≡ code_of f.now }
{
    if good_code(f) {
        return signed(minus(f), read_number(unsigned(f)).unwrap_or(0));
    }
    0
}

// ---- the forms

fn is_begin(line: &[u8]) -> bool
    ensures { result ≡ is_begin line.now }
{
    formed(line, b"begin", 3) & (numeral(line, 1) & numeral(line, 2))
}

fn is_open(line: &[u8]) -> bool
    ensures { result ≡ is_open line.now }
{
    let window = numeral(line, 3)
        & (numeral(line, 4) & (numeral(line, 5) & (value_at(line, 5) <= 255)));
    formed(line, b"open", 6) & (numeral(line, 2) & window)
}

fn is_next(line: &[u8]) -> bool
    ensures { result ≡ is_next line.now }
{
    formed(line, b"next", 3) & (numeral(line, 1) & numeral(line, 2))
}

fn is_return(line: &[u8]) -> bool
    ensures { result ≡ is_return line.now }
{
    formed(line, b"return", 2) & good_code(field(line, 1))
}

impl Line {
    // With its byte 10 it fills a buffer.
    pub const LONGEST: usize = 65_535;

    pub fn read(line: &[u8]) -> Line
        ensures { result ≡ line_of line.now }
    {
        if is_begin(line) {
            return Line::Begin {
                units: value_at(line, 1),
                time: VirtualTime(value_at(line, 2)),
            };
        }
        if formed(line, b"write", 3) {
            return Line::Write;
        }
        if is_open(line) {
            return Line::Open(Window {
                from: EventId(value_at(line, 2)),
                to: EventId(value_at(line, 3)),
                limit: value_at(line, 4),
                desc: value_at(line, 5),
            });
        }
        if is_next(line) {
            return Line::Next {
                handle: value_at(line, 1),
                cap: value_at(line, 2),
            };
        }
        if is_return(line) {
            return Line::Return;
        }
        Line::Bad
    }
}
