// The arguments of module calls: the record at an address of the memory, and the texts and buffers it names.
ghost use Rattle.std.specs.Prelude.{◌≡◌, ◌+◌, ◌≤◌};
ghost use Rattle.weave.specs.Args.{record_fine, field_at, write_args, read_args, open_args, next_args, close_handle, bytes_at, topic_fine, filter_fine, out_fine, data_fine, len_fine, filter_bytes};

use le::Number;
use record::EventId;
use text::limits::Limits;
use value::{Span, Value};

#[derive(Clone, Copy)]
pub struct WriteArgs {
    pub topic: Span,
    pub place: u64,
    pub len: u64,
    pub flags: u32,
}

#[derive(Drop)]
pub struct ReadArgs {
    pub topic: Span,
    pub start: EventId,
    pub out: Span,
}

#[derive(Drop)]
pub struct OpenArgs {
    pub topic: Span,
    pub from: EventId,
    pub to: EventId,
    pub limit: u64,
    pub desc: u8,
}

#[derive(Clone, Copy)]
pub struct NextArgs {
    pub handle: u64,
    pub out: Span,
}

// Check 4.
pub fn record_fine(m: &[u8], a: u64, n: u64) -> bool
    ensures { result ≡ record_fine m.now a n }
{
    (a % 8 == 0) & text::span::inside(a, n, m.len() as u64)
}

// A field of the argument record of n bytes at a, 0 where there is no such record. (So every check can be made, whether or not an earlier one failed.)
fn field<N: Number>(m: &[u8], a: u64, n: u64, off: u64) -> N
    requires { off + N.WIDTH ≤ n }
    ensures { N.value result ≡ field_at N.WIDTH m.now a n off }
{
    if record_fine(m, a, n) {
        return le::get(m, (a + off) as usize);
    }
    N::narrowed(0)
}

impl WriteArgs {
    pub const SIZE: u64 = 40;

    // Where its fields lie, here and in the other records: a -5 names a field by this number.
    pub const TOPIC: u64 = 0;

    pub const DATA: u64 = 16;

    pub const LEN: u64 = 24;

    pub const FLAGS: u64 = 32;

    pub fn read(m: &[u8], a: u64) -> WriteArgs
        ensures { result ≡ write_args m.now a }
    {
        WriteArgs {
            topic: Span {
                ptr: field(m, a, WriteArgs::SIZE, WriteArgs::TOPIC),
                len: field(m, a, WriteArgs::SIZE, 8),
            },
            place: field(m, a, WriteArgs::SIZE, WriteArgs::DATA),
            len: field(m, a, WriteArgs::SIZE, WriteArgs::LEN),
            flags: field(m, a, WriteArgs::SIZE, WriteArgs::FLAGS),
        }
    }
}

impl ReadArgs {
    pub const SIZE: u64 = 40;

    pub const TOPIC: u64 = 0;

    pub const OUT: u64 = 24;

    pub fn read(m: &[u8], a: u64) -> ReadArgs
        ensures { result ≡ read_args m.now a }
    {
        ReadArgs {
            topic: Span {
                ptr: field(m, a, ReadArgs::SIZE, ReadArgs::TOPIC),
                len: field(m, a, ReadArgs::SIZE, 8),
            },
            start: EventId(field(m, a, ReadArgs::SIZE, 16)),
            out: Span {
                ptr: field(m, a, ReadArgs::SIZE, ReadArgs::OUT),
                len: field(m, a, ReadArgs::SIZE, 32),
            },
        }
    }
}

impl OpenArgs {
    pub const SIZE: u64 = 48;

    pub const TOPIC: u64 = 0;

    pub const DESC: u64 = 40;

    pub fn read(m: &[u8], a: u64) -> OpenArgs
        ensures { result ≡ open_args m.now a }
    {
        OpenArgs {
            topic: Span {
                ptr: field(m, a, OpenArgs::SIZE, OpenArgs::TOPIC),
                len: field(m, a, OpenArgs::SIZE, 8),
            },
            from: EventId(field(m, a, OpenArgs::SIZE, 16)),
            to: EventId(field(m, a, OpenArgs::SIZE, 24)),
            limit: field(m, a, OpenArgs::SIZE, 32),
            desc: field(m, a, OpenArgs::SIZE, OpenArgs::DESC),
        }
    }
}

impl NextArgs {
    pub const SIZE: u64 = 24;

    pub const OUT: u64 = 8;

    pub fn read(m: &[u8], a: u64) -> NextArgs
        ensures { result ≡ next_args m.now a }
    {
        NextArgs {
            handle: field(m, a, NextArgs::SIZE, 0),
            out: Span {
                ptr: field(m, a, NextArgs::SIZE, NextArgs::OUT),
                len: field(m, a, NextArgs::SIZE, 16),
            },
        }
    }
}

// tl_close has a handle alone.
#[derive(Drop)]
pub struct CloseArgs {}

impl CloseArgs {
    pub const SIZE: u64 = 8;

    pub fn handle(m: &[u8], a: u64) -> u64
        ensures { result ≡ close_handle m.now a }
    {
        field(m, a, CloseArgs::SIZE, 0)
    }
}

// The bytes of a span, as many of them as there are.
pub fn bytes_at(m: &[u8], s: Span) -> &[u8]
    ensures { result.now ≡ bytes_at m.now s }
{
    le::cut(m, s.ptr as usize, s.len as usize)
}

// Check 5 of write and read.
pub fn topic_fine(m: &[u8], s: Span) -> bool
    ensures { result ≡ topic_fine m.now s }
{
    let within = text::span::inside(s.ptr, s.len, m.len() as u64);
    within & text::topic::good_topic(bytes_at(m, s))
}

// Check 5 of open. (Two functions, as 01 has two checks, each with its own definition: they share the span and the bytes.)
pub fn filter_fine(m: &[u8], s: Span) -> bool
    ensures { result ≡ filter_fine m.now s }
{
    let within = text::span::inside(s.ptr, s.len, m.len() as u64);
    within & text::topic::good_filter(bytes_at(m, s))
}

// Check 6 of read and next.
pub fn out_fine(m: &[u8], s: Span) -> bool
    ensures { result ≡ out_fine m.now s }
{
    (s.ptr % 8 == 0) & text::span::inside(s.ptr, s.len, m.len() as u64)
}

impl WriteArgs {
    // Check 6, behind the flags: a value's address, and the payload's span.
    pub fn data_fine(self, m: &[u8]) -> bool
        ensures { result ≡ data_fine m.now self }
    {
        let value = text::flags::is_value(self.flags);
        let span = text::span::inside(self.place, self.len, m.len() as u64);
        (!value | (self.place % 8 == 0)) & span
    }

    // .. then the length of a value.
    pub fn len_fine(self) -> bool
        ensures { result ≡ len_fine self }
    {
        let value = text::flags::is_value(self.flags);
        !value | (self.len == Value::SIZE)
    }
}

// A filter as a cursor keeps it.
pub fn filter_bytes(m: &[u8], s: Span) -> [u8; Limits::FILTER]
    ensures { result ≡ filter_bytes m.now s }
{
    let mut kept = [0u8; Limits::FILTER];
    le::copy_at(le::front(bytes_at(m, s), Limits::FILTER), &mut kept, 0);
    kept
}
