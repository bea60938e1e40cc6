// Numbers in bytes, and runs of bytes in lent buffers: what every other crate reads and writes with.
#![tactic(auto)]

ghost use Rattle.std.specs.Prelude.{◌≡◌, ℕ, ◌+◌, ◌-◌, ◌^◌, ◌<◌, ◌≤◌, length, take, drop};
ghost use Rattle.std.proofs.Common.{rules};
ghost use Rattle.le.specs.Le.{le_at, le_bytes};
ghost use Rattle.le.specs.Splice.{splice, zeros, part, all_zero};

// ---- parts: as many of the bytes as there are, so that no caller has to ask first

// The first n of them.
pub fn front<T>(s: &[T], n: usize) -> &[T]
    ensures { result.now ≡ take n s.now }
{
    &s[..n.min(s.len())]
}

// The bytes from `at` on. (By `at.min(s.len())` a field of a line is found a tenth slower.)
pub fn tail(s: &[u8], at: usize) -> &[u8]
    ensures { result.now ≡ drop at s.now }
{
    if s.len() < at { &s[..0] } else { &s[at..] }
}

// The n bytes from `at` on. With `front` and `tail` it takes the parts that may be cut short: their callers' proofs say `take`, `drop` and
// `part`, and not what the borrow checker makes of a range.
pub fn cut(s: &[u8], at: usize, n: usize) -> &[u8]
    ensures { result.now ≡ part at n s.now }
{
    front(tail(s, at), n)
}

// ---- numbers

// The number of `w` bytes that stands at `at`, at any width up to 8: the one proof of little-endian reading.
fn read_le(s: &[u8], at: usize, w: usize) -> u64
    requires w_bound { w ≤ 8 }
    requires w_in_bounds { at + w ≤ length s.now }
    ensures { result ≡ le_at w s.now at }
{
    let mut v: u64 = 0;
    for i in 0..w {
        let byte = u64::from(s[at + i]);
        v += byte << (8 * i);
    }
    v
}

// The `w` lowest bytes of `v`, written at `at`, at any width: the one proof of little-endian writing.
fn put_le(s: &mut [u8], at: usize, w: usize, v: u64)
    requires { at + w ≤ length s.old }
    ensures { s.new ≡ splice s.old at (le_bytes w v) }
{
    let mut rest = v;
    for i in 0..w {
        s[at + i] = (rest % 256) as u8;
        rest = rest / 256;
    }
}

// What may stand in bytes: a number by its width, of one value each. Reading and writing are proved once for all of them.
pub trait Number: Copy {
    const WIDTH: usize;

    ghost WIDTH: { ℕ };

    ghost value: { Self → ℕ };

    // The number with a value that its bytes have room for.
    fn narrowed(n: u64) -> Self
        requires { n < 256 ^ WIDTH }
        ensures { value result ≡ n };

    fn widened(self) -> u64
        ensures { result ≡ value self };

    ghost short: { WIDTH ≤ 8 };

    ghost distinct: { (m n : Self) → value m ≡ value n → m ≡ n };
}

impl Number for u8 {
    const WIDTH: usize = 1;

    ghost WIDTH = { 1 };

    ghost value = { λ n. n };

    ghost short = { Prim.search rules };

    ghost distinct = { λ m n e. e };

    fn narrowed(n: u64) -> u8 {
        n as u8
    }

    fn widened(self) -> u64 {
        u64::from(self)
    }
}

impl Number for u32 {
    const WIDTH: usize = 4;

    ghost WIDTH = { 4 };

    ghost value = { λ n. n };

    ghost short = { Prim.search rules };

    ghost distinct = { λ m n e. e };

    fn narrowed(n: u64) -> u32 {
        n as u32
    }

    fn widened(self) -> u64 {
        u64::from(self)
    }
}

impl Number for u64 {
    const WIDTH: usize = 8;

    ghost WIDTH = { 8 };

    ghost value = { λ n. n };

    ghost short = { Prim.search rules };

    ghost distinct = { λ m n e. e };

    fn narrowed(n: u64) -> u64 {
        n
    }

    fn widened(self) -> u64 {
        self
    }
}

// The width is known here, a call below `get`, so that the compiler has made one load of the bytes before a caller's test, as one against 0, can take them apart
// (DECISIONS, D34).
fn read<N: Number>(s: &[u8], at: usize) -> u64
    requires { at + N.WIDTH ≤ length s.now }
    ensures { result ≡ le_at N.WIDTH s.now at }
{
    read_le(s, at, N::WIDTH)
}

// The number that stands at `at`.
pub fn get<N: Number>(s: &[u8], at: usize) -> N
    requires { at + N.WIDTH ≤ length s.now }
    ensures { N.value result ≡ le_at N.WIDTH s.now at }
{
    N::narrowed(read::<N>(s, at))
}

// It is written at `at`.
pub fn put<N: Number>(s: &mut [u8], at: usize, n: N)
    requires { at + N.WIDTH ≤ length s.old }
    ensures { s.new ≡ splice s.old at (le_bytes N.WIDTH (N.value n)) }
{
    put_le(s, at, N::WIDTH, n.widened());
}

// ---- runs of bytes

// All of `src`, written over `dst` from `at` on. (A `for`, as `copy_from_slice` asks for the C library's `memmove`: whoever links an archive would have to bring one more name.)
pub fn copy_at(src: &[u8], dst: &mut [u8], at: usize)
    requires { at + length src.now ≤ length dst.old }
    ensures { dst.new ≡ splice dst.old at src.now }
{
    for i in 0..src.len() {
        dst[at + i] = src[i];
    }
}

// As much of `src` as `dst` has room for from `at` on, written there: no caller has to ask first.
pub fn lay(src: &[u8], dst: &mut [u8], at: usize)
    ensures { dst.new ≡ splice dst.old at src.now }
{
    if dst.len() <= at {
        return;
    }
    let room = dst.len() - at;
    copy_at(front(src, room), dst, at);
}

// The `n` bytes of `src` from `a` on, written over `dst` from `at` on.
pub fn copy_part(src: &[u8], a: usize, n: usize, dst: &mut [u8], at: usize)
    requires n_in_bounds { a + n ≤ length src.now }
    requires n_in_bounds_2 { at + n ≤ length dst.old }
    ensures { dst.new ≡ splice dst.old at (part a n src.now) }
{
    copy_at(cut(src, a, n), dst, at);
}

// Zeros from `from` up to, not including, `to`.
pub fn zero_range(dst: &mut [u8], from: usize, to: usize)
    requires from_le_to { from ≤ to }
    requires to_in_bounds { to ≤ length dst.old }
    ensures { dst.new ≡ splice dst.old from (zeros (to - from)) }
{
    dst[from..to].fill(0);
}

// Whether every byte from `from` up to, not including, `to` is 0: eight bytes at a time, and the last few, fewer than eight, byte by byte.
pub fn zero_between(s: &[u8], from: usize, to: usize) -> bool
    requires from_le_to { from ≤ to }
    requires to_in_bounds { to ≤ length s.now }
    ensures { result ≡ all_zero (part from (to - from) s.now) }
{
    let (eights, others) = cut(s, from, to - from).as_chunks::<8>();
    eights.iter().all(|e| *e == [0; 8]) && others.iter().all(|b| *b == 0)
}
