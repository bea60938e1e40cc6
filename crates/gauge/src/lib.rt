// What the benchmarks call from Rust: thin exports over the crates that they measure, and nothing that the host itself uses.
#![tactic(auto)]

ghost use Rattle.std.specs.Prelude.{◌≡◌, ◌/◌, length};
ghost use Rattle.text.specs.Utf8.{utf8};
ghost use Rattle.gauge.specs.Fields.{field_sum};

#[unsafe(no_mangle)]
pub extern "C" fn gauge_utf8(s: &[u8]) -> bool
    ensures { result ≡ utf8 s.now }
{
    text::utf8::valid(s)
}

// The sum, modulo 2^64, of all the pairs of fields that the slice has whole: 4 bytes, and the 8 behind them.
#[unsafe(no_mangle)]
pub extern "C" fn gauge_fields(s: &[u8]) -> u64
    ensures { result ≡ field_sum (length s.now / 12) s.now 0 0 }
{
    let mut sum: u64 = 0;
    for i in 0..s.len() / 12 {
        let at = 12 * i;
        let short = u64::from(le::get::<u32>(s, at));
        let long = le::get::<u64>(s, at + 4);
        sum = sum.wrapping_add(short).wrapping_add(long);
    }
    sum
}
