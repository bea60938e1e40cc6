// The flags of a write.
ghost use Rattle.std.specs.Prelude.{◌≡◌};
ghost use Rattle.text.specs.Flags.{good_flags, is_value};

// Of the bits 0 (raw) and 1 (value) just one is set; bit 3 may be; no other is.
pub fn good_flags(f: u32) -> bool
    ensures { result ≡ good_flags f }
{
    let other = f & 0xFFFF_FFF4;
    if other != 0 {
        return false;
    }
    let kind = f & 3;
    u32::count_ones(kind) == 1
}

// The payload is a value.
pub fn is_value(f: u32) -> bool
    ensures { result ≡ is_value f }
{
    (f == 2) | (f == 10)
}
