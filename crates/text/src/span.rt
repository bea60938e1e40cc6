// A span of a memory.
ghost use Rattle.std.specs.Prelude.{◌≡◌};
ghost use Rattle.text.specs.Span.{inside};

// Whether (ptr, len) is inside a memory of m bytes. No sum is made, so that none can wrap.
#[tactic(auto, unfolding(crate::specs::Span::inside))]
pub fn inside(ptr: u64, len: u64, m: u64) -> bool
    ensures { result ≡ inside ptr len m }
{
    if m < ptr {
        return false;
    }
    if m - ptr < len {
        return false;
    }
    if len == 0 {
        return true;
    }
    ptr != 0
}
