// Whole buffers, made all 0.
ghost use Rattle.std.specs.Prelude.{◌≡◌, cond, length};
ghost use Rattle.le.specs.Splice.{zeros};

// All 0 where t holds, else as it was.
pub fn clear_if(t: bool, s: &mut [u8])
    ensures { s.new ≡ cond t (zeros (length s.old)) s.old }
{
    if t {
        let n = s.len();
        le::zero_range(s, 0, n);
    }
}
