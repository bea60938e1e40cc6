// The stored form, tested.
ghost use Rattle.std.specs.Prelude.{◌≡◌};
ghost use Rattle.value.specs.Forms.{good_stored};

use crate::cell::Cell;

// Whether a payload has just the stored form: its numbers are those that storing it would write, the bytes that no type uses are 0, and there is nothing behind it.
pub fn good_stored(b: &[u8]) -> bool
    ensures { result ≡ good_stored b.now }
{
    if b.len() < Cell::SIZE {
        return false;
    }
    let c = crate::cell::read_cell(b, 0);
    let v = crate::decode::decode(c);
    let Ok(len) = crate::check::check_decoded(b, v) else {
        return false;
    };
    if len != b.len() as u64 {
        return false;
    }
    let d = crate::store::stored_cell(c.flags, v);
    if c == d {
        le::zero_between(b, Cell::UNUSED, Cell::SIZE)
    } else {
        false
    }
}
