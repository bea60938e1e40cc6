// The pointer of a stored value when it is handed to a module.
ghost use Rattle.std.specs.Prelude.{◌≡◌, ◌+◌, ◌<◌, ◌≤◌, ◌^◌, length};
ghost use Rattle.value.specs.Shown.{shown_at};

use crate::Value;

// The payload at `at` of a buffer, as a module sees it at address `address`. Both bounds hold of any record that fits an out buffer inside memory.
pub fn show_value(buf: &mut [u8], at: usize, address: u64)
    requires at_in_bounds { at + 32 ≤ length buf.old }
    requires address_bound { address + 32 < 2 ^ 64 }
    ensures { buf.new ≡ shown_at address at buf.old }
{
    let t = le::get::<u32>(buf, at);
    if (t == 5) | (t == 9) {
        le::put::<u64>(buf, at + 8, address + Value::SIZE);
    }
}
