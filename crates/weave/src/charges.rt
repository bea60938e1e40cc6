// What a write costs.
ghost use Rattle.std.specs.Prelude.{◌≡◌};
ghost use Rattle.text.specs.Sizes.{total_len};
ghost use Rattle.manifest.specs.Charge.{charge_by};

use crate::sums::record_eighths;
use manifest::charge::Charge;

// By a rule, for a topic and a payload of these lengths. It is worked out in eighths, as the record's size itself need not be a number of 64 bits; 64 bytes are
// eight of them.
pub fn write_charge(rule: Charge, topic: u64, payload: u64) -> u64
    ensures { result ≡ charge_by rule (total_len topic payload) }
{
    let eighths = record_eighths(topic, payload);
    match rule {
        Charge::First => 1 + eighths,
        Charge::Second => 4 + (eighths + 7) / 8,
    }
}
