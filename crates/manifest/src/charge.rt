// The charge rule: what a write costs.
ghost use Rattle.std.specs.Prelude.{◌≡◌};
ghost use Rattle.manifest.specs.Charge.{charge_named};

// Its two editions. Both stay in use: the manifest names one.
#[derive(Clone, Copy)]
pub enum Charge {
    First,
    Second,
}

impl Charge {
    // They are numbered from 1.
    pub(crate) const EDITIONS: u64 = 2;

    // The edition of a number that a line names; the first where no line does, which is 0.
    pub(crate) fn named(said: u64) -> Charge
        ensures { result ≡ charge_named said }
    {
        if said == 2 {
            Charge::Second
        } else {
            Charge::First
        }
    }
}
