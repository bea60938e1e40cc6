// The sizes of what is lent, of a manifest, of topics and of filters: 01, "Sizes", and for the grants "The manifest". A record's belong to `Header`, those of
// open cursors to `Cursor`, those of arguments to `Weave` and to each argument record.
#[derive(Drop)]
pub struct Limits {}

// Where a size may be from one number to another, the first is the `LEAST_`.
impl Limits {
    pub const MEMORY: u64 = 1_048_576;

    pub const LEAST_STAGING: u64 = 65_536;

    pub const STAGING: u64 = 1_048_576;

    pub const CARD: u64 = 16_777_216;

    pub const MANIFEST: usize = 65_536;

    pub const MODULES: u64 = 16;

    pub const GRANTS: usize = 64;

    pub const LEAST_TOPIC: usize = 1;

    pub const TOPIC: usize = 2_048;

    pub const FILTER: usize = 64;
}
