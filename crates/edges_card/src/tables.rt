// The table that goes with a part of the card.
use card::walk::check_chain;
use record::EventId;

// More entries than a case's part has records.
pub(crate) const ENTRIES: usize = 16;

// That of a part whose records are numbered from first on; no entry where it is no chain.
pub(crate) fn table_of(s: &[u8], first: u64) -> [u32; ENTRIES] {
    let mut table = [0u32; ENTRIES];
    if 9223372036854775808 < first {
        return table;
    }
    let Ok(next) = check_chain(s, EventId(first)) else {
        return table;
    };
    if next.0 - first <= ENTRIES as u64 {
        card::index::enter(s, EventId(first), &mut table, 0, 0);
    }
    table
}
