// Takes on their way: what begin and open make of their arguments, a record put into staging, a page put into memory, bytes laid onto the card. Each
// moves something only where the call's checks found nothing wrong; the checks themselves are the host's.
#![tactic(auto)]

pub mod begun;
pub mod buffers;
pub mod opening;
pub mod page;
pub mod stage;
