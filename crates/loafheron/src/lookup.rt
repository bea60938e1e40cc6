// Look-up: where the record lies, for a caller that holds the buffers itself. And the size of a state.
ghost use Rattle.std.specs.Prelude.{◌≡◌};
ghost use Rattle.host.specs.Hosts.{lent_as};
ghost use Rattle.mounts.specs.Mount.{looked};
ghost use Rattle.mounts.specs.Places.{place_of};
ghost use Rattle.loafheron.specs.Crossing.{host_said};
ghost use Rattle.loafheron.specs.Places.{place_said, found_at};

use crate::hosts::host_said;
use crate::{Place, State};
use mounts::Side;
use mounts::look::place_of;
use record::EventId;

impl State {
    // Its bytes, as a C program counts them.
    pub const SIZE: u64 = 616;
}

#[unsafe(no_mangle)]
pub extern "C" fn loafheron_state_size() -> u64
    ensures { result ≡ 616 }
{
    State::SIZE
}

impl Place {
    pub const NOWHERE: u64 = 0;

    pub const CARD: u64 = 1;

    pub const STAGING: u64 = 2;

    fn said(there: Option<mounts::Place>) -> Place
        ensures { result ≡ place_said there }
    {
        let Some(p) = there else {
            return Place {
                buffer: Place::NOWHERE,
                at: 0,
                len: 0,
            };
        };
        let buffer = match p.side {
            Side::Card => Place::CARD,
            Side::Staging => Place::STAGING,
        };
        Place {
            buffer,
            at: p.at as u64,
            len: p.len as u64,
        }
    }
}

#[unsafe(no_mangle)]
pub extern "C" fn loafheron_look_up(
    state: State,
    staging: &[u8],
    card: &[u8],
    manifest: &[u8],
    index: &[u32],
    id: u64,
) -> Place
    ensures place { result ≡ place_said (place_of (lent_as staging.now card.now «manifest».now) index.now (host_said state) id) }
    ensures bytes { found_at (lent_as staging.now card.now «manifest».now) result ≡ looked (lent_as staging.now card.now «manifest».now) index.now (host_said state) id }
{
    let h = host_said(state);
    let p = place_of(h, staging, card, manifest, index, EventId(id));
    Place::said(p)
}
