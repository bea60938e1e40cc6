// What the box itself calls: mount, begin, ingress, return.
ghost use Rattle.std.specs.Prelude.{◌≡◌};
ghost use Rattle.host.specs.Hosts.{lent_as};
ghost use Rattle.mounts.specs.Mount.{mounted, mount_index};
ghost use Rattle.host.specs.Begin.{begin_answer, begin_staging};
ghost use Rattle.writes.specs.Stage.{ingress_answer, ingress_staging};
ghost use Rattle.host.specs.Ending.{return_answer, return_card, return_index, return_staging};
ghost use Rattle.loafheron.specs.Crossing.{host_said};
ghost use Rattle.loafheron.specs.Answers.{mount_reply, reply, return_reply};

use crate::answers::{mount_reply, reply, return_reply};
use crate::hosts::host_said;
use crate::{MountReply, Reply, ReturnReply, State};
use mounts::mount::mount;
use writes::stage::ingress;

#[unsafe(no_mangle)]
pub extern "C" fn loafheron_mount(
    staging: &[u8],
    card: &[u8],
    manifest: &[u8],
    index: &mut [u32],
    used: u64,
) -> MountReply
    ensures answer { result ≡ mount_reply (mounted (lent_as staging.now card.now «manifest».now) index.old used) }
    ensures entries { index.new ≡ mount_index (lent_as staging.now card.now «manifest».now) index.old used }
{
    let m = mount(staging, card, manifest, index, used as usize);
    mount_reply(m)
}

#[unsafe(no_mangle)]
pub extern "C" fn loafheron_begin(
    state: State,
    staging: &mut [u8],
    card: &[u8],
    manifest: &[u8],
    args: &[u8],
) -> Reply
    ensures answer { result ≡ reply (begin_answer (lent_as staging.old card.now «manifest».now) (host_said state) args.now) }
    ensures bytes { staging.new ≡ begin_staging (lent_as staging.old card.now «manifest».now) (host_said state) args.now }
{
    let h = host_said(state);
    let a = h.begin(staging, card, manifest, args);
    reply(a)
}

#[unsafe(no_mangle)]
pub extern "C" fn loafheron_ingress(
    state: State,
    staging: &mut [u8],
    card: &[u8],
    manifest: &[u8],
    topic: &[u8],
    payload: &[u8],
) -> Reply
    ensures answer { result ≡ reply (ingress_answer (lent_as staging.old card.now «manifest».now) (host_said state) topic.now payload.now) }
    ensures bytes { staging.new ≡ ingress_staging (lent_as staging.old card.now «manifest».now) (host_said state) topic.now payload.now }
{
    let h = host_said(state);
    let a = ingress(h, staging, card, manifest, topic, payload);
    reply(a)
}

#[unsafe(no_mangle)]
pub extern "C" fn loafheron_return(
    state: State,
    staging: &mut [u8],
    card: &mut [u8],
    manifest: &[u8],
    index: &mut [u32],
    code: i64,
) -> ReturnReply
    ensures answer { result ≡ return_reply (return_answer (lent_as staging.old card.old «manifest».now) index.old (host_said state) code) }
    ensures onto { card.new ≡ return_card (lent_as staging.old card.old «manifest».now) index.old (host_said state) code }
    ensures entries { index.new ≡ return_index (lent_as staging.old card.old «manifest».now) index.old (host_said state) code }
    ensures staged { staging.new ≡ return_staging (lent_as staging.old card.old «manifest».now) index.old (host_said state) code }
{
    let h = host_said(state);
    let r = h.module_return(staging, card, manifest, index, code);
    return_reply(r)
}
