// The module calls: the arguments lie at `at` in the module's memory. (Each buffer is a parameter of its own, here and in the other exports: the C interface.)
ghost use Rattle.std.specs.Prelude.{◌≡◌};
ghost use Rattle.manifest.specs.Saying.{charge_of};
ghost use Rattle.host.specs.Hosts.{lent_as};
ghost use Rattle.writes.specs.Stage.{write_answer, write_staging};
ghost use Rattle.reads.specs.Reading.{read_answer, read_memory};
ghost use Rattle.host.specs.Cursors.{open_answer, close_answer};
ghost use Rattle.reads.specs.Paging.{next_answer, next_memory};
ghost use Rattle.loafheron.specs.Crossing.{host_said};
ghost use Rattle.loafheron.specs.Answers.{reply};

use crate::answers::reply;
use crate::hosts::host_said;
use crate::{Reply, State};
use reads::next::next;
use reads::read::read;
use writes::write::write;

#[unsafe(no_mangle)]
pub extern "C" fn loafheron_write(
    state: State,
    memory: &[u8],
    staging: &mut [u8],
    card: &[u8],
    manifest: &[u8],
    at: u64,
) -> Reply
    ensures answer { result ≡ reply (write_answer (charge_of «manifest».now) (lent_as staging.old card.now «manifest».now) (host_said state) memory.now at) }
    ensures bytes { staging.new ≡ write_staging (charge_of «manifest».now) (lent_as staging.old card.now «manifest».now) (host_said state) memory.now at }
{
    let h = host_said(state);
    let a = write(h, memory, staging, card, manifest, at);
    reply(a)
}

#[unsafe(no_mangle)]
pub extern "C" fn loafheron_read(
    state: State,
    memory: &mut [u8],
    staging: &[u8],
    card: &[u8],
    manifest: &[u8],
    at: u64,
) -> Reply
    ensures answer { result ≡ reply (read_answer (lent_as staging.now card.now «manifest».now) (host_said state) memory.old at) }
    ensures bytes { memory.new ≡ read_memory (lent_as staging.now card.now «manifest».now) (host_said state) memory.old at }
{
    let h = host_said(state);
    let a = read(h, memory, staging, card, manifest, at);
    reply(a)
}

#[unsafe(no_mangle)]
pub extern "C" fn loafheron_open(
    state: State,
    memory: &[u8],
    staging: &[u8],
    card: &[u8],
    manifest: &[u8],
    at: u64,
) -> Reply
    ensures { result ≡ reply (open_answer (lent_as staging.now card.now «manifest».now) (host_said state) memory.now at) }
{
    let h = host_said(state);
    let a = h.open(memory, staging, card, manifest, at);
    reply(a)
}

#[unsafe(no_mangle)]
pub extern "C" fn loafheron_next(
    state: State,
    memory: &mut [u8],
    staging: &[u8],
    card: &[u8],
    manifest: &[u8],
    index: &[u32],
    at: u64,
) -> Reply
    ensures answer { result ≡ reply (next_answer (lent_as staging.now card.now «manifest».now) index.now (host_said state) memory.old at) }
    ensures bytes { memory.new ≡ next_memory (lent_as staging.now card.now «manifest».now) index.now (host_said state) memory.old at }
{
    let h = host_said(state);
    let a = next(h, memory, staging, card, manifest, index, at);
    reply(a)
}

#[unsafe(no_mangle)]
pub extern "C" fn loafheron_close(
    state: State,
    memory: &[u8],
    staging: &[u8],
    card: &[u8],
    manifest: &[u8],
    at: u64,
) -> Reply
    ensures { result ≡ reply (close_answer (lent_as staging.now card.now «manifest».now) (host_said state) memory.now at) }
{
    let h = host_said(state);
    let a = h.close(memory, staging, card, manifest, at);
    reply(a)
}
