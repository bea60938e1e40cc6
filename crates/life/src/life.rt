// The steps of a life. A line that begins with no step's word is a heading.
use crate::buffers::{Buffers, front};
use crate::lay::{Call, DATA, TOPIC, word_at};
use crate::{calls, say, show, state, words};
use cases::{number, number_or, size};
use host::Host;
use mounts::look::look_up;
use mounts::mount::mount;
use record::EventId;
use saying::word;
use streams::Streams;
use text::lines::field;
use writes::stage::ingress;

// What a step asks of the host. A call has its arguments at an address.
#[derive(Clone, Copy)]
enum Ask {
    State,
    Mount,
    LookUp,
    Begin,
    Return,
    Call(Call, u64),
}

impl Ask {
    // A call is named with the arguments that are laid at 8; or `call name address`, and `call ingress`, which has no address.
    fn of(l: &[u8]) -> Option<Ask> {
        match field(l, 0) {
            b"state" => Some(Ask::State),
            b"mount" => Some(Ask::Mount),
            b"lookup" => Some(Ask::LookUp),
            b"begin" => Some(Ask::Begin),
            b"return" => Some(Ask::Return),
            b"call" => {
                let call = Call::named(field(l, 1)).unwrap_or(Call::Write);
                Some(Ask::Call(call, number(l, 2)))
            }
            w => Call::named(w).map(|call| Ask::Call(call, 8)),
        }
    }
}

// begin most time [length]: what begin does not use is 0xEE.
fn begin_args(l: &[u8]) -> [u8; 136] {
    let mut args = [0xEEu8; 136];
    le::put::<u64>(&mut args, 24, number(l, 1));
    le::put::<u64>(&mut args, 48, number(l, 2));
    args
}

// A step with as much of each buffer as is lent: what is answered is said, and the next state given.
fn asked(streams: &mut Streams, h: Host, ask: Ask, l: &[u8], b: &mut Buffers) -> Host {
    let n = b.lent;
    let memory = front(&mut b.memory, n.memory);
    let staging = front(&mut b.staging, n.staging);
    let card = front(&mut b.card, n.card);
    let text = le::front(&b.manifest, n.manifest);
    let index = front(&mut b.index, n.index);
    match ask {
        Ask::State => state::set(h, l),
        Ask::Mount => say::mounted(streams, mount(staging, card, text, index, size(l, 1))),
        Ask::LookUp => {
            let id = EventId(number(l, 1));
            say::found(streams, look_up(h, staging, card, text, index, id));
            h
        }
        Ask::Begin => {
            let args = begin_args(l);
            let given = le::front(&args, number_or(l, 3, 128) as usize);
            say::own(streams, h.begin(staging, card, text, given))
        }
        Ask::Return => {
            let code = words::returned(l);
            say::returned(streams, h.module_return(staging, card, text, index, code))
        }
        Ask::Call(Call::Ingress, _) => {
            let topic = le::cut(memory, TOPIC, word_at(memory, 16) as usize);
            let payload = le::cut(memory, DATA, word_at(memory, 32) as usize);
            say::own(streams, ingress(h, staging, card, text, topic, payload))
        }
        Ask::Call(call, at) => calls::by_module(streams, h, call, at, b),
    }
}

// A step, and what it has changed.
pub(crate) fn step(streams: &mut Streams, was: Host, l: &[u8], b: &mut Buffers) -> Host {
    word(streams, l);
    b.by_hand(l);
    let before = show::sums(b);
    let is = match Ask::of(l) {
        None => was,
        Some(ask) => {
            word(streams, b":");
            asked(streams, was, ask, l, b)
        }
    };
    show::state(streams, was, is);
    show::changed(streams, &before, &show::sums(b));
    word(streams, b"\n");
    is
}
