// How an answer crosses: the number of its code, its value, its field, its state.
ghost use Rattle.std.specs.Prelude.{◌≡◌};
ghost use Rattle.loafheron.specs.Answers.{mount_reply, reply, outcome_of, return_reply};

use crate::hosts::state_of;
use crate::{MountReply, Outcome, Reply, ReturnReply};
use host::{Answer, Fate, Mounted, Returned};

pub(crate) fn mount_reply(m: Mounted) -> MountReply
    ensures { result ≡ mount_reply m }
{
    let c = m.code;
    let code = c.number();
    let h = m.host;
    let state = state_of(h);
    MountReply {
        code,
        at: m.at as u64,
        state,
    }
}

pub(crate) fn reply(a: Answer) -> Reply
    ensures { result ≡ reply a }
{
    let c = a.code;
    let code = c.number();
    let h = a.host;
    let state = state_of(h);
    Reply {
        code,
        value: a.value,
        field: a.field,
        state,
    }
}

fn outcome_of(f: Fate) -> Outcome
    ensures { result ≡ outcome_of f }
{
    match f {
        Fate::Refused(c) => Outcome {
            kind: 0,
            code: c.number(),
            events: 0,
            bytes: 0,
        },
        Fate::Discarded(c) => Outcome {
            kind: 1,
            code: c.number(),
            events: 0,
            bytes: 0,
        },
        Fate::Running => Outcome {
            kind: 2,
            code: 0,
            events: 0,
            bytes: 0,
        },
        Fate::Committed {
            events: e,
            bytes: b,
        } => Outcome {
            kind: 3,
            code: 0,
            events: e,
            bytes: b as u64,
        },
    }
}

pub(crate) fn return_reply(r: Returned) -> ReturnReply
    ensures { result ≡ return_reply r }
{
    let f = r.fate;
    let outcome = outcome_of(f);
    let h = r.host;
    let state = state_of(h);
    ReturnReply { outcome, state }
}
