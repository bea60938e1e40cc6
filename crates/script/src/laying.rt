// The arguments of a call, laid into memory.
ghost use Rattle.std.specs.Prelude.{◌≡◌, [], ◌∷◌, ◌+◌, ◌≤◌, length};
ghost use Rattle.le.specs.Splice.{splice};
ghost use Rattle.script.specs.Laying.{words, begin_laid, write_laid, open_laid, next_laid};

use crate::Buffer;
use crate::forms::Window;
use record::VirtualTime;
use weave::Weave;

fn put_three(m: &mut [u8], at: usize, a: u64, b: u64, c: u64)
    requires { at + 24 ≤ length m.old }
    ensures { m.new ≡ splice m.old at (words (a ∷ b ∷ c ∷ [])) }
{
    le::put::<u64>(m, at, a);
    le::put::<u64>(m, at + 8, b);
    le::put::<u64>(m, at + 16, c);
}

pub fn begin_args(units: u64, time: VirtualTime) -> [u8; Weave::ARGS]
    ensures { result ≡ begin_laid units time.0 }
{
    let mut args = [0u8; Weave::ARGS];
    le::put::<u64>(&mut args, Weave::RES_MAX, units);
    le::put::<u64>(&mut args, Weave::VIRT_TIME, time.0);
    args
}

pub fn lay_write(memory: &mut Buffer, topic: &[u8], payload: &[u8])
    requires { length topic.now ≤ 65535 }
    ensures { memory.new ≡ write_laid memory.old topic.now payload.now }
{
    let behind = 56 + topic.len();
    put_three(memory, 8, 56, topic.len() as u64, behind as u64);
    put_three(memory, 32, payload.len() as u64, 1, 0);
    le::lay(topic, memory, 56);
    le::lay(payload, memory, behind);
}

pub fn lay_open(memory: &mut Buffer, filter: &[u8], w: Window)
    ensures { memory.new ≡ open_laid memory.old filter.now w }
{
    put_three(memory, 8, 56, filter.len() as u64, w.from.0);
    put_three(memory, 32, w.to.0, w.limit, w.desc);
    le::lay(filter, memory, 56);
}

pub fn lay_next(memory: &mut Buffer, handle: u64, cap: u64)
    ensures { memory.new ≡ next_laid memory.old handle cap }
{
    put_three(memory, 8, handle, 8, cap);
}
