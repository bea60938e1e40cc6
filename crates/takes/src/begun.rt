// What begin makes of its 128 bytes.
ghost use Rattle.std.specs.Prelude.{◌≡◌, ◌+◌, ◌≤◌};
ghost use Rattle.takes.specs.Begun.{arg_at, trace_of, begun};

use record::{Header, VirtualTime};
use weave::Weave;

fn arg_at(args: &[u8], off: usize) -> u64
    requires { off + 8 ≤ 128 }
    ensures { result ≡ arg_at args.now off }
{
    if args.len() == Weave::ARGS {
        return le::get::<u64>(args, off);
    }
    0
}

fn trace_of(args: &[u8]) -> [u8; Header::TRACE_SIZE]
    ensures { result ≡ trace_of args.now }
{
    let mut trace = [0u8; Header::TRACE_SIZE];
    le::copy_at(
        le::cut(args, Weave::TRACE, Header::TRACE_SIZE),
        &mut trace,
        0,
    );
    trace
}

pub fn begun(args: &[u8]) -> Weave
    ensures { result ≡ begun args.now }
{
    let most = arg_at(args, Weave::RES_MAX);
    let time = arg_at(args, Weave::VIRT_TIME);
    let trace = trace_of(args);
    Weave::begun(most, VirtualTime(time), trace)
}
