// begin.
ghost use Rattle.std.specs.Prelude.{◌≡◌};
ghost use Rattle.host.specs.Hosts.{lent_as};
ghost use Rattle.host.specs.Begin.{begin_answer, begin_staging};
ghost use Rattle.takes.specs.Begun.{begun};

use crate::{Answer, Host};
use takes::begun::begun;
use takes::buffers::clear_if;
use weave::codes::need;
use weave::{Code, Weave};

impl Host {
    pub fn begin(self, staging: &mut [u8], card: &[u8], manifest: &[u8], args: &[u8]) -> Answer
        ensures answer { result ≡ begin_answer (lent_as staging.old card.now «manifest».now) self args.now }
        ensures bytes { staging.new ≡ begin_staging (lent_as staging.old card.now «manifest».now) self args.now }
    {
        let w = self.weave;
        let e = self.enter(staging, card, manifest);
        let one = e.check;
        let two = need(!w.running, Code::NotNow);
        let three = need(!self.faulted, Code::Denied);
        let four = need(args.len() == Weave::ARGS, Code::Bad);
        let check = one.then(two.then(three.then(four)));
        let next = self.with_weave(begun(args));
        clear_if(check.fine(), staging);
        self.settle(check.plain(), 0, next)
    }
}
