// Lines printed into a buffer.
ghost use Rattle.std.specs.Prelude.{◌≡◌, [], ◌∷◌, ◌+◌, ◌≤◌, length};
ghost use Rattle.text.specs.Decimal.{decimal};
ghost use Rattle.script.specs.Saying.{Put, Prints, answer_text, said_answer};

use crate::Buffer;
use weave::Code;

// What is printed, and where the next byte goes.
#[derive(Drop)]
pub struct Printer<'a> {
    pub out: &'a mut [u8],
    pub at: usize,
}

impl Printer<'_> {
    pub fn byte(&mut self, b: u8)
        requires { self.old.at + 1 ≤ length self.old.out.now }
        ensures { Prints self.old self.new (b ∷ []) }
    {
        self.out[self.at] = b;
        self.at += 1;
    }

    pub fn bytes(&mut self, f: &[u8])
        requires { self.old.at + length f.now ≤ length self.old.out.now }
        ensures { Prints self.old self.new f.now }
    {
        le::copy_at(f, self.out, self.at);
        self.at += f.len();
    }

    fn digits(&mut self, n: u64)
        requires { self.old.at + 20 ≤ length self.old.out.now }
        ensures put { Prints self.old self.new (decimal n) }
        ensures upper_bound { self.new.at ≤ self.old.at + 20 }
    {
        text::decimal::put_number(self.out, self.at, n);
        self.at += text::decimal::digit_count(n);
    }

    // A field, with its tab.
    pub fn field(&mut self, f: &[u8])
        requires { self.old.at + 1 + length f.now ≤ length self.old.out.now }
        ensures { Prints self.old self.new (9 ∷ f.now) }
    {
        self.byte(b'\t');
        self.bytes(f);
    }

    // A number, with its tab.
    pub fn numeral(&mut self, n: u64)
        requires { self.old.at + 21 ≤ length self.old.out.now }
        ensures put { Prints self.old self.new (9 ∷ decimal n) }
        ensures upper_bound { self.new.at ≤ self.old.at + 21 }
    {
        self.byte(b'\t');
        self.digits(n);
    }

    // What a call is answered with, and its tab.
    pub fn answer(&mut self, c: Code, v: u64)
        requires { self.old.at + 22 ≤ length self.old.out.now }
        ensures put { Prints self.old self.new (9 ∷ answer_text c v) }
        ensures upper_bound { self.new.at ≤ self.old.at + 22 }
    {
        if c.fine() {
            self.numeral(v);
        } else {
            self.field(b"-");
            self.digits(c.number().unsigned_abs());
        }
    }
}

// A word, and what a call is answered with, at the front of a buffer: how many bytes that are.
// (A whole line always stands at the front. So what says one takes the buffer and no printer, whose place each contract would have to name as 0.)
pub fn say_answer(out: &mut Buffer, word: &[u8], c: Code, v: u64) -> usize
    requires { length word.now ≤ 9 }
    ensures put { Put out.old out.new 0 (said_answer word.now c v) result }
    ensures upper_bound { result ≤ 32 }
{
    let mut p = Printer { out, at: 0 };
    p.bytes(word);
    p.answer(c, v);
    p.byte(b'\n');
    p.at
}
