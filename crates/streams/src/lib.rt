// Standard input and output, of the programs alone. The first read or write that fails is the last one: after it nothing is read and nothing is written, so that
// what has reached standard output is always the front of what was said, and its error is what the program then ends with.
//
// No contract can say which bytes come in and go out: that is only tested.
#![tactic(auto)]

ghost use Rattle.std.specs.Prelude.{◌≡◌, ◌≤◌, length, take, None, IsSome, IsOk, IsNone, ◌↔◌, IfErr, Some};

use std::io;
use std::io::{Print, Read, Stdin, Stdout};

#[derive(Drop)]
pub struct Streams {
    pub input: Stdin,
    pub output: Stdout,
    pub failed: Option<io::Error>, // the first error
}

impl Streams {
    pub fn of(input: Stdin, output: Stdout) -> Streams
        ensures { result.failed ≡ None }
    {
        Streams {
            input,
            output,
            failed: None,
        }
    }

    // One read: as many bytes as there are by now. 0 at the end of the input, and where it fails.
    pub fn read(&mut self, buffer: &mut [u8]) -> usize
        ensures in_bounds { result ≤ length buffer.new }
        ensures len { result ≡ length (take result buffer.new) }
        ensures first { IsSome self.old.failed → self.new.failed ≡ self.old.failed }
        ensures stopped { IsSome self.new.failed → result ≡ 0 }
    {
        if self.failed.is_some() {
            return 0;
        }
        match self.input.read(buffer) {
            Ok(n) => n,
            Err(e) => {
                self.failed = Some(e);
                0
            }
        }
    }

    // Reads until the buffer is full or the input ends: how many bytes stand at its front.
    pub fn read_full(&mut self, buffer: &mut [u8]) -> usize
        ensures in_bounds { result ≤ length buffer.new }
        ensures len { result ≡ length (take result buffer.new) }
        ensures first { IsSome self.old.failed → self.new.failed ≡ self.old.failed }
    {
        // (How far a step goes only the read knows: no range and no chain has these steps.)
        let mut done = 0;
        while done < buffer.len() {
            let n = self.read(&mut buffer[done..]);
            if n == 0 {
                return done;
            }
            done += n;
        }
        done
    }

    // What a write came to: its error is kept.
    fn keep(&mut self, written: io::Result<()>)
        ensures ok { IsOk written → self.new.failed ≡ self.old.failed }
        ensures err { IfErr written (λ e. self.new.failed ≡ Some e) }
    {
        if let Err(e) = written {
            self.failed = Some(e);
        }
    }

    // One write, where nothing has failed yet.
    fn put<F: FnOnce(&mut Stdout) -> io::Result<()>>(&mut self, write: F)
        requires { F.IsAlwaysCallable write }
        ensures { IsSome self.old.failed → self.new.failed ≡ self.old.failed }
    {
        if self.failed.is_none() {
            let written = write(&mut self.output);
            self.keep(written);
        }
    }

    pub fn write(&mut self, text: &[u8])
        ensures { IsSome self.old.failed → self.new.failed ≡ self.old.failed }
    {
        self.put(|output| output.write_all(text));
    }

    // A number, in base 10.
    pub fn decimal(&mut self, n: u64)
        ensures { IsSome self.old.failed → self.new.failed ≡ self.old.failed }
    {
        self.put(|output| print!(output; "{n}"));
    }

    // A number in base 16.
    pub fn hex(&mut self, n: u64)
        ensures { IsSome self.old.failed → self.new.failed ≡ self.old.failed }
    {
        self.put(|output| print!(output; "{n:x}"));
    }

    // The same, with a zero in front of a single digit: the two digits of a byte.
    pub fn hex_byte(&mut self, n: u64)
        ensures { IsSome self.old.failed → self.new.failed ≡ self.old.failed }
    {
        self.put(|output| print!(output; "{n:02x}"));
    }

    // What all of it came to.
    pub fn outcome(self) -> io::Result<()>
        ensures ok { IsOk result ↔ IsNone self.failed }
        ensures err { IfErr result (λ e. self.failed ≡ Some e) }
    {
        match self.failed {
            None => Ok(()),
            Some(e) => Err(e),
        }
    }
}
