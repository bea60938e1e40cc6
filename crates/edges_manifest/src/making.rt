// Texts of manifests, from how they are shown.
use cases::pattern;

// The text that is made, and how long it is.
#[derive(Drop)]
pub(crate) struct Text {
    bytes: [u8; 132000],
    len: usize,
}

impl Text {
    pub(crate) fn new() -> Text {
        Text {
            bytes: [0; 132000],
            len: 0,
        }
    }

    pub(crate) fn made(&self) -> &[u8] {
        le::front(&self.bytes, self.len)
    }

    // Behind it what is shown by s, as far as there is room.
    fn add(&mut self, s: &[u8]) {
        let mut end = self.len;
        let mut rest = s;
        while let [b, behind @ ..] = rest {
            if self.bytes.len() <= end {
                break;
            }
            let (byte, width) = match *b {
                b'|' => (b'\t', 1),
                b';' => (b'\n', 1),
                b'<' => ((pattern(le::front(behind, 2)) & 0xFF) as u8, 4),
                b => (b, 1),
            };
            self.bytes[end] = byte;
            end += 1;
            rest = le::tail(rest, width);
        }
        self.len = end;
    }

    // What is shown by s, and nothing before it.
    pub(crate) fn make(&mut self, s: &[u8]) {
        self.len = 0;
        self.add(s);
    }

    // Behind it what is shown by s, so many times, as far as there is room.
    pub(crate) fn repeat(&mut self, s: &[u8], times: usize) {
        for _ in 0..times {
            if self.bytes.len() <= self.len {
                return;
            }
            self.add(s);
        }
    }

    // Grants with a topic of n bytes: n + 12 bytes each.
    pub(crate) fn grants(&mut self, times: usize, n: usize) {
        for _ in 0..times {
            self.add(b"grant|1|in|");
            self.repeat(b"t", n);
            self.add(b";");
        }
    }
}
