// Answers on their way to standard output.
ghost use Rattle.std.specs.Prelude.{◌≡◌, ◌≤◌};

use std::fmt;
use std::io::Stdout;

// The first `at` bytes wait for `to`. After a write that fails there is none any more.
// Not std's `BufWriter`: it takes its buffer from an allocator, and this program has none.
#[derive(Drop)]
pub struct Out {
    bytes: [u8; 65536],
    at: usize,
    to: Option<Stdout>,
    ghost room: { at ≤ 65536 },
}

impl Out {
    pub fn new(to: Stdout) -> Self {
        Out {
            bytes: [0; 65536],
            at: 0,
            to: Some(to),
        }
    }

    pub fn is_open(&self) -> bool {
        self.to.is_some()
    }

    pub fn flush(&mut self)
        ensures { self.new.at ≡ 0 }
    {
        if let Some(to) = &self.to {
            if to.write_all(&self.bytes[..self.at]).is_err() {
                self.to = None;
            }
        }
        self.at = 0;
    }

    fn byte(&mut self, b: u8) {
        if self.at == self.bytes.len() {
            self.flush();
        }
        self.bytes[self.at] = b;
        self.at += 1;
    }
}

// No error where a write failed: the program ends quietly then (`is_open`).
impl fmt::Write for Out {
    fn write_str(&mut self, s: &str) -> fmt::Result {
        let text = s.as_bytes();
        let end = self.at + text.len();
        // in one piece where there is room
        if let Some(room) = self.bytes.get_mut(self.at..end) {
            room.copy_from_slice(text);
            self.at = end;
            return Ok(());
        }
        for b in text {
            self.byte(*b);
        }
        Ok(())
    }
}
