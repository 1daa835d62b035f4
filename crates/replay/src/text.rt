// Text in a buffer of its own. What does not fit is left out. Not the library's `InlineText`, as the name of a build need not be text.
ghost use Rattle.std.specs.Prelude.{◌≤◌};

use std::fmt;
use std::fmt::{Display, Write};

#[derive(Drop)]
pub(crate) struct Text<const ROOM: usize> {
    bytes: [u8; ROOM],
    end: usize,
    ghost inside: { end ≤ ROOM },
}

impl<const ROOM: usize> Text<ROOM> {
    pub(crate) fn new() -> Self {
        Text {
            bytes: [0; ROOM],
            end: 0,
        }
    }

    pub(crate) fn bytes(&self) -> &[u8] {
        &self.bytes[..self.end]
    }

    pub(crate) fn is_empty(&self) -> bool {
        self.end == 0
    }

    pub(crate) fn clear(&mut self) {
        self.end = 0;
    }

    fn push(&mut self, b: u8) {
        if self.end < ROOM {
            self.bytes[self.end] = b;
            self.end += 1;
        }
    }

    // Puts bytes that need not be text.
    pub(crate) fn extend(&mut self, bytes: &[u8]) {
        for b in bytes {
            self.push(*b);
        }
    }

    // Puts a value as it is printed.
    pub(crate) fn put(&mut self, value: impl Display + Drop) {
        let _ = write!(self, "{value}");
    }
}

impl<const ROOM: usize> Write for Text<ROOM> {
    fn write_str(&mut self, s: &str) -> fmt::Result {
        self.extend(s.as_bytes());
        Ok(())
    }
}
