//! The lines of a text that tell of a refusal.
use std::io;

/// Of a line no more bytes than these are looked at.
const LOOKED_AT: usize = 20;

const UNCONNECTED: &[u8] = b"no 9 NotConnected";

/// Hands a text on, and counts its lines that tell of a refusal.
#[derive(Drop)]
pub struct Counting<W> {
    inner: W,
    lines: Lines,
}

/// The lines of a text so far.
#[derive(Drop)]
struct Lines {
    // The beginning of the line that is being written.
    line: [u8; LOOKED_AT],
    len: usize,
    is_blank: bool,
    refused: u64,
    is_unconnected: bool,
}

impl<W> Counting<W> {
    /// Nothing is written yet.
    pub fn new(inner: W) -> Counting<W> {
        Counting {
            inner,
            lines: Lines {
                line: [0; LOOKED_AT],
                len: 0,
                is_blank: true,
                refused: 0,
                is_unconnected: false,
            },
        }
    }

    /// Whether nothing was written.
    pub fn is_blank(&self) -> bool {
        self.lines.is_blank
    }

    /// How many lines tell of a refusal.
    pub fn refused(&self) -> u64 {
        self.lines.refused
    }

    /// Whether one of them is NotConnected.
    pub fn is_unconnected(&self) -> bool {
        self.lines.is_unconnected
    }
}

impl Lines {
    fn take(&mut self, bytes: &[u8]) {
        self.is_blank &= bytes.is_empty();
        for byte in bytes {
            self.take_one(*byte);
        }
    }

    fn take_one(&mut self, byte: u8) {
        if byte == b'\n' {
            self.end_line();
        } else if self.len < LOOKED_AT {
            self.line[self.len] = byte;
            self.len += 1;
        }
    }

    fn end_line(&mut self) {
        let line = self.line.get(..self.len).unwrap_or(b"");
        if line.starts_with(b"no ") {
            self.refused = self.refused.saturating_add(1);
        }
        self.is_unconnected |= line == UNCONNECTED;
        self.len = 0;
    }
}

impl<W: io::Write> io::Write for Counting<W> {
    ghost contents = { λ w. W.contents w.inner };

    fn write(&mut self, bytes: &[u8]) -> io::Result<usize> {
        let count = self.inner.write(bytes)?;
        self.lines.take(bytes.get(..count).unwrap_or(bytes));
        Ok(count)
    }

    fn flush(&mut self) -> io::Result<()> {
        self.inner.flush()
    }
}
