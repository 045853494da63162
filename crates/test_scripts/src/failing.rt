//! A reader and a writer that fail.
use crate::tally::Tally;
use shell_scripts::{FAILED, Stopping, run};
use std::alloc::Global;
use std::io;
use std::io::{BufWriter, Write};

/// Gives some bytes, and then fails.
#[derive(Drop)]
pub struct BrokenReader {
    pub left: usize,
}

impl io::Read for BrokenReader {
    fn read(&mut self, buf: &mut [u8]) -> io::Result<usize> {
        if self.left == 0 || buf.is_empty() {
            return Err(io::Error::from(io::ErrorKind::TimedOut));
        }
        self.left -= 1;
        buf[0] = b'\n';
        Ok(1)
    }
}

/// Takes some bytes, one at a time, and then fails once; what is written after that is counted.
#[derive(Drop)]
pub struct BrokenWriter {
    left: usize,
    pub taken: [u8; 8],
    count: usize,
    pub calls_after: usize,
}

impl io::Write for BrokenWriter {
    fn write(&mut self, buf: &[u8]) -> io::Result<usize> {
        if self.calls_after > 0 {
            self.calls_after = self.calls_after.saturating_add(1);
            return Ok(buf.len());
        }
        if self.left == 0 || self.count >= 8 || buf.is_empty() {
            self.calls_after = 1;
            return Err(io::Error::from(io::ErrorKind::TimedOut));
        }
        self.left -= 1;
        self.taken[self.count] = buf[0];
        self.count += 1;
        Ok(1)
    }

    fn flush(&mut self) -> io::Result<()> {
        Ok(())
    }
}

/// Takes this many bytes.
pub fn broken_after(left: usize) -> BrokenWriter {
    BrokenWriter {
        left,
        taken: [0; 8],
        count: 0,
        calls_after: 0,
    }
}

const SCRIPT: &str = "table\nlog\ntable\n";

/// How many bytes are read before a read fails.
const READS: [usize; 3] = [0, 1, 100];

/// How many bytes are written before a write fails, and what was taken.
const WRITES: [(usize, [u8; 8]); 3] = [
    (0, *b"\0\0\0\0\0\0\0\0"),
    (1, *b"r\0\0\0\0\0\0\0"),
    (7, *b"rows 0\n\0"),
];

/// Runs scripts that can't be read, and such whose text can't be written.
pub fn compare_failures(rt: &HostRuntime) -> io::Result<Tally> {
    let mut tally = Tally::new();
    for left in READS {
        tally.count(is_unread(rt.alloc(), left));
    }
    for (left, taken) in WRITES {
        tally.count(is_cut(rt.alloc(), left, taken));
    }
    tally.count(is_stopped(rt.alloc())?);
    Ok(tally)
}

/// A read that fails is told, and nothing else.
fn is_unread(alloc: Global, left: usize) -> bool {
    let mut text = Vec::new(alloc);
    let status = run(alloc, false, &mut BrokenReader { left }, &mut text);
    status == FAILED && text.as_slice() == b"no 10 Device\n".as_slice()
}

/// After this many bytes were written no other write is tried.
fn is_cut(alloc: Global, left: usize, taken: [u8; 8]) -> bool {
    let mut writer = broken_after(left);
    let status = run(alloc, false, &mut SCRIPT.as_bytes(), &mut writer);
    status == FAILED && writer.calls_after == 1 && writer.taken == taken
}

/// Nor is one tried where a small buffer is before the writer, which is flushed at the end and when it goes.
fn is_stopped(alloc: Global) -> io::Result<bool> {
    let mut broken = broken_after(2);
    let status = run_gathered(alloc, &mut broken)?;
    Ok(status == FAILED && broken.calls_after == 1 && broken.taken == *b"ro\0\0\0\0\0\0")
}

/// Runs the script through a small buffer. Gives the exit status, or 0 where it was flushed.
fn run_gathered(alloc: Global, broken: &mut BrokenWriter) -> io::Result<u8> {
    let mut writer = BufWriter::with_capacity(alloc, 4, Stopping::new(broken))?;
    let status = run(alloc, false, &mut SCRIPT.as_bytes(), &mut writer);
    Ok(if writer.flush().is_err() { status } else { 0 })
}
