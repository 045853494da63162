//! A writer that stops at its first failure, whoever writes to it.
ghost use Rattle.std.specs.Prelude.{◌≡◌, ◌⊎◌, ◌≤◌, length, false, true, IfOk, IfErr};
ghost use Rattle.std.specs.Io.KnownBytes.{WriteAppends};
ghost use Rattle.std.specs.IoError.{error_kind};

use std::io;
use std::io::ErrorKind;

/// Hands bytes on until a write fails, and nothing after that: a buffer before it that is flushed again, or
/// flushed when it goes, writes nothing more. A write that was interrupted may be made again; one that takes no
/// bytes counts as failed.
#[derive(Drop)]
pub struct Stopping<W> {
    inner: W,
    failed: bool,
}

impl<W> Stopping<W> {
    /// No write has failed yet.
    pub fn new(inner: W) -> Stopping<W>
        ensures inner { result.inner ≡ inner }
        ensures going { result.failed ≡ false }
    {
        Stopping {
            inner,
            failed: false,
        }
    }
}

impl<W: io::Write> Stopping<W> {
    /// Hands some of the bytes on, where no write has failed.
    fn hand_on(&mut self, bytes: &[u8]) -> io::Result<usize>
        ensures within { IfOk result (λ count. count ≤ length bytes.now) }
        ensures bytes { WriteAppends (W.contents self.old.inner) (W.contents self.new.inner) result bytes.now }
        ensures stopped { self.old.failed ≡ true → self.new ≡ self.old }
        ensures stops { IfErr result (λ error. (self.new.failed ≡ true) ⊎ (error_kind error ≡ ErrorKind.Interrupted)) }
    {
        if self.failed {
            return Err(io::Error::from(ErrorKind::BrokenPipe));
        }
        match self.inner.write(bytes) {
            Ok(0) => {
                self.failed = true;
                Err(io::Error::from(ErrorKind::WriteZero))
            }
            Ok(count) => Ok(count),
            Err(error) => {
                self.failed = error.kind() != ErrorKind::Interrupted;
                Err(error)
            }
        }
    }
}

impl<W: io::Write> io::Write for Stopping<W> {
    ghost contents = { λ w. W.contents w.inner };

    fn write(&mut self, bytes: &[u8]) -> io::Result<usize> {
        self.hand_on(bytes)
    }

    fn flush(&mut self) -> io::Result<()> {
        if self.failed {
            return Err(io::Error::from(ErrorKind::BrokenPipe));
        }
        self.inner.flush()
    }
}
