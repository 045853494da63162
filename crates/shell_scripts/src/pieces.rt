//! Bytes to a writer: all of them, or a beginning where a write fails.
ghost use Rattle.std.specs.Prelude.{flat_map, length, ◌≤◌, IfOk};
ghost use Rattle.std.specs.Io.KnownBytes.{WriteAppends};
ghost use Rattle.shell_scripts.specs.Printed.{Prints, piece_text, shown, digits_text};

use crate::words::is_alphanumeric;
use hex::encode_to_slice;
use itoa::Buffer;
use record_key::{Key, Value};
use std::io;

/// A part of a printed line.
#[derive(Clone, Copy)]
pub enum Piece<'a> {
    /// The text itself.
    Text(&'a str),
    /// A key: letters and digits for themselves, else the digits of its bytes.
    Key(&'a Key),
    /// A value: the same, and a dot where it is empty.
    Value(&'a Value),
    /// A number in decimal.
    Number(u64),
}

/// Writes the pieces, one after another.
pub fn print<W: io::Write>(writer: &mut W, pieces: &[Piece<'_>]) -> io::Result<()>
    ensures { Prints (W.contents writer.old) (W.contents writer.new) result (flat_map piece_text pieces.now) }
{
    for piece in pieces {
        put_piece(writer, piece)?;
    }
    Ok(())
}

fn put_piece<W: io::Write>(writer: &mut W, piece: &Piece<'_>) -> io::Result<()>
    ensures { Prints (W.contents writer.old) (W.contents writer.new) result (piece_text piece.now) }
{
    match piece {
        Piece::Text(text) => put(writer, text.as_bytes()),
        Piece::Key(key) => put_shown(writer, key.as_bytes()),
        Piece::Value(value) => put_shown(writer, value.as_bytes()),
        Piece::Number(number) => put(writer, Buffer::new().format(*number).as_bytes()),
    }
}

/// Writes the bytes of a key or a value.
fn put_shown<W: io::Write>(writer: &mut W, bytes: &[u8]) -> io::Result<()>
    requires { length bytes.now ≤ 120 }
    ensures { Prints (W.contents writer.old) (W.contents writer.new) result (shown bytes.now) }
{
    match bytes {
        [] => put(writer, b"."),
        bytes if is_alphanumeric(bytes) => put(writer, bytes),
        _ => put_digits(writer, bytes),
    }
}

/// Writes a number sign and two hexadecimal digits for each byte.
fn put_digits<W: io::Write>(writer: &mut W, bytes: &[u8]) -> io::Result<()>
    requires { length bytes.now ≤ 120 }
    ensures { Prints (W.contents writer.old) (W.contents writer.new) result (digits_text bytes.now) }
{
    put(writer, b"#")?;
    let mut room = [0; 2 * Value::MAX_LEN];
    let digits = &mut room[..2 * bytes.len()];
    match encode_to_slice(bytes, digits) {
        Ok(()) => put(writer, digits),
        Err(_) => unreachable!(),
    }
}

/// Writes the bytes. A write that was interrupted is made again.
pub fn put<W: io::Write>(writer: &mut W, bytes: &[u8]) -> io::Result<()>
    ensures { Prints (W.contents writer.old) (W.contents writer.new) result bytes.now }
{
    let mut left = bytes;
    for _ in 0..u64::MAX {
        if left.is_empty() {
            return Ok(());
        }
        let count = put_some(writer, left)?;
        left = left.split_at(count).1;
    }
    Err(io::Error::from(io::ErrorKind::TimedOut))
}

/// Writes some of the bytes, and gives how many: none where the write was interrupted.
fn put_some<W: io::Write>(writer: &mut W, bytes: &[u8]) -> io::Result<usize>
    ensures within { IfOk result (λ count. count ≤ length bytes.now) }
    ensures bytes { WriteAppends (W.contents writer.old) (W.contents writer.new) result bytes.now }
{
    match writer.write(bytes) {
        Ok(0) => Err(io::Error::from(io::ErrorKind::WriteZero)),
        Ok(count) => Ok(count),
        Err(error) if is_interrupted(&error) => Ok(0),
        Err(error) => Err(error),
    }
}

fn is_interrupted(error: &io::Error) -> bool {
    error.kind() == io::ErrorKind::Interrupted
}
