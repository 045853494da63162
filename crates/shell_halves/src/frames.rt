//! Messages as they come in: a frame as `codec` spells it, behind the eight bytes of its length.
use std::io;
use std::io::Read;

/// What has come in.
#[derive(Clone, Copy, PartialEq, Eq)]
pub enum Arrived {
    /// A message's frame.
    Frame,
    /// A frame of no bytes: some time has passed, as whoever sends it counts time.
    Tick,
    /// Nothing more comes.
    End,
}

const HEAD: usize = 8;

/// No message is longer: a stream that says so isn't one of messages.
const LONGEST: u64 = 1 << 28;

/// Reads a frame with its head, or finds that none is left.
pub fn read_frame<R: Read>(reader: &mut R, frame: &mut Vec<u8>) -> io::Result<Arrived> {
    frame.clear();
    let mut head = [0; HEAD];
    let begun = reader.read(&mut head)?;
    if begun == 0 {
        return Ok(Arrived::End);
    }
    reader.read_exact(&mut head[begun..])?;
    let length = u64::from_be_bytes(head);
    if length == 0 {
        return Ok(Arrived::Tick);
    }
    if length > LONGEST {
        return Err(io::ErrorKind::InvalidData.into());
    }
    frame.extend_from_slice(&head)?;
    frame.resize(HEAD + length as usize, 0)?;
    reader.read_exact(&mut frame[HEAD..])?;
    Ok(Arrived::Frame)
}
