//! Frames: a length in eight bytes, then a body of that many bytes.
ghost use Rattle.std.specs.Prelude.{◌≡◌, ◌↔◌, ◌+◌, ◌<◌, ◌^◌, ℕ, length, drop, IfOk, IfErr};
ghost use Rattle.codec.specs.Fields.{first_number};
ghost use Rattle.codec.specs.Frames.{IsWholeFrame, IsNoLength, IsCut, IsFrameOf};
ghost use Rattle.codec.specs.Reading.{frame_at, seen, taken_at, within};

use crate::framed::Framed;
use crate::taken::Taken;
use byteorder::{BigEndian, ByteOrder};

/// The length in front of a body, in bytes.
pub(crate) const HEADER_LEN: usize = 8;

/// Where a frame ends.
#[derive(Debug, Clone, Copy, PartialEq, Eq)]
pub enum FrameEnd {
    /// The place after it.
    At(usize),
    /// The bytes end within it.
    Short,
    /// A length stands there that no frame has.
    Bad,
}

/// Where the frame that begins at a place ends, where a body has 1 to `limit` bytes. Doesn't look at the body.
/// Takes no memory.
pub fn frame_end(bytes: &[u8], at: usize, limit: u64) -> FrameEnd
    ensures whole { (next : ℕ) → (result ≡ FrameEnd.At next)
        ↔ (IsWholeFrame limit (drop at bytes.now) × (next ≡ at + (8 + first_number (drop at bytes.now)))) }
    ensures short { (result ≡ FrameEnd.Short) ↔ IsCut limit (drop at bytes.now) }
    ensures bad { (result ≡ FrameEnd.Bad) ↔ IsNoLength limit (drop at bytes.now) }
{
    match take_body(bytes, at, limit) {
        Taken::Record(_, next) => FrameEnd::At(next),
        Taken::Short => FrameEnd::Short,
        Taken::Bad(_) => FrameEnd::Bad,
    }
}

/// The bytes from a place on, none where it is past the end.
pub(crate) fn left_at(bytes: &[u8], at: usize) -> &[u8]
    ensures { result.now ≡ drop at bytes.now }
{
    if at < bytes.len() { &bytes[at..] } else { &[] }
}

/// The body of the frame at a place, where a body has 1 to `limit` bytes.
#[tactic(auto, unfolding(crate::specs::Reading::frame_at, crate::specs::Fields::first_number))]
pub(crate) fn take_body(bytes: &[u8], at: usize, limit: u64) -> Taken<&[u8]>
    ensures { seen (λ body. body.now) result ≡ frame_at limit at (drop at bytes.now) }
{
    let left = left_at(bytes, at);
    if left.len() < HEADER_LEN {
        return Taken::Short;
    }
    let length = BigEndian::read_u64(left);
    if length == 0 || limit < length {
        return Taken::Bad(at as u64);
    }
    let length = length as usize;
    let rest = &left[HEADER_LEN..];
    if rest.len() < length {
        return Taken::Short;
    }
    Taken::Record(&rest[..length], at + HEADER_LEN + length)
}

/// Puts the value whose frame begins at a place in place of another, and tells where that frame ends. Where there is none,
/// what stands in its place is not said.
pub(crate) fn read_framed<T: Framed>(
    memory: T::Memory,
    bytes: &[u8],
    at: usize,
    limit: u64,
    value: &mut T,
) -> Result<FrameEnd, T::Refused>
    ensures value { IfOk result (λ end.
        taken_at at end value.new ≡ within at T.read_at (frame_at limit at (drop at bytes.now))) }
    ensures fits { length bytes.now < 2 ^ 64 }
    ensures cause { IfErr result (λ _. IsFrameOf limit T.takes_memory (drop at bytes.now)) }
{
    match take_body(bytes, at, limit) {
        Taken::Record(body, next) => match T::take_all(memory, body, value) {
            Ok(true) => Ok(FrameEnd::At(next)),
            Ok(false) => Ok(FrameEnd::Bad),
            Err(refused) => Err(refused),
        },
        Taken::Short => Ok(FrameEnd::Short),
        Taken::Bad(_) => Ok(FrameEnd::Bad),
    }
}

/// What was taken at a place, where a value was put in its place and its frame ends so.
pub(crate) fn taken_at<T: Drop>(at: usize, end: FrameEnd, value: T) -> Taken<T>
    ensures { result ≡ taken_at at end value }
{
    match end {
        FrameEnd::At(next) => Taken::Record(value, next),
        FrameEnd::Short => Taken::Short,
        FrameEnd::Bad => Taken::Bad(at as u64),
    }
}

/// The value whose frame begins at a place, and the place after it.
pub(crate) fn take_framed<T: Framed>(
    memory: T::Memory,
    bytes: &[u8],
    at: usize,
    limit: u64,
) -> Result<Taken<T>, T::Refused>
    ensures value { IfOk result (λ taken. taken ≡ within at T.read_at (frame_at limit at (drop at bytes.now))) }
    ensures fits { length bytes.now < 2 ^ 64 }
    ensures cause { IfErr result (λ _. IsFrameOf limit T.takes_memory (drop at bytes.now)) }
{
    let mut value = T::blank();
    match read_framed(memory, bytes, at, limit, &mut value) {
        Ok(end) => Ok(taken_at(at, end, value)),
        Err(refused) => Err(refused),
    }
}
