//! The rows of a reply that was written before: they are copied as they stand, and none is looked at.
ghost use Rattle.std.specs.Prelude.{◌≡◌, ◌++◌, List, ℕ, drop, true, IfOk, OnErr};
ghost use Rattle.codec.specs.declared.reply.Reply.{Reply as ReplyValue};
ghost use Rattle.codec.specs.Frames.{frame};
ghost use Rattle.codec.specs.Parted.{rows_of};
ghost use Rattle.codec.specs.Replies.{reply_bytes, has_rows, IsReply};

use crate::frame::take_body;
use crate::reading::take_count;
use crate::reply::{ROWS, Reply, take_read};
use crate::rows::copy_of;
use crate::taken::Taken;
use std::alloc::{AllocError, Global};

/// The reply whose frame begins at a place of the bytes, from 0, where it has rows; none where it has none. Whoever calls it
/// owes that a reply's frame begins there, as one does where a reply was written. Refused where memory is, for rows alone.
pub fn kept_rows(alloc: Global, bytes: &[u8], at: usize) -> Result<Option<Reply>, AllocError>
    requires stands { (r : ReplyValue) × (rest : List ℕ) × IsReply r × (drop at bytes.now ≡ frame (reply_bytes r) ++ rest) }
    ensures rows { (r : ReplyValue) (rest : List ℕ) → IsReply r → drop at bytes.now ≡ frame (reply_bytes r) ++ rest
        → IfOk result (λ found. found ≡ rows_of r) }
    ensures memory { (r : ReplyValue) (rest : List ℕ) → IsReply r → drop at bytes.now ≡ frame (reply_bytes r) ++ rest
        → OnErr result (has_rows r ≡ true) }
{
    match take_body(bytes, at, u64::MAX) {
        Taken::Record(body, _) => rows_in(alloc, body),
        Taken::Short | Taken::Bad(_) => unreachable!(),
    }
}

/// The same of a reply's body.
fn rows_in(alloc: Global, body: &[u8]) -> Result<Option<Reply>, AllocError>
    requires stands { (r : ReplyValue) × IsReply r × (body.now ≡ reply_bytes r) }
    ensures rows { (r : ReplyValue) → IsReply r → body.now ≡ reply_bytes r → IfOk result (λ found. found ≡ rows_of r) }
    ensures memory { (r : ReplyValue) → IsReply r → body.now ≡ reply_bytes r → OnErr result (has_rows r ≡ true) }
{
    let Some((kind, rest)) = body.split_first() else {
        unreachable!();
    };
    if *kind != ROWS {
        return Ok(None);
    }
    let Some(((session, read), rest)) = take_read(rest) else {
        unreachable!();
    };
    let Some((count, rest)) = take_count(rest) else {
        unreachable!();
    };
    match copy_of(alloc, rest, count as usize) {
        Ok(rows) => Ok(Some(Reply::Rows {
            session,
            read,
            rows,
        })),
        Err(refused) => Err(refused),
    }
}
