//! Records of both logs, images of leaves, requests and replies as bytes.
//!
//! Knows: the one spelling of each value as bytes, the grammar that tells spellings from other bytes, and which bytes of
//! an answered operation spell what undoes it.
//! Must not know: where bytes are kept, whether a record fits those before it, what a message or a split does.
//! Promises the next crates: what is written is the one spelling, what is read is what stands there, no
//! spelling begins another, and bytes that end within a frame are told apart from bytes outside the grammar.
//! An image has no frame: it is all of its page.
#![tactic(auto)]

mod dc_record;
mod entries;
mod fault;
mod frame;
mod frame_index;
mod framed;
mod gap;
mod image;
mod kept;
mod key_order;
mod lengths;
mod lent_rows;
mod parted;
mod parted_reads;
mod reading;
mod record;
mod reply;
mod request;
mod row_buffer;
mod rows;
mod spelled_answer;
mod spelled_op;
mod taken;
mod undoing;
mod writing;

pub use dc_record::{DcRecord, DcRecordRef, dc_record_spelling_law, put_dc_record, take_dc_record};
pub use frame::{FrameEnd, frame_end};
pub use frame_index::FrameIndex;
pub use image::{
    LeafImage, LeafImageRef, leaf_image_len, leaf_image_spelling_law, put_leaf_image,
    take_leaf_image,
};
pub use kept::kept_rows;
pub use lent_rows::LentRows;
pub use parted::{Asking, answered_at, asking_at, put_answered};
pub use parted_reads::{Reading, found_at, put_found, put_get, reading_at};
pub use reading::NUMBER_LIMIT;
pub use record::{
    asked_op, left_to_undo, put_op_record, put_record, read_record, record_spelling_law, step_prev,
    step_txn, take_record,
};
pub use reply::{Reply, put_reply, reply_session, reply_spelling_law, take_reply};
pub use request::{Request, put_request, request_spelling_law, take_request};
pub use row_buffer::RowBuffer;
pub use rows::Rows;
pub use spelled_answer::{GivenAnswer, SpelledAnswer, put_given_answer};
pub use spelled_op::{asked_bytes, put_perform};
pub use taken::Taken;
pub use undoing::{CompNumbers, put_undo};
