//! Whether a record may follow the records that were read, by an index and a few looks at these.
ghost use Rattle.std.specs.Prelude.{◌≡◌, ◌↔◌, IsTrue};
ghost use Rattle.history.specs.Log.{record_at};
ghost use Rattle.history.specs.Legal.{Fits, FitsOp, FitsAnswer, FitsComp, FitsCommit, FitsEnd, FitsCheckpoint, Inverts};
ghost use Rattle.history.specs.Chains.{undo_from, prev_in};
ghost use Rattle.tc_log.specs.Replay.{IsIndex};

use crate::frames::Frames;
use crate::replay::Index;
use history::Record;
use inverse::inverse;
use record_key::Op;
use stable::LogDevice;

/// What a transaction has left to undo below an operation.
fn undo_below<D: LogDevice>(frames: &Frames<D>, undone: &Option<Record>) -> u64
    ensures { result ≡ undo_from (record_at frames.now.records (prev_in undone.now)) (prev_in undone.now) }
{
    match undone {
        Some(Record::Op { prev, .. }) => frames.left_to_undo(*prev),
        _ => frames.left_to_undo(0),
    }
}

/// What undoes the answered operation, the record of this number, is this.
fn inverts<D: LogDevice>(
    frames: &Frames<D>,
    undoes: u64,
    undone: &Option<Record>,
    by: &Option<Op>,
) -> bool
    requires { undone.now ≡ record_at frames.now.records undoes }
    ensures { IsTrue result ↔ Inverts frames.now.records undoes by.now }
{
    match (undone, frames.answer_of(undoes)) {
        (Some(Record::Op { op, .. }), Some(answer)) => inverse(op, &answer) == *by,
        _ => false,
    }
}

fn fits_op<D: LogDevice>(index: &Index, frames: &Frames<D>, txn: u64, prev: u64, op: &Op) -> bool
    requires { IsIndex frames.now.records index.now }
    ensures { IsTrue result ↔ FitsOp frames.now.records txn prev op.now }
{
    match index.ready(frames, txn) {
        Some(latest) => latest == prev && index.is_free(frames, txn, op),
        None => false,
    }
}

fn fits_answer<D: LogDevice>(frames: &Frames<D>, of: u64) -> bool
    ensures { IsTrue result ↔ FitsAnswer frames.now.records of }
{
    !frames.is_answered(of)
}

fn fits_comp<D: LogDevice>(
    index: &Index,
    frames: &Frames<D>,
    txn: u64,
    undoes: u64,
    next: u64,
    by: &Option<Op>,
) -> bool
    requires { IsIndex frames.now.records index.now }
    ensures { IsTrue result ↔ FitsComp frames.now.records txn undoes next by.now }
{
    let Some(latest) = index.ready(frames, txn) else {
        return false;
    };
    if undoes == 0 {
        return false;
    }
    if frames.left_to_undo(latest) != undoes {
        return false;
    }
    let undone = frames.record(undoes);
    if undo_below(frames, &undone) != next {
        return false;
    }
    inverts(frames, undoes, &undone, by)
}

fn fits_commit<D: LogDevice>(index: &Index, frames: &Frames<D>, txn: u64) -> bool
    requires { IsIndex frames.now.records index.now }
    ensures { IsTrue result ↔ FitsCommit frames.now.records txn }
{
    match index.ready(frames, txn) {
        Some(_) => true,
        None => false,
    }
}

fn fits_end<D: LogDevice>(index: &Index, frames: &Frames<D>, txn: u64) -> bool
    requires { IsIndex frames.now.records index.now }
    ensures { IsTrue result ↔ FitsEnd frames.now.records txn }
{
    match index.ready(frames, txn) {
        Some(latest) => frames.left_to_undo(latest) == 0,
        None => false,
    }
}

fn fits_checkpoint<D: LogDevice>(index: &Index, frames: &Frames<D>, low: u64) -> bool
    requires { IsIndex frames.now.records index.now }
    ensures { IsTrue result ↔ FitsCheckpoint frames.now.records low }
{
    low <= frames.answered_from(index.answered)
}

/// Whether the record may follow.
pub(crate) fn fits<D: LogDevice>(index: &Index, frames: &Frames<D>, next: &Record) -> bool
    requires { IsIndex frames.now.records index.now }
    ensures { IsTrue result ↔ Fits frames.now.records next.now }
{
    match next {
        Record::Session | Record::Begin => true,
        Record::Op { txn, prev, op } => fits_op(index, frames, *txn, *prev, op),
        Record::Answer { of, .. } => fits_answer(frames, *of),
        Record::Comp {
            txn,
            undoes,
            next,
            inverse,
        } => fits_comp(index, frames, *txn, *undoes, *next, inverse),
        Record::Commit { txn } => fits_commit(index, frames, *txn),
        Record::End { txn } => fits_end(index, frames, *txn),
        Record::Checkpoint { low } => fits_checkpoint(index, frames, *low),
    }
}
