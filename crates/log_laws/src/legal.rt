//! Whether a record may follow a log, and whether a log is legal.
ghost use Rattle.std.specs.Prelude.{◌↔◌, IsTrue, reverse};
ghost use Rattle.history.specs.Legal.{Fits, FitsOp, FitsAnswer, FitsComp, FitsCommit, FitsEnd, FitsCheckpoint, IsLegal};

use crate::conditions::{
    are_answered, inverts, is_free, is_idle, is_latest_left, is_next_undo, is_open,
    is_undone_wholly, latest_step,
};
use crate::reader::{answer, request_at};
use history::Record;
use record_key::Op;

fn fits_op(log: &[Record], txn: u64, prev: u64, op: &Op) -> bool
    ensures { IsTrue result ↔ FitsOp (reverse log.now) txn prev op.now }
{
    is_open(log, txn) && is_idle(log, txn) && latest_step(log, txn) == prev && is_free(log, txn, op)
}

fn fits_answer(log: &[Record], of: u64) -> bool
    ensures { IsTrue result ↔ FitsAnswer (reverse log.now) of }
{
    request_at(log, of).is_some() && answer(log, of).is_none()
}

fn fits_comp(log: &[Record], txn: u64, undoes: u64, next: u64, by: &Option<Op>) -> bool
    ensures { IsTrue result ↔ FitsComp (reverse log.now) txn undoes next by.now }
{
    is_open(log, txn)
        && is_idle(log, txn)
        && is_next_undo(log, txn, undoes)
        && is_latest_left(log, txn, undoes, next)
        && inverts(log, undoes, by)
}

fn fits_commit(log: &[Record], txn: u64) -> bool
    ensures { IsTrue result ↔ FitsCommit (reverse log.now) txn }
{
    is_open(log, txn) && is_idle(log, txn)
}

fn fits_end(log: &[Record], txn: u64) -> bool
    ensures { IsTrue result ↔ FitsEnd (reverse log.now) txn }
{
    fits_commit(log, txn) && is_undone_wholly(log, txn)
}

fn fits_checkpoint(log: &[Record], low: u64) -> bool
    ensures { IsTrue result ↔ FitsCheckpoint (reverse log.now) low }
{
    low <= log.len() as u64 && are_answered(log, low)
}

/// Whether the record may follow the log, which has the oldest record first.
pub fn fits(log: &[Record], next: &Record) -> bool
    ensures { IsTrue result ↔ Fits (reverse log.now) next.now }
{
    match next {
        Record::Session | Record::Begin => true,
        Record::Op { txn, prev, op } => fits_op(log, *txn, *prev, op),
        Record::Answer { of, .. } => fits_answer(log, *of),
        Record::Comp {
            txn,
            undoes,
            next,
            inverse,
        } => fits_comp(log, *txn, *undoes, *next, inverse),
        Record::Commit { txn } => fits_commit(log, *txn),
        Record::End { txn } => fits_end(log, *txn),
        Record::Checkpoint { low } => fits_checkpoint(log, *low),
    }
}

/// Whether each record of the log, which has the oldest first, fits those before it.
pub fn is_legal(log: &[Record]) -> bool
    ensures { IsTrue result ↔ IsLegal (reverse log.now) }
{
    for place in 0..log.len() {
        if !fits(&log[..place], &log[place]) {
            return false;
        }
    }
    true
}
