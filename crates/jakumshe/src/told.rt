//! How a call ends, by the first line that tells of it among all that a node tells while it settles.
ghost use Rattle.std.specs.Prelude.{◌≡◌, ◌∷◌, [], true, false, Some, None, Ok, Err, IfOk, IfErr};
ghost use Rattle.jakumshe.specs.Calls.{first_end, ended_by, begins, saves, answers, finds, lists, goes_back, rolls_back, commits};

use crate::fault::Fault;
use codec::Rows;
use node_world::Out;
use record_key::{Answer, Value};

/// The number of a transaction that has begun.
pub fn begun(out: &Out) -> Result<u64, Fault>
    ensures { result ≡ first_end begins (out.now ∷ []) }
{
    match out {
        Out::Begun(txn) => Ok(*txn),
        _ => Err(Fault::Untold),
    }
}

/// The number of a savepoint that was set.
pub fn saved(out: &Out) -> Result<u64, Fault>
    ensures { result ≡ first_end saves (out.now ∷ []) }
{
    match out {
        Out::Saved(savepoint) => Ok(*savepoint),
        _ => Err(Fault::Untold),
    }
}

/// How the transaction's operation was answered.
pub fn answer(told: &[Out], txn: u64) -> Result<(), Fault>
    ensures { result ≡ first_end (answers txn) told.now }
{
    for out in told {
        if let Out::Answered { txn: whose, answer } = out {
            if *whose == txn {
                return ended(answer);
            }
        }
    }
    Err(Fault::Untold)
}

fn ended(answer: &Answer) -> Result<(), Fault>
    ensures { result ≡ ended_by answer.now }
{
    match answer {
        Answer::Exists => Err(Fault::Exists),
        Answer::NoRecord => Err(Fault::NoRecord),
        Answer::NotNumber => Err(Fault::NotNumber),
        _ => Ok(()),
    }
}

/// The value that the transaction has read, if there is a record.
pub fn value(told: &[Out], txn: u64) -> Result<Value, Fault>
    ensures { result ≡ first_end (finds txn) told.now }
{
    for out in told {
        if let Out::Row { txn: whose, value } = out {
            if *whose == txn {
                return match value {
                    Some(value) => Ok(value.copied()),
                    None => Err(Fault::NoRecord),
                };
            }
        }
    }
    Err(Fault::Untold)
}

/// The rows that the transaction has read.
pub fn rows(told: &[Out], txn: u64) -> Result<&Rows, Fault>
    ensures found { IfOk result (λ rows. first_end (lists txn) told.now ≡ Ok rows.now) }
    ensures none { IfErr result (λ fault. first_end (lists txn) told.now ≡ Err fault) }
{
    for out in told {
        if let Out::Rows { txn: whose, rows } = out {
            if *whose == txn {
                return Ok(rows);
            }
        }
    }
    Err(Fault::Untold)
}

/// The transaction is back at its savepoint.
pub fn back(told: &[Out], txn: u64, savepoint: u64) -> Result<(), Fault>
    ensures { result ≡ first_end (goes_back txn savepoint) told.now }
{
    for out in told {
        if let Out::Back {
            txn: whose,
            savepoint: place,
        } = out
        {
            if *whose == txn && *place == savepoint {
                return Ok(());
            }
        }
    }
    Err(Fault::Untold)
}

/// The transaction is rolled back.
pub fn rolled_back(told: &[Out], txn: u64) -> Result<(), Fault>
    ensures { result ≡ first_end (rolls_back txn) told.now }
{
    for out in told {
        if let Out::RolledBack(whose) = out {
            if *whose == txn {
                return Ok(());
            }
        }
    }
    Err(Fault::Untold)
}

/// The transaction has committed.
pub fn committed(told: &[Out], txn: u64) -> Result<(), Fault>
    ensures { result ≡ first_end (commits txn) told.now }
{
    for out in told {
        if has_committed(out, txn) {
            return Ok(());
        }
    }
    Err(Fault::Untold)
}

fn has_committed(out: &Out, txn: u64) -> bool
    ensures yes { result ≡ true → commits txn out.now ≡ Some (Ok tt) }
    ensures no { result ≡ false → commits txn out.now ≡ None }
{
    match out {
        Out::Stable { committed, .. } => committed.as_slice().contains(&txn),
        _ => false,
    }
}
