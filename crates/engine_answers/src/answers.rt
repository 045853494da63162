//! What a call answers, by how it ended.
ghost use Rattle.std.specs.Prelude.{◌≡◌, ℕ, false, IfOk, IfErr};
ghost use Rattle.engine_history.specs.node_laws.specs.declared.event.Out as outs;
ghost use Rattle.engine_history.specs.node_laws.specs.declared.event.Out.TheVariants as out;
ghost use Rattle.engine_answers.specs.Again.{AnswersWith, IsNotTold, IsToldSo, answers_with};
ghost use Rattle.engine_answers.specs.Answers.{AreShown, IsRefusalOf, IsToldAs, IsAtOnce, TellsCommit};
ghost use Rattle.engine_history.specs.InFlightCalls.{is_commit_logged};
ghost use Rattle.engine_answers.specs.Asking.{both, is_begun, is_saved, is_logged, is_asked, is_rolling, gives_answer, gives_row, gives_rows, gives_back, gives_rolled_back, gives_commit};

use crate::ended::{Ended, why};
use crate::told::Told;
use codec::Rows;
use engine_history::node_laws::{Event, Out};
use engine_history::{KeptOut, Naming, OutForm, Published, copied_value};
use record_key::{Answer, Refusal, Value};
use std::sync::Wait;
use std::thread;

/// The answer that a transaction's operation was told.
pub fn answer_told<J: Naming>(published: &Published<J>, ended: &Ended) -> Result<Answer, Refusal>
    requires { AreShown J.entries ended.now }
    ensures told { IfOk result (λ answer.
        IsToldAs (λ (o : outs.Out). (n : ℕ) × (o ≡ out.Logged n))
        (λ (o : outs.Out). (u : ℕ) × (o ≡ out.Answered u answer)) ended.now) }
    ensures refused { IfErr result (λ r. IsRefusalOf (λ (o : outs.Out). false)
        (λ (o : outs.Out) (line : outs.Out). both (is_logged o) (gives_answer line)) ended.now r) }
{
    let entries = published.entries();
    match ended {
        Ended::CutOff => Err(Refusal::NotConnected),
        Ended::AtOnce(call) => Err(why(entries.value(call).out())),
        Ended::Unfinished(_, failure) => Err(failure.refusal()),
        Ended::Told(call, line) => answer_of(entries.value(call).out(), entries.value(line).out()),
    }
}

// The answer of a logged operation.
fn answer_of(call: &KeptOut, line: &KeptOut) -> Result<Answer, Refusal>
    ensures told { IfOk result (λ answer.
        ((n : ℕ) × (call.now ≡ out.Logged n))
        × ((u : ℕ) × (line.now ≡ out.Answered u answer))) }
    ensures refused { IfErr result (λ r. (r ≡ Refusal.NotConnected)
        × (both (is_logged call.now) (gives_answer line.now) ≡ false)) }
{
    match (call.form(), line.other()) {
        (OutForm::Logged(_), Some(Out::Answered { txn: _, answer })) => Ok(answer.copied()),
        _ => Err(Refusal::NotConnected),
    }
}

/// The value that a Get was told.
pub fn row_told<J: Naming>(
    published: &Published<J>,
    ended: &Ended,
) -> Result<Option<Value>, Refusal>
    requires { AreShown J.entries ended.now }
    ensures told { IfOk result (λ value.
        IsToldAs (λ (o : outs.Out). (n : ℕ) × (o ≡ out.Asked n))
        (λ (o : outs.Out). (u : ℕ) × (o ≡ out.Row u value)) ended.now) }
    ensures refused { IfErr result (λ r. IsRefusalOf (λ (o : outs.Out). false)
        (λ (o : outs.Out) (line : outs.Out). both (is_asked o) (gives_row line)) ended.now r) }
{
    let entries = published.entries();
    match ended {
        Ended::CutOff => Err(Refusal::NotConnected),
        Ended::AtOnce(call) => Err(why(entries.value(call).out())),
        Ended::Unfinished(_, failure) => Err(failure.refusal()),
        Ended::Told(call, line) => row_of(entries.value(call).out(), entries.value(line).out()),
    }
}

// The value of a read.
fn row_of(call: &KeptOut, line: &KeptOut) -> Result<Option<Value>, Refusal>
    ensures told { IfOk result (λ value.
        ((n : ℕ) × (call.now ≡ out.Asked n))
        × ((u : ℕ) × (line.now ≡ out.Row u value))) }
    ensures refused { IfErr result (λ r. (r ≡ Refusal.NotConnected)
        × (both (is_asked call.now) (gives_row line.now) ≡ false)) }
{
    match (call.form(), line.other()) {
        (OutForm::Asked(_), Some(Out::Row { txn: _, value })) => Ok(copied_value(value)),
        _ => Err(Refusal::NotConnected),
    }
}

/// The rows that a Scan was told.
pub fn rows_told<J: Naming, R: Wait>(
    rt: &R,
    published: &Published<J>,
    ended: &Ended,
) -> Result<Rows, Refusal>
    requires { AreShown J.entries ended.now }
    ensures told { IfOk result (λ rows.
        IsToldAs (λ (o : outs.Out). (n : ℕ) × (o ≡ out.Asked n))
        (λ (o : outs.Out). (u : ℕ) × (o ≡ out.Rows u rows)) ended.now) }
    ensures refused { IfErr result (λ r. IsRefusalOf (λ (o : outs.Out). false)
        (λ (o : outs.Out) (line : outs.Out). both (is_asked o) (gives_rows line)) ended.now r) }
{
    let entries = published.entries();
    match ended {
        Ended::CutOff => Err(Refusal::NotConnected),
        Ended::AtOnce(call) => Err(why(entries.value(call).out())),
        Ended::Unfinished(_, failure) => Err(failure.refusal()),
        Ended::Told(call, line) => rows_of(
            rt,
            entries.value(call).out(),
            entries.value(line).out(),
        ),
    }
}

// The rows of a read. Where memory for them is refused it is tried again until they are made.
fn rows_of<R: Wait>(rt: &R, call: &KeptOut, line: &KeptOut) -> Result<Rows, Refusal>
    ensures told { IfOk result (λ rows.
        ((n : ℕ) × (call.now ≡ out.Asked n))
        × ((u : ℕ) × (line.now ≡ out.Rows u rows))) }
    ensures refused { IfErr result (λ r. (r ≡ Refusal.NotConnected)
        × (both (is_asked call.now) (gives_rows line.now) ≡ false)) }
{
    match (call.form(), line.other()) {
        (OutForm::Asked(_), Some(Out::Rows { txn: _, rows })) => Ok(copies(rt, rows)),
        _ => Err(Refusal::NotConnected),
    }
}

/// That a transaction is back at a savepoint.
pub fn back_told<J: Naming>(published: &Published<J>, ended: &Ended) -> Result<(), Refusal>
    requires { AreShown J.entries ended.now }
    ensures told { IfOk result (λ done.
        IsToldAs (λ (o : outs.Out). o ≡ out.RollingBack)
        (λ (o : outs.Out). (u : ℕ) × (s : ℕ) × (o ≡ out.Back u s)) ended.now) }
    ensures refused { IfErr result (λ r. IsRefusalOf (λ (o : outs.Out). false)
        (λ (o : outs.Out) (line : outs.Out). both (is_rolling o) (gives_back line)) ended.now r) }
{
    let entries = published.entries();
    match ended {
        Ended::CutOff => Err(Refusal::NotConnected),
        Ended::AtOnce(call) => Err(why(entries.value(call).out())),
        Ended::Unfinished(_, failure) => Err(failure.refusal()),
        Ended::Told(call, line) => back_of(entries.value(call).out(), entries.value(line).out()),
    }
}

// That it is back.
fn back_of(call: &KeptOut, line: &KeptOut) -> Result<(), Refusal>
    ensures told { IfOk result (λ done.
        (call.now ≡ out.RollingBack)
        × ((u : ℕ) × (s : ℕ) × (line.now ≡ out.Back u s))) }
    ensures refused { IfErr result (λ r. (r ≡ Refusal.NotConnected)
        × (both (is_rolling call.now) (gives_back line.now) ≡ false)) }
{
    match (call.form(), line.other()) {
        (OutForm::RollingBack, Some(Out::Back { .. })) => Ok(()),
        _ => Err(Refusal::NotConnected),
    }
}

/// That a transaction is rolled back.
pub fn rollback_told<J: Naming>(published: &Published<J>, ended: &Ended) -> Result<(), Refusal>
    requires { AreShown J.entries ended.now }
    ensures told { IfOk result (λ done.
        IsToldAs (λ (o : outs.Out). o ≡ out.RollingBack)
        (λ (o : outs.Out). (u : ℕ) × (o ≡ out.RolledBack u)) ended.now) }
    ensures refused { IfErr result (λ r. IsRefusalOf (λ (o : outs.Out). false)
        (λ (o : outs.Out) (line : outs.Out). both (is_rolling o) (gives_rolled_back line)) ended.now r) }
{
    let entries = published.entries();
    match ended {
        Ended::CutOff => Err(Refusal::NotConnected),
        Ended::AtOnce(call) => Err(why(entries.value(call).out())),
        Ended::Unfinished(_, failure) => Err(failure.refusal()),
        Ended::Told(call, line) => rollback_of(
            entries.value(call).out(),
            entries.value(line).out(),
        ),
    }
}

// That it is rolled back.
fn rollback_of(call: &KeptOut, line: &KeptOut) -> Result<(), Refusal>
    ensures told { IfOk result (λ done. (call.now ≡ out.RollingBack) × ((u : ℕ) × (line.now ≡ out.RolledBack u))) }
    ensures refused { IfErr result (λ r. (r ≡ Refusal.NotConnected)
        × (both (is_rolling call.now) (gives_rolled_back line.now) ≡ false)) }
{
    match (call.form(), line.form()) {
        (OutForm::RollingBack, OutForm::RolledBack(_)) => Ok(()),
        _ => Err(Refusal::NotConnected),
    }
}

/// The number of the Commit record of a transaction that was told to have committed.
pub fn commit_told<J: Naming>(published: &Published<J>, ended: &Ended) -> Result<u64, Refusal>
    requires { AreShown J.entries ended.now }
    ensures told { IfOk result (λ number.
        IsToldAs (λ (o : outs.Out). o ≡ out.CommitLogged number)
        TellsCommit ended.now) }
    ensures refused { IfErr result (λ r. IsRefusalOf (λ (o : outs.Out). false)
        (λ (o : outs.Out) (line : outs.Out). both (is_commit_logged o) (gives_commit line)) ended.now r) }
{
    let entries = published.entries();
    match ended {
        Ended::CutOff => Err(Refusal::NotConnected),
        Ended::AtOnce(call) => Err(why(entries.value(call).out())),
        Ended::Unfinished(_, failure) => Err(failure.refusal()),
        Ended::Told(call, line) => commit_of(entries.value(call).out(), entries.value(line).out()),
    }
}

// The number of the record.
fn commit_of(call: &KeptOut, line: &KeptOut) -> Result<u64, Refusal>
    ensures told { IfOk result (λ number. (call.now ≡ out.CommitLogged number) × TellsCommit line.now) }
    ensures refused { IfErr result (λ r. (r ≡ Refusal.NotConnected)
        × (both (is_commit_logged call.now) (gives_commit line.now) ≡ false)) }
{
    match (call.form(), line.other()) {
        (OutForm::CommitLogged(number), Some(Out::Stable { .. } | Out::Connects { .. })) => {
            Ok(*number)
        }
        _ => Err(Refusal::NotConnected),
    }
}

/// What was told of a call that was carried on.
pub fn carried_told<J: Naming, R: Wait>(
    rt: &R,
    published: &Published<J>,
    ended: &Ended,
) -> Result<Told, Refusal>
    requires { AreShown J.entries ended.now }
    ensures told { IfOk result (IsToldSo ended.now) }
    ensures refused { IfErr result (IsNotTold ended.now) }
{
    match ended {
        Ended::AtOnce(_) | Ended::CutOff => Err(Refusal::NotConnected),
        Ended::Unfinished(_, failure) => Err(failure.refusal()),
        Ended::Told(call, line) => {
            let step = &published.entries().value(call).step;
            let event = step.event.lent();
            told_of(
                rt,
                event.get(),
                &step.out,
                published.entries().value(line).out(),
            )
        }
    }
}

// What is told of a call by a line.
fn told_of<R: Wait>(rt: &R, event: &Event, call: &KeptOut, line: &KeptOut) -> Result<Told, Refusal>
    ensures told { IfOk result (AnswersWith event.now call.now line.now) }
    ensures refused { IfErr result (λ r. (r ≡ Refusal.NotConnected)
        × (answers_with event.now call.now line.now ≡ false)) }
{
    match event {
        Event::Act { .. } => Ok(Told::Answer(answer_of(call, line)?)),
        Event::Get { .. } => Ok(Told::Row(row_of(call, line)?)),
        Event::Scan { .. } => Ok(Told::Rows(rows_of(rt, call, line)?)),
        Event::GoBack { .. } => {
            back_of(call, line)?;
            Ok(Told::Back)
        }
        Event::Rollback { .. } => {
            rollback_of(call, line)?;
            Ok(Told::RolledBack)
        }
        Event::Commit { .. } => Ok(Told::Committed(commit_of(call, line)?)),
        _ => Err(Refusal::NotConnected),
    }
}

/// The number of a savepoint that was set.
pub fn saved<J: Naming>(published: &Published<J>, ended: &Ended) -> Result<u64, Refusal>
    requires { AreShown J.entries ended.now }
    ensures told { IfOk result (λ s. IsAtOnce (out.Saved s) ended.now) }
    ensures refused { IfErr result (λ r. IsRefusalOf is_saved (λ (o : outs.Out) (line : outs.Out). false) ended.now r) }
{
    match ended {
        Ended::CutOff | Ended::Told(_, _) => Err(Refusal::NotConnected),
        Ended::Unfinished(_, failure) => Err(failure.refusal()),
        Ended::AtOnce(call) => {
            let out = published.entries().value(call).out();
            match out.other() {
                Some(Out::Saved(savepoint)) => Ok(*savepoint),
                _ => Err(why(out)),
            }
        }
    }
}

/// The number of a transaction that has begun.
pub fn begun<J: Naming>(published: &Published<J>, ended: &Ended) -> Result<u64, Refusal>
    requires { AreShown J.entries ended.now }
    ensures told { IfOk result (λ t. IsAtOnce (out.Begun t) ended.now) }
    ensures refused { IfErr result (λ r. IsRefusalOf is_begun (λ (o : outs.Out) (line : outs.Out). false) ended.now r) }
{
    match ended {
        Ended::CutOff | Ended::Told(_, _) => Err(Refusal::NotConnected),
        Ended::Unfinished(_, failure) => Err(failure.refusal()),
        Ended::AtOnce(call) => {
            let out = published.entries().value(call).out();
            match out.form() {
                OutForm::Begun(txn) => Ok(*txn),
                _ => Err(why(out)),
            }
        }
    }
}

// The same rows again. Where memory is refused it is tried again until they are made.
fn copies<R: Wait>(rt: &R, rows: &Rows) -> Rows
    ensures { result ≡ rows.now }
{
    for _ in rt.forever() {
        if let Ok(copy) = rows.copied() {
            return copy;
        }
        thread::yield_now();
    }
    unreachable!()
}
