//! What a call is answered, by how it ended.
ghost use Rattle.std.specs.Prelude.{◌≡◌, false, Some, None, ⊤, IfOk, IfErr};
ghost use Rattle.engine_guarded.specs.declared.heard.Heard as heards;
ghost use Rattle.engine_guarded.specs.engine_history.specs.node_laws.specs.declared.event.Out.TheVariants as come;
ghost use Rattle.engine_guarded.specs.engine_answers.specs.Asking.{is_asked, is_begun, is_logged, is_rolling, is_saved};
ghost use Rattle.engine_guarded.specs.engine_answers.specs.Unfinished.{bar_of};
ghost use Rattle.engine_guarded.specs.engine_answers.specs.Why.{why_of};
ghost use Rattle.engine_monitor.specs.declared.ended.Ended.TheVariants as ended_as;
ghost use Rattle.engine_monitor.specs.Answering.{answer_in, back_in, commit_in, committed_in, if_so, IsRefusalOf, rolled_back_in, row_in, rows_in, told_as};

use crate::ended::Ended;
use crate::sort::Sort;
use engine_guarded::Heard;
use engine_guarded::engine_answers::Told;
use engine_guarded::engine_history::copied_value;
use engine_guarded::engine_history::node_laws::Out;
use record_key::Refusal;

fn is_logged(out: &Out) -> bool
    ensures { result ≡ is_logged out.now }
{
    matches!(out, Out::Logged(_))
}

fn is_asked(out: &Out) -> bool
    ensures { result ≡ is_asked out.now }
{
    matches!(out, Out::Asked(_))
}

fn is_rolling(out: &Out) -> bool
    ensures { result ≡ is_rolling out.now }
{
    matches!(out, Out::RollingBack)
}

fn answer_in(heard: &Heard) -> Option<Told>
    ensures { result ≡ answer_in heard.now }
{
    match heard {
        Heard::Answer(answer) => Some(Told::Answer(answer.copied())),
        _ => None,
    }
}

fn row_in(heard: &Heard) -> Option<Told>
    ensures { result ≡ row_in heard.now }
{
    match heard {
        Heard::Row(value) => Some(Told::Row(copied_value(value))),
        _ => None,
    }
}

fn rows_in(heard: Heard) -> Option<Told>
    ensures { result ≡ rows_in heard }
{
    match heard {
        Heard::Rows(rows) => Some(Told::Rows(rows)),
        _ => None,
    }
}

fn back_in(heard: &Heard) -> Option<Told>
    ensures { result ≡ back_in heard.now }
{
    match heard {
        Heard::Back(_) => Some(Told::Back),
        _ => None,
    }
}

fn rolled_back_in(heard: &Heard) -> Option<Told>
    ensures { result ≡ rolled_back_in heard.now }
{
    match heard {
        Heard::RolledBack => Some(Told::RolledBack),
        _ => None,
    }
}

fn committed_in(number: u64, heard: &Heard) -> Option<Told>
    ensures { result ≡ committed_in number heard.now }
{
    match heard {
        Heard::Committed => Some(Told::Committed(number)),
        _ => None,
    }
}

// By the Commit record that the call came to, if it did.
fn commit_in(out: &Out, heard: &Heard) -> Option<Told>
    ensures { result ≡ commit_in out.now heard.now }
{
    match out {
        Out::CommitLogged(number) => committed_in(*number, heard),
        _ => None,
    }
}

fn if_so(is: bool, told: Option<Told>) -> Option<Told>
    ensures { result ≡ if_so is told }
{
    if is { told } else { None }
}

/// What a line that was told says to a call, if it answers it.
fn told_as(sort: Sort, out: &Out, heard: Heard) -> Option<Told>
    ensures { result ≡ told_as sort out.now heard }
{
    match sort {
        Sort::Act => if_so(is_logged(out), answer_in(&heard)),
        Sort::Get => if_so(is_asked(out), row_in(&heard)),
        Sort::Scan => if_so(is_asked(out), rows_in(heard)),
        Sort::GoBack => if_so(is_rolling(out), back_in(&heard)),
        Sort::Rollback => if_so(is_rolling(out), rolled_back_in(&heard)),
        Sort::Commit => commit_in(out, &heard),
        Sort::AtOnce => None,
    }
}

// Why a call is refused that came to this.
fn why(out: &Out) -> Refusal
    ensures { result ≡ why_of out.now }
{
    match out {
        Out::Refused(refusal) => *refusal,
        _ => Refusal::NotConnected,
    }
}

/// What was told of a call, if that answers it.
pub fn told(sort: Sort, out: &Out, ended: Ended) -> Result<Told, Refusal>
    ensures told { IfOk result (λ told. (h : heards.Heard) × (ended ≡ ended_as.Told h)
        × (told_as sort out.now h ≡ Some told)) }
    ensures refused { IfErr result (IsRefusalOf false (λ (h : heards.Heard). told_as sort out.now h ≡ None) out.now ended) }
{
    match ended {
        Ended::AtOnce => Err(why(out)),
        Ended::CutOff => Err(Refusal::NotConnected),
        Ended::Unfinished(failure) => Err(failure.refusal()),
        Ended::Told(heard) => match told_as(sort, out, heard) {
            Some(told) => Ok(told),
            None => Err(Refusal::NotConnected),
        },
    }
}

/// The number of a savepoint that was set.
pub fn saved(out: &Out, ended: Ended) -> Result<u64, Refusal>
    ensures told { IfOk result (λ s. (ended ≡ Ended.AtOnce) × (out.now ≡ come.Saved s)) }
    ensures refused { IfErr result (IsRefusalOf (is_saved out.now) (λ (h : heards.Heard). ⊤) out.now ended) }
{
    match ended {
        Ended::CutOff | Ended::Told(_) => Err(Refusal::NotConnected),
        Ended::Unfinished(failure) => Err(failure.refusal()),
        Ended::AtOnce => match out {
            Out::Saved(savepoint) => Ok(*savepoint),
            _ => Err(why(out)),
        },
    }
}

/// The number of a transaction that has begun.
pub fn begun(out: &Out, ended: Ended) -> Result<u64, Refusal>
    ensures told { IfOk result (λ t. (ended ≡ Ended.AtOnce) × (out.now ≡ come.Begun t)) }
    ensures refused { IfErr result (IsRefusalOf (is_begun out.now) (λ (h : heards.Heard). ⊤) out.now ended) }
{
    match ended {
        Ended::CutOff | Ended::Told(_) => Err(Refusal::NotConnected),
        Ended::Unfinished(failure) => Err(failure.refusal()),
        Ended::AtOnce => match out {
            Out::Begun(txn) => Ok(*txn),
            _ => Err(why(out)),
        },
    }
}

/// Why the other calls of a transaction are refused one of whose calls came to this, as long as that is unfinished: as the
/// transaction component refuses them.
pub fn bar(out: &Out) -> Refusal
    ensures { result ≡ bar_of out.now }
{
    match out {
        Out::RollingBack => Refusal::RollingBack,
        Out::CommitLogged(_) => Refusal::NotOpen,
        _ => Refusal::Unanswered,
    }
}
