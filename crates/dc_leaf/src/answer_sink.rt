//! Where the answer of an operation goes.
ghost use Rattle.std.specs.Prelude.{◌≡◌, ℕ, Option, option_map};
ghost use Rattle.std.specs.Option.{option_copied};
ghost use Rattle.record_key.specs.declared.op.Answer.{Answer as AnswerValue};
ghost use Rattle.record_key.specs.Lent.{answer_lent};

use record_key::{Answer, AnswerRef};

/// What takes answers, each by itself.
pub trait AnswerSink {
    /// It may be given the answer to the operation of this number, which this one asks for.
    ghost may_take: { Self → ℕ → ℕ → Type 0 };

    /// The answer that it was given last.
    ghost told: { Self → Option AnswerValue };

    /// Once it was given this answer it is this.
    ghost takes: { Self → ℕ → ℕ → Option AnswerValue → Self → Type 0 };

    /// Takes the answer to the operation of this number, for this asker. None: it is no longer kept. Takes no memory.
    fn take(&mut self, asker: u64, number: u64, answer: Option<&AnswerRef<'_>>)
        requires { may_take self.old asker number }
        ensures told { told self.new ≡ option_map answer_lent (option_copied answer.entry) }
        ensures taken { takes self.old asker number (option_map answer_lent (option_copied answer.entry)) self.new };
}

impl AnswerSink for Option<Answer> {
    ghost may_take = { λ old asker number. Unit };

    ghost told = { λ answer. answer };

    ghost takes = { λ old asker number answer new. new ≡ answer };

    fn take(&mut self, _asker: u64, _number: u64, answer: Option<&AnswerRef<'_>>) {
        *self = match answer {
            Some(answer) => Some(answer.owned()),
            None => None,
        };
    }
}
