//! What is true of every legal log.
ghost use Rattle.log_laws.specs.Laws.{BeginningsAreLegal, LegalIsChainedAndStrict, LegalIsCompensatedOnce, LegalIsOneAtATime, UndoIsFound, RightAnswersAreUnique, CompensationsBracket, AddsRequestAdds, CompensationsCancel, PlainOfHistory, AnsweredIsPlain, SettledIsPlain};

/// A beginning of a legal log is legal, and has right answers where the log has them.
pub fn beginning_law()
    ensures { BeginningsAreLegal }
{}

/// Compensations come latest first and once, and an open transaction has its keys to itself, but for Adds.
pub fn chain_law()
    ensures { LegalIsChainedAndStrict }
{}

/// No operation is named by two compensations.
pub fn compensated_once_law()
    ensures { LegalIsCompensatedOnce }
{}

/// Of two requests on a key the earlier is answered before the later one stands, unless both do or undo Adds.
pub fn one_at_a_time_law()
    ensures { LegalIsOneAtATime }
{}

/// Two looks at a log find what a transaction has left to undo, and what is left after that.
pub fn undo_chain_law()
    ensures { UndoIsFound }
{}

/// A lost Answer record can only come back the same.
pub fn answer_law()
    ensures { RightAnswersAreUnique }
{}

/// Where a compensation fits, its key holds what the operation leaves of what the others that stand leave, so the
/// inverse gives that back.
pub fn bracket_law()
    ensures { CompensationsBracket }
{}

/// Where the answers are right, just what does an Add or undoes one requests an Add.
pub fn add_request_law()
    ensures { AddsRequestAdds }
{}

/// Operations and inverses together leave what the operations that no compensation names leave alone.
pub fn cancel_law()
    ensures { CompensationsCancel }
{}

/// The plain map of a log's history holds what its answered operations leave that no compensation names.
pub fn plain_history_law()
    ensures { PlainOfHistory }
{}

/// Where all is answered, a key of which everything is captured holds what that plain map has.
pub fn settled_law()
    ensures { SettledIsPlain }
{}

/// Where only operations wait for their answers, the answered requests leave what that plain map has.
pub fn answered_law()
    ensures { AnsweredIsPlain }
{}
