//! What the transaction component is to its clients: the list machines that it stands for by its log, its stable
//! end and its locks, and the step of theirs that each of its own is, a crash too.
//!
//! Knows: the definitions of `history` and the laws of legal logs.
//! Must not know: any code that keeps, forces or reads a log, and how the component keeps its transactions.
//! Promises the crates above that whatever the component stands for, after each of its steps it stands for a
//! machine that a line may leave, or for the same one; and that each refusal's cause is the machine's. Of the list
//! machine itself it promises that whatever has committed lasts, crashes included. Each law is the contract of a
//! function that does nothing.
#![tactic(auto)]

mod examples;
mod laws;
mod refusals;
mod running;
mod views;

pub use examples::{kept_commit, lost_commit};
pub use laws::{
    answered_law, begun_law, commit_law, crash_law, fresh_law, lasting_law, lost_law, opened_law,
    value_law,
};
pub use refusals::{
    bad_range_law, bad_savepoint_law, busy_law, full_law, node_refusal_law, not_open_law,
    rolling_back_law, unanswered_law,
};
pub use running::{
    act_law, asked_commit_law, back_law, begin_law, comp_law, go_back_law, read_law, rollback_law,
    rolled_back_law, save_law, told_answer_law, told_row_law, told_rows_law, undone_law,
};
pub use views::{
    calm_law, free_law, leftovers_law, let_go_law, neutral_law, plain_law, rebuilt_law,
};
