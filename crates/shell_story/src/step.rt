//! A step of a story: an event with what it came to. Steps are counted from 0.
use dc_leaf::Leaf;
use record_key::Refusal;
use shell_scripts::node_world::Out;

/// What an event is.
#[derive(Clone, Copy)]
pub enum Doing {
    Begin,
    Write,
    Ask,
    Save,
    GoBack(u64),
    Rollback,
    Commit,
    Undo,
    Force,
    Send,
    Low,
    Checkpoint,
    Tell,
    Leaf,
    Request(u64),
    Reply(u64),
    CrashTc,
    RestartTc,
    CrashDc,
    RestartDc,
    Fail,
    Connect,
    Recover,
    Show,
}

/// An event of a line.
#[derive(Drop)]
pub struct Step<'a> {
    /// The line's number, from 1.
    pub line: u64,
    /// The line's own bytes.
    pub text: &'a [u8],
    /// Whether it is one of several events of a line that settles.
    pub is_round: bool,
    pub doing: Doing,
    /// Whose it is, 0 if no transaction's.
    pub txn: u64,
    pub out: Out,
}

/// Whether memory or a device failed.
pub fn is_failure(out: &Out) -> bool {
    matches!(out, Out::Refused(Refusal::NoMemory | Refusal::Device))
}
