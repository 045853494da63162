//! Messages, and how they arrive.

/// What a message says.
#[derive(Clone, Copy)]
pub enum About {
    Connect,
    /// To perform the operation of a record.
    Perform(u64),
    Read,
    Low,
    Checkpoint,
    Tell,
    RedoEnd,
}

/// A message. Requests and replies are numbered apart, each from 1, and anew once all were let go.
#[derive(Clone, Copy)]
pub struct Message {
    pub is_reply: bool,
    pub number: u64,
    pub sent: usize,
    /// How many sessions had been started when it was sent.
    pub session: u64,
    pub about: About,
    pub deliveries: u64,
    /// It was let go: none of this number can be delivered any more, or another one has it.
    pub is_gone: bool,
}

/// How a message arrived.
#[derive(Clone, Copy)]
pub enum Fate {
    First,
    Again,
    /// Behind one that was sent after it, or in another session.
    Late,
    /// Late, and not for the first time.
    LateAgain,
    /// At a component that is down.
    Missed,
}

#[derive(Clone, Copy)]
pub struct Delivery {
    pub is_reply: bool,
    pub number: u64,
    pub sent: usize,
    pub step: usize,
    pub fate: Fate,
}
