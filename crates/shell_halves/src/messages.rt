//! Messages by their numbers.
use codec::{Reply, Taken, take_reply};
use record_key::Refusal;
use std::alloc::{AllocError, Global};

/// The frames of what a transaction component has asked and of what it was replied, each numbered from 1 on in the order
/// in which they were made or came in, as a node numbers its own. They are kept until they are let go.
#[derive(Drop)]
pub struct Messages {
    alloc: Global,
    requests: Vec<Made>,
    replies: Vec<Vec<u8>>,
    // So many, from the first one on, were surely sent.
    sent_to: u64,
}

/// A request, and whether it was sent.
#[derive(Drop)]
struct Made {
    frame: Vec<u8>,
    is_sent: bool,
}

impl Messages {
    pub fn new(alloc: Global) -> Messages {
        Messages {
            alloc,
            requests: Vec::new(alloc),
            replies: Vec::new(alloc),
            sent_to: 0,
        }
    }

    /// How many requests were made.
    pub fn asked(&self) -> u64 {
        self.requests.len() as u64
    }

    /// How many replies have come in.
    pub fn replied(&self) -> u64 {
        self.replies.len() as u64
    }

    /// One request more, which isn't sent yet.
    pub fn add_request(&mut self, frame: Vec<u8>) -> Result<(), AllocError> {
        let made = Made {
            frame,
            is_sent: false,
        };
        self.requests.push(made)?;
        Ok(())
    }

    /// One reply more: its number.
    pub fn add_reply(&mut self, frame: &[u8]) -> Result<u64, AllocError> {
        let mut kept = Vec::new(self.alloc);
        kept.extend_from_slice(frame)?;
        self.replies.push(kept)?;
        Ok(self.replied())
    }

    /// The frame of the request of this number.
    pub fn request(&self, number: u64) -> Option<&[u8]> {
        let made = self.requests.get(place_of(number)?)?;
        Some(made.frame.as_slice())
    }

    /// Whether the request of this number was sent.
    pub fn is_sent(&self, number: u64) -> bool {
        match place_of(number) {
            Some(place) => place < self.requests.len() && self.requests[place].is_sent,
            None => false,
        }
    }

    /// The request of this number is sent.
    pub fn mark_sent(&mut self, number: u64) {
        if let Some(place) = place_of(number) {
            if place < self.requests.len() {
                self.requests[place].is_sent = true;
            }
        }
    }

    /// Of how many, from the first one on, it is known that they were sent.
    pub fn sent_to(&self) -> u64 {
        self.sent_to
    }

    /// Each request that was made is sent.
    pub fn mark_all_sent(&mut self) {
        self.sent_to = self.asked();
    }

    /// The reply of this number, if it has come in. Refused NoMemory.
    pub fn reply(&self, number: u64) -> Result<Option<Reply>, Refusal> {
        let Some(place) = place_of(number) else {
            return Ok(None);
        };
        match self.replies.get(place) {
            Some(frame) => reply_in(self.alloc, frame.as_slice()),
            None => Ok(None),
        }
    }

    /// Lets each message go: the next request and the next reply are numbered 1.
    pub fn forget(&mut self) {
        self.requests.clear();
        self.replies.clear();
        self.sent_to = 0;
    }
}

/// Where the message of a number stands.
fn place_of(number: u64) -> Option<usize> {
    let place = number.checked_sub(1)?;
    Some(place as usize)
}

/// The reply that a frame is, if it is one. Refused NoMemory.
pub fn reply_in(alloc: Global, frame: &[u8]) -> Result<Option<Reply>, Refusal> {
    match take_reply(alloc, frame, 0)? {
        Taken::Record(reply, end) if end == frame.len() => Ok(Some(reply)),
        _ => Ok(None),
    }
}
