//! A message in a box of its own: of a hundred steps of a transaction forty send one, and the others are small.
ghost use Rattle.std.specs.Prelude.{◌≡◌, None};
ghost use Rattle.std.specs.Option.{is_some, option_copied};

use crate::growth::boxed;
use std::alloc::Global;
use std::marker::Model;
use std::sync::Wait;

/// A message, if there is one. Contracts see the message.
#[derive(Debug, Drop)]
pub struct Message<T> {
    inside: Option<Box<T>>,
}

impl<T> Model for Message<T> {
    ghost use Rattle.std.specs.Prelude.{Option};
    ghost use Rattle.std.specs.Coded.{coded_option};

    ghost Value = { Option T };

    ghost coded = { coded_option T.code };

    ghost use Rattle.engine_history.specs.Messages.{unboxed};

    ghost view = { λ m. unboxed m.inside };
}

impl<T> Message<T> {
    /// No message.
    pub fn none() -> Message<T>
        ensures { result ≡ None }
    {
        Message { inside: None }
    }

    pub fn is_some(&self) -> bool
        ensures { result ≡ is_some self.now }
    {
        self.inside.is_some()
    }

    pub fn get(&self) -> Option<&T>
        ensures { option_copied result ≡ self.now }
    {
        match &self.inside {
            Some(message) => Some(message),
            None => None,
        }
    }
}

impl<T: Drop> Message<T> {
    /// Where memory for it is refused it is tried again until it is made.
    pub fn new<R: Wait>(rt: &R, alloc: Global, message: Option<T>) -> Message<T>
        ensures { result ≡ message }
    {
        match message {
            Some(message) => Message {
                inside: Some(boxed(rt, alloc, message)),
            },
            None => Message::none(),
        }
    }
}
