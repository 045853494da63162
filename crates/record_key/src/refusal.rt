//! Why a call was refused.
use std::alloc::{AllocError, AllocFailed};
use thiserror::Error;

/// The twenty refusals. The order in which a call tests for them is the call's own contract.
#[derive(Debug, Clone, Copy, PartialEq, Eq, Error)]
pub enum Refusal {
    #[error("out of memory")]
    NoMemory,
    #[error("transaction {0} holds a conflicting lock")]
    Busy(u64),
    #[error("no open transaction of that number")]
    NotOpen,
    #[error("the transaction has an unanswered request")]
    Unanswered,
    #[error("the transaction is being rolled back")]
    RollingBack,
    #[error("recovery is under way")]
    Redoing,
    #[error("no such savepoint")]
    BadSavepoint,
    #[error("a message of another session")]
    Stale,
    #[error("not connected")]
    NotConnected,
    #[error("a device failed")]
    Device,
    #[error("a key has at least one byte")]
    EmptyKey,
    #[error("a key has at most 32 bytes, a value at most 120")]
    TooLong,
    #[error("the upper end of a range is above its lower end")]
    BadRange,
    #[error("no more of these at a time")]
    Full,
    #[error("not stable yet")]
    BeyondStable,
    #[error("nothing to send")]
    Unsent,
    #[error("line {0} isn't in the grammar")]
    BadScript(u64),
    #[error("the condition of this change fails")]
    NotNow,
    #[error("the bytes at offset {0} aren't in the grammar or don't fit")]
    BadBytes(u64),
    #[error("the next number would be 2 to the power of 48")]
    NumbersSpent,
}

impl Refusal {
    ghost use Rattle.std.specs.Prelude.{◌≡◌};
    ghost use Rattle.record_key.specs.Refusals.{number_of, name_of};

    /// The refusal's number, 1 to 20.
    pub fn number(self) -> u8
        ensures { result ≡ number_of self }
    {
        match self {
            Refusal::NoMemory => 1,
            Refusal::Busy(_) => 2,
            Refusal::NotOpen => 3,
            Refusal::Unanswered => 4,
            Refusal::RollingBack => 5,
            Refusal::Redoing => 6,
            Refusal::BadSavepoint => 7,
            Refusal::Stale => 8,
            Refusal::NotConnected => 9,
            Refusal::Device => 10,
            Refusal::EmptyKey => 11,
            Refusal::TooLong => 12,
            Refusal::BadRange => 13,
            Refusal::Full => 14,
            Refusal::BeyondStable => 15,
            Refusal::Unsent => 16,
            Refusal::BadScript(_) => 17,
            Refusal::NotNow => 18,
            Refusal::BadBytes(_) => 19,
            Refusal::NumbersSpent => 20,
        }
    }

    /// The refusal's name, as it is printed.
    pub fn name(self) -> &'static str
        ensures { result.now ≡ name_of self }
    {
        match self {
            Refusal::NoMemory => "NoMemory",
            Refusal::Busy(_) => "Busy",
            Refusal::NotOpen => "NotOpen",
            Refusal::Unanswered => "Unanswered",
            Refusal::RollingBack => "RollingBack",
            Refusal::Redoing => "Redoing",
            Refusal::BadSavepoint => "BadSavepoint",
            Refusal::Stale => "Stale",
            Refusal::NotConnected => "NotConnected",
            Refusal::Device => "Device",
            Refusal::EmptyKey => "EmptyKey",
            Refusal::TooLong => "TooLong",
            Refusal::BadRange => "BadRange",
            Refusal::Full => "Full",
            Refusal::BeyondStable => "BeyondStable",
            Refusal::Unsent => "Unsent",
            Refusal::BadScript(_) => "BadScript",
            Refusal::NotNow => "NotNow",
            Refusal::BadBytes(_) => "BadBytes",
            Refusal::NumbersSpent => "NumbersSpent",
        }
    }
}

impl From<AllocError> for Refusal {
    ghost use Rattle.std.specs.Prelude.{◌≡◌};
    ghost use Rattle.record_key.specs.declared.refusal.Refusal.TheVariants.{NoMemory};

    ghost from_gives = { λ _ e. e ≡ NoMemory };

    fn from(_e: AllocError) -> Refusal {
        Refusal::NoMemory
    }
}

impl<T: Drop> From<AllocFailed<T>> for Refusal {
    ghost use Rattle.std.specs.Prelude.{◌≡◌};
    ghost use Rattle.record_key.specs.declared.refusal.Refusal.TheVariants.{NoMemory};

    ghost from_gives = { λ _ e. e ≡ NoMemory };

    fn from(_e: AllocFailed<T>) -> Refusal {
        Refusal::NoMemory
    }
}
