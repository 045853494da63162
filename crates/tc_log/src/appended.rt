//! What is appended to the log: a record, or the parts of one that are lent, so that they aren't copied for it.
ghost use Rattle.std.specs.Prelude.{◌≡◌, Option, is_some};
ghost use Rattle.codec.specs.Frames.{frame};
ghost use Rattle.codec.specs.Records.{record_bytes, HasNumbers, IsRecord};
ghost use Rattle.history.specs.Log.{request_of};
ghost use Rattle.tc_log.specs.Appended.{record_of};
ghost use Rattle.tc_log.specs.NotSession.{last_with as with_this};

use crate::not_session::last_with;
use crate::note::asks;
use codec::{GivenAnswer, put_given_answer, put_op_record, put_record};
use history::Record;
use record_key::Op;
use stable::{DeviceError, Spelling};
use std::alloc::Global;

/// A record, or the parts of one.
#[derive(Clone, Copy)]
pub(crate) enum Appended<'a> {
    Whole(&'a Record),
    Op {
        txn: u64,
        prev: u64,
        op: &'a Op,
    },
    Answer {
        of: u64,
        answer: &'a GivenAnswer<'a>,
    },
}

impl Spelling for Appended<'_> {
    ghost bytes = { λ appended. frame (record_bytes (record_of appended)) };

    ghost may_put = { λ appended. HasNumbers (record_of appended) };

    ghost shows = { λ appended. IsRecord (record_of appended) };

    #[inline(always)]
    fn put(&self, out: &mut Vec<u8>) -> Result<(), DeviceError> {
        let put = match self {
            Appended::Whole(record) => put_record(out, record),
            Appended::Op { txn, prev, op } => put_op_record(out, *txn, *prev, op),
            Appended::Answer { of, answer } => put_given_answer(out, *of, answer),
        };
        put.map_err(|_| DeviceError::NoMemory)
    }
}

impl Appended<'_> {
    /// It has something done to the table.
    #[inline(always)]
    pub(crate) fn asks(&self) -> bool
        ensures { result ≡ is_some (request_of (record_of self.now)) }
    {
        match self {
            Appended::Whole(record) => asks(record),
            Appended::Op { .. } => true,
            Appended::Answer { .. } => false,
        }
    }

    /// The number of the last record that isn't a Session, once this one of this number is taken in.
    #[inline(always)]
    pub(crate) fn last_with(&self, number: u64, last: u64) -> u64
        ensures { result ≡ with_this (record_of self.now) number last }
    {
        match self {
            Appended::Whole(record) => last_with(record, number, last),
            Appended::Op { .. } | Appended::Answer { .. } => number,
        }
    }
}
