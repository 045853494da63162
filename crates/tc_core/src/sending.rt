//! What a transaction sends.
ghost use Rattle.std.specs.Prelude.{ℕ, Ok, IfSome, IfNone};
ghost use Rattle.record_key.specs.Table.{Bytes};
ghost use Rattle.codec.specs.declared.request.Request.TheVariants as asks;
ghost use Rattle.tc_core.specs.Calls.{ResendGives, IsOpRequest, IsReadRequest, IsAwaitedOp};
ghost use Rattle.tc_core.specs.Kept.{IsTc};
ghost use Rattle.tc_core.specs.Seen.{seen};

use crate::parts::Parts;
use crate::requests::read_request;
use codec::Request;
use record_key::{Key, Refusal};
use stable::LogDevice;
use tc_locks::Span;

impl<D: LogDevice> Parts<D> {
    pub fn resend(&self, txn: u64) -> Result<Request, Refusal>
        requires { IsTc (seen self.now) }
        ensures gives { ResendGives (seen self.now) txn result }
    {
        let opened = self.open_at(txn)?;
        if let Some(read) = &opened.reading {
            return Ok(read_request(self.session, read));
        }
        let Some(number) = opened.waiting else {
            return Err(Refusal::Unsent);
        };
        Ok(self.perform(number))
    }

    pub fn awaited_op(&self, txn: u64) -> Option<(u64, &[u8])>
        requires { IsTc (seen self.now) }
        ensures sent { IfSome result (λ sent. IsAwaitedOp (seen self.now) txn sent.0 sent.1.now) }
        ensures none { IfNone result ((request : Request) → IsOpRequest (seen self.now) txn request → ⊥) }
    {
        let Ok(opened) = self.open_at(txn) else {
            return None;
        };
        let number = opened.waiting?;
        Some((number, self.log.asked_bytes(number)?))
    }

    pub fn awaited_key(&self, txn: u64) -> Option<(u64, &Key)>
        requires { IsTc (seen self.now) }
        ensures asked { IfSome result (λ asked. ResendGives (seen self.now) txn
            (Ok (asks.Get (seen self.now).session asked.0 asked.1.now))) }
        ensures none { IfNone result ((read : ℕ) (key : Bytes)
            → IsReadRequest (seen self.now) txn (asks.Get (seen self.now).session read key) → ⊥) }
    {
        let Ok(opened) = self.open_at(txn) else {
            return None;
        };
        let read = opened.reading.as_ref()?;
        match &read.span {
            Span::Key(key) => Some((read.number, key)),
            Span::Range { .. } => None,
        }
    }
}
