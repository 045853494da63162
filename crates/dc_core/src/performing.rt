//! Numbers that are sent once and again.
ghost use Rattle.std.specs.Prelude.{◌≡◌, ◌<◌, ◌^◌, true, IsOk, IfErr, OnOk, OnErr};
ghost use Rattle.record_key.specs.Lent.{op_lent};
ghost use Rattle.record_key.specs.Table.{key_of};
ghost use Rattle.dc_core.specs.DcView.{captures_at};
ghost use Rattle.dc_core.specs.Performing.{Answers};
ghost use Rattle.dc_core.specs.Serves.{MayPerform};

use crate::dc::Dc;
use dc_leaf::{AnswerSink, Done};
use record_key::{Key, OpRef, Refusal};
use stable::{LogDevice, PageDevice};

impl<D: LogDevice, P: PageDevice> Dc<D, P> {
    /// Performs a new number, or answers a repeated one, by one descent to the leaf. The answer goes into the sink.
    pub(crate) fn perform_once<S: AnswerSink>(
        &mut self,
        number: u64,
        op: &OpRef<'_>,
        asker: u64,
        sink: &mut S,
    ) -> Result<(), Refusal>
        requires numbered { number < 2 ^ 48 }
        requires may { MayPerform self.old number (op_lent op.now) }
        requires may_take { S.may_take sink.old asker number }
        ensures answered { OnOk result (Answers self.old number (op_lent op.now) (S.told sink.new)
            self.new) }
        ensures given { OnOk result (S.takes sink.old asker number (S.told sink.new) sink.new) }
        ensures refused { IfErr result (λ refusal. refusal ≡ Refusal.NoMemory) }
        ensures memory { captures_at self.old (key_of (op_lent op.now)) number ≡ true → IsOk result }
        ensures unchanged { OnErr result (self.new ≡ self.old) }
        ensures untold { OnErr result (sink.new ≡ sink.old) }
    {
        match self.system.perform(number, op, asker, sink)? {
            Done::Performed => {
                self.system.kept();
                self.performed = self.performed.with(number, op, sink);
            }
            Done::Repeated => {}
        }
        Ok(())
    }

    /// Whether the leaf of the key has captured the number.
    pub(crate) fn captures(&self, number: u64, key: &Key) -> bool
        ensures { result ≡ captures_at self.now key.now number }
    {
        let place = self.system.place_of(key);
        self.system.leaf(place).captures(number)
    }
}
