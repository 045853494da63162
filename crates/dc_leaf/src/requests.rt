//! Requests at a leaf, once and again.
ghost use Rattle.std.specs.Prelude.{◌≡◌, true, false, Some, OnOk, OnErr, IfOk, IsOk, IsOkUnless};
ghost use Rattle.dc_ab_lsn.specs.AbLsn.{captures, saved_in};
ghost use Rattle.record_key.specs.Lent.{op_lent};
ghost use Rattle.record_key.specs.Table.{key_of, answer_in};
ghost use Rattle.dc_leaf.specs.Leaf.{is_in_fences, performed, raised_to};
ghost use Rattle.dc_leaf.specs.Performs.{Performs};

use crate::answer_sink::AnswerSink;
use crate::leaf::{Done, Leaf};
use crate::rows::{answer_at, room_for, value_at, write_at};
use record_key::{OpRef, Refusal};

impl Leaf {
    /// Performs the operation under this number, or finds that it had been performed under it before; its answer then
    /// goes to the asker again, if that is still kept. The operation's key lies in the fences. Refused NoMemory, and
    /// unchanged then; a repeated number takes no memory.
    pub fn perform<S: AnswerSink>(
        &mut self,
        number: u64,
        op: &OpRef<'_>,
        asker: u64,
        sink: &mut S,
    ) -> Result<Done, Refusal>
        requires within { is_in_fences self.old (key_of (op_lent op.now)) ≡ true }
        requires may { S.may_take sink.old asker number }
        ensures done { IfOk result (λ done. Performs self.old number (op_lent op.now) done (S.told sink.new) self.new) }
        ensures given { OnOk result (S.takes sink.old asker number (S.told sink.new) sink.new) }
        ensures repeated { captures self.old.ab number ≡ true → IsOk result }
        ensures refused { OnErr result (self.new ≡ self.old) }
        ensures kept { OnErr result (sink.new ≡ sink.old) }
        ensures memory { IsOkUnless result Refusal.NoMemory }
    {
        if self.ab.captures(number) {
            self.tell_saved(number, asker, sink);
            return Ok(Done::Repeated);
        }
        self.perform_new(number, op, asker, sink)?;
        Ok(Done::Performed)
    }

    /// The sink takes the answer that is saved under the number, if that is still kept.
    fn tell_saved<S: AnswerSink>(&self, number: u64, asker: u64, sink: &mut S)
        requires { S.may_take sink.old asker number }
        ensures told { S.told sink.new ≡ saved_in self.now.ab.entries number }
        ensures given { S.takes sink.old asker number (S.told sink.new) sink.new }
    {
        match self.ab.answer_of(number) {
            Some(answer) => sink.take(asker, number, Some(&answer.lent())),
            None => sink.take(asker, number, None),
        }
    }

    // The answer stays lent from the row until what it says is written over.
    fn perform_new<S: AnswerSink>(
        &mut self,
        number: u64,
        op: &OpRef<'_>,
        asker: u64,
        sink: &mut S,
    ) -> Result<(), Refusal>
        requires within { is_in_fences self.old (key_of (op_lent op.now)) ≡ true }
        requires uncaptured { captures self.old.ab number ≡ false }
        requires may { S.may_take sink.old asker number }
        ensures answer { OnOk result (S.told sink.new ≡ Some (answer_in self.old.rows (op_lent op.now))) }
        ensures given { OnOk result (S.takes sink.old asker number (S.told sink.new) sink.new) }
        ensures performed { OnOk result (self.new ≡ performed self.old number (op_lent op.now)) }
        ensures refused { OnErr result (self.new ≡ self.old) }
        ensures kept { OnErr result (sink.new ≡ sink.old) }
        ensures memory { IsOkUnless result Refusal.NoMemory }
    {
        self.rows.make_room(room_for(op))?;
        let rows = self.rows.lent();
        let place = rows.place_of(op.key());
        let answer = answer_at(op, value_at(&rows, op.key(), place));
        self.ab.note(number, op.key(), &answer)?;
        sink.take(asker, number, Some(&answer));
        write_at(&mut self.rows, op, place);
        Ok(())
    }

    /// Counts every request up to this number as performed, and drops their answers. Takes no memory.
    pub fn raise(&mut self, low: u64)
        ensures { self.new ≡ raised_to self.old low }
    {
        self.ab.raise(low);
    }
}
