//! The history's entries, in order.
ghost use Rattle.std.specs.Prelude.{◌≡◌, ◌<◌, ℕ, [], ◌∷◌, ◌++◌, true, IfOk, IfSome, IfNone, OnErr, length, slice_get, cond, vec_len, vec_capacity};
ghost use Rattle.node_sides.specs.node_laws.specs.Halves.{IsSpelledIf, node_of};
ghost use Rattle.node_sides.specs.node_laws.specs.Messages.{message_at};
ghost use Rattle.engine_history.specs.Ending.{LeavesNode};
ghost use Rattle.engine_history.specs.Steps.{is_tc, RunsFrom, requests, replies, TcState, DcState, GivesTc, GivesDc, IsStart};
ghost use Rattle.engine_history.specs.Slots.{Shown, IsShown, seen, through, last_of};
ghost use Rattle.engine_history.specs.Views.{Sees};
ghost use Rattle.engine_history.specs.Kept.{is_dc, IsInRun, IsSentBy, EntersTc, EntersDc};

use crate::entry::Entry;
use crate::growth::{make_room, pushed};
use crate::naming::Naming;
use crate::step::Step;
use crate::trace::Trace;
use crate::tracing::{nothing, up_to};
use crate::view::{Cursor, CursorEnd, again};
use boxcar::{Pushed, Vec as Entries};
use engine_agreement::FarEnd;
use node_sides::{DcSide, TcSide};
use stable::{CrashLog, CrashPages};
use std::alloc::Global;
use std::marker::Model;
use std::sync::Wait;

/// The entries in order, as their tokens. Contracts see the steps.
#[derive(Drop)]
pub struct Lines<J: Naming> {
    tokens: Vec<Pushed<Entry>>,
    asked: Vec<Pushed<Entry>>,
    given: Vec<Pushed<Entry>>,
    tc: CursorEnd<J>,
    dc: CursorEnd<J>,
}

impl<J: Naming> Model for Lines<J> {
    ghost use Rattle.std.specs.Prelude.{List};
    ghost use Rattle.std.specs.Coded.{codes};
    ghost use Rattle.engine_history.specs.declared.step.Step.{Step};
    ghost use Rattle.engine_history.specs.Slots.{steps};
    ghost use Rattle.engine_history.specs.Kept.{LinesKept};

    ghost Value = { List Step };

    ghost coded = { Prim.hlevel codes };

    ghost view = { λ l. steps l.tokens.items };

    ghost invariant = { λ l. LinesKept J.start J.entries J.names l.tokens.items l.asked.items l.given.items l.tc l.dc };
}

/// No message of that number stands in the history.
#[derive(Debug, Clone, Copy, PartialEq, Eq)]
pub struct Unsent;

// The token at a place.
fn token_at(list: &[Pushed<Entry>], place: usize) -> Option<Pushed<Entry>>
    ensures { result ≡ slice_get list.now place }
{
    Some(list.get(place)?.again())
}

// The token of a number, from 1.
fn numbered(list: &[Pushed<Entry>], number: u64) -> Result<Pushed<Entry>, Unsent>
    ensures found { IfOk result (λ token. message_at list.now number ≡ Some token) }
    ensures none { OnErr result (message_at list.now number ≡ None) }
{
    if number == 0 {
        return Err(Unsent);
    }
    match token_at(list, number as usize - 1) {
        Some(token) => Ok(token),
        None => Err(Unsent),
    }
}

// The last token, if there is one.
fn last_of(tokens: &[Pushed<Entry>]) -> Option<Pushed<Entry>>
    ensures { result ≡ last_of tokens.now }
{
    token_at(tokens, tokens.len().saturating_sub(1))
}

// All steps up to an entry.
fn traced<J: Naming>(entries: &Entries<Entry>, last: &Option<Pushed<Entry>>) -> Trace
    requires entries { entries.now ≡ J.entries }
    requires shown { IsShown J.entries last.now }
    ensures { result.steps ≡ seen last.now }
{
    match last {
        Some(last) => up_to(entries.value(last)),
        None => nothing(),
    }
}

// Adds a token for which there is room, if it is wanted.
fn push_if(list: &mut Vec<Pushed<Entry>>, wanted: bool, token: &Pushed<Entry>)
    requires room { vec_len list.old < vec_capacity list.old }
    ensures items { list.new.items ≡ list.old.items ++ cond wanted (token.now ∷ []) [] }
{
    if wanted {
        list.push_reserved(token.again());
    }
}

impl<J: Naming> Lines<J> {
    /// No entries, with the far ends of the two components.
    pub fn new(alloc: Global, tc: FarEnd, dc: FarEnd) -> Lines<J>
        requires tc { (tc.name ≡ J.names 0) × (tc.number ≡ 0) }
        requires dc { (dc.name ≡ J.names 1) × (dc.number ≡ 0) }
        requires start { IsStart J.start }
        ensures { result ≡ [] }
    {
        Lines {
            tokens: Vec::new(alloc),
            asked: Vec::new(alloc),
            given: Vec::new(alloc),
            tc: CursorEnd::new(tc),
            dc: CursorEnd::new(dc),
        }
    }

    /// The entries are a run of the node, from its start on.
    pub fn is_run(&self)
        ensures { RunsFrom J.start self.now }
    {
        let _ = &self.tokens;
    }

    /// What they give of both components is what some run of the node through them leaves.
    pub fn leaves<D: CrashLog, P: CrashPages>(&self, tc: &TcSide<D>, dc: &DcSide<D, P>)
        requires tc { (sent : ℕ) × GivesTc J.start self.now record { side = tc.now; sent = sent } }
        requires dc { (given : ℕ) × GivesDc J.start self.now record { side = dc.now; given = given } }
        ensures { LeavesNode J.start self.now (node_of tc.now dc.now [] []) }
    {
        let _ = &self.tokens;
        let _ = tc;
        let _ = dc;
    }

    /// How many entries there are.
    pub fn count(&self) -> usize
        ensures { result ≡ length self.now }
    {
        self.tokens.len()
    }

    /// The entry at a place, from 0.
    pub fn token(&self, place: usize) -> Option<Pushed<Entry>>
        ensures shown { IfSome result (λ token. Shown J.entries token) }
        ensures step { IfSome result (λ token. slice_get self.now place ≡ Some token.value.step.value) }
        ensures none { IfNone result (slice_get self.now place ≡ None) }
    {
        token_at(&self.tokens, place)
    }

    /// The last entry.
    pub fn last(&self) -> Option<Pushed<Entry>>
        ensures shown { IsShown J.entries result }
        ensures seen { seen result ≡ self.now }
    {
        last_of(&self.tokens)
    }

    /// The transaction component has seen all entries from now on. None of its own came since it saw the last ones.
    pub fn meet_tc(&mut self, entries: &Entries<Entry>, cursor: &mut Cursor<J>)
        requires entries { entries.now ≡ J.entries }
        requires name { cursor.old.name ≡ J.names 0 }
        ensures same { self.new ≡ self.old }
        ensures cursor { cursor.new ≡ record { name = cursor.old.name; steps = self.old } }
        ensures sees { Sees is_tc cursor.old.steps self.old }
    {
        let last = last_of(&self.tokens);
        self.tc.meet(entries, cursor, &last);
    }

    /// The same of the data component, which some run of the node through these entries ends with.
    pub fn meet_dc<D: CrashLog, P: CrashPages>(
        &mut self,
        entries: &Entries<Entry>,
        cursor: &mut Cursor<J>,
        side: &DcSide<D, P>,
        given: u64,
    )
        requires entries { entries.now ≡ J.entries }
        requires name { cursor.old.name ≡ J.names 1 }
        requires gives { GivesDc J.start cursor.old.steps record { side = side.now; given = given } }
        ensures same { self.new ≡ self.old }
        ensures cursor { cursor.new ≡ record { name = cursor.old.name; steps = self.old } }
        ensures sees { Sees is_dc cursor.old.steps self.old }
        ensures run { IsInRun J.start self.old side.now }
    {
        let last = last_of(&self.tokens);
        self.dc.meet(entries, cursor, &last);
    }

    /// The entry that sent the request of this number, if one did.
    pub fn request(&self, number: u64) -> Result<Pushed<Entry>, Unsent>
        ensures shown { IfOk result (λ token. Shown J.entries token) }
        ensures sent { IfOk result (λ token. IsSentBy (requests self.now) number token.value.step.value.sent) }
        ensures spelled { IfOk result (λ token. IsSpelledIf token.value.step.value.sent) }
        ensures none { OnErr result (message_at (requests self.now) number ≡ None) }
    {
        numbered(&self.asked, number)
    }

    /// The entry that gave the reply of this number, if one did.
    pub fn reply(&self, number: u64) -> Result<Pushed<Entry>, Unsent>
        ensures shown { IfOk result (λ token. Shown J.entries token) }
        ensures given { IfOk result (λ token. IsSentBy (replies self.now) number token.value.step.value.given) }
        ensures none { OnErr result (message_at (replies self.now) number ≡ None) }
    {
        numbered(&self.given, number)
    }

    /// Enters a step of the transaction component.
    pub fn enter_tc<R: Wait>(
        &mut self,
        rt: &R,
        entries: &Entries<Entry>,
        cursor: &mut Cursor<J>,
        step: Box<Step>,
    ) -> Pushed<Entry>
        requires entries { entries.now ≡ J.entries }
        requires name { cursor.old.name ≡ J.names 0 }
        requires tc { is_tc step.value ≡ true }
        requires enters { (n : TcState) × EntersTc J.start cursor.old.steps step.value n }
        ensures shown { Shown J.entries result }
        ensures value { result.value.step.value ≡ step.value }
        ensures through { through result.value ≡ self.old ++ step.value ∷ [] }
        ensures before { result.value.before.steps ≡ self.old }
        ensures entered { self.new ≡ self.old ++ step.value ∷ [] }
        ensures cursor { cursor.new ≡ record { name = cursor.old.name; steps = self.new } }
        ensures sees { Sees is_tc cursor.old.steps self.old }
        ensures gives { (n : TcState) → EntersTc J.start cursor.old.steps step.value n → GivesTc J.start cursor.new.steps n }
    {
        let Lines {
            tokens,
            asked,
            given: _,
            tc,
            dc: _,
        } = self;
        make_room(rt, tokens);
        make_room(rt, asked);
        let last = last_of(tokens);
        let asks = step.sent.is_some();
        let before = traced::<J>(entries, &last);
        let token = pushed(rt, entries, Entry { step, before });
        tc.meet(entries, cursor, &Some(token.again()));
        push_if(asked, asks, &token);
        push_if(tokens, true, &token);
        token
    }

    /// Enters a step of the data component.
    pub fn enter_dc<R: Wait>(
        &mut self,
        rt: &R,
        entries: &Entries<Entry>,
        cursor: &mut Cursor<J>,
        step: Box<Step>,
    ) -> Pushed<Entry>
        requires entries { entries.now ≡ J.entries }
        requires name { cursor.old.name ≡ J.names 1 }
        requires dc { is_dc step.value ≡ true }
        requires enters { (n : DcState) × EntersDc J.start cursor.old.steps step.value n }
        ensures shown { Shown J.entries result }
        ensures value { result.value.step.value ≡ step.value }
        ensures through { through result.value ≡ self.old ++ step.value ∷ [] }
        ensures before { result.value.before.steps ≡ self.old }
        ensures entered { self.new ≡ self.old ++ step.value ∷ [] }
        ensures cursor { cursor.new ≡ record { name = cursor.old.name; steps = self.new } }
        ensures sees { Sees is_dc cursor.old.steps self.old }
        ensures gives { (n : DcState) → EntersDc J.start cursor.old.steps step.value n → GivesDc J.start cursor.new.steps n }
    {
        let Lines {
            tokens,
            asked: _,
            given,
            tc: _,
            dc,
        } = self;
        make_room(rt, tokens);
        make_room(rt, given);
        let last = last_of(tokens);
        let gives = step.given.is_some();
        let before = traced::<J>(entries, &last);
        let token = pushed(rt, entries, Entry { step, before });
        dc.meet(entries, cursor, &Some(token.again()));
        push_if(given, gives, &token);
        push_if(tokens, true, &token);
        token
    }
}
