//! How far the history was seen, on both sides of its lock.
ghost use Rattle.std.specs.Prelude.{◌≡◌, []};
ghost use Rattle.engine_agreement.specs.Agreed.{agreed_at};
ghost use Rattle.engine_history.specs.Slots.{seen, IsShown, spot};
ghost use Rattle.engine_history.specs.Views.{view_of};
ghost use Rattle.engine_history.specs.Witnessed.{AreWitnessed};

use crate::entry::Entry;
use crate::naming::Naming;
use boxcar::{Pushed, Vec as Entries};
use engine_agreement::{FarEnd, Mark};
use std::marker::{Model, PhantomData};

/// The history's side of a cursor: the last entry that was seen. Contracts see the steps up to it.
#[derive(Drop)]
pub struct CursorEnd<J: Naming> {
    far_end: FarEnd,
    last: Option<Pushed<Entry>>,
    of: PhantomData<J>,
}

impl<J: Naming> Model for CursorEnd<J> {
    ghost use Rattle.std.specs.Coded.{codes};
    ghost use Rattle.engine_history.specs.Views.{View, view_of, IsViewed};

    ghost Value = { View };

    ghost coded = { Prim.hlevel codes };

    ghost view = { λ p. view_of p.far_end p.last };

    ghost invariant = { λ p. IsViewed J.entries p.far_end p.last };
}

/// The side of whoever has seen it.
#[derive(Drop)]
pub struct Cursor<J: Naming> {
    mark: Mark,
    last: Option<Pushed<Entry>>,
    of: PhantomData<J>,
}

impl<J: Naming> Model for Cursor<J> {
    ghost use Rattle.std.specs.Coded.{codes};
    ghost use Rattle.engine_history.specs.Views.{View, view_of, IsViewed};

    ghost Value = { View };

    ghost coded = { Prim.hlevel codes };

    ghost view = { λ v. view_of v.mark v.last };

    ghost invariant = { λ v. IsViewed J.entries v.mark v.last };
}

// Both are the token of one entry, or there is none.
fn same_last(entries: &Entries<Entry>, one: &Option<Pushed<Entry>>, other: &Option<Pushed<Entry>>)
    requires one { IsShown entries.now one.now }
    requires other { IsShown entries.now other.now }
    requires spot { spot one.now ≡ spot other.now }
    ensures { seen one.now ≡ seen other.now }
{
    if let (Some(one), Some(other)) = (one, other) {
        entries.agrees(one, other);
    }
}

// The token again, if there is one.
pub fn again(token: &Option<Pushed<Entry>>) -> Option<Pushed<Entry>>
    ensures { result ≡ token.now }
{
    match token {
        Some(token) => Some(token.again()),
        None => None,
    }
}

// 0, or one more than the token's index.
fn spot_of<J: Naming>(token: &Option<Pushed<Entry>>) -> u64
    requires { IsShown J.entries token.now }
    ensures { result ≡ spot token.now }
{
    match token {
        Some(token) => token.index() as u64 + 1,
        None => 0,
    }
}

impl<J: Naming> CursorEnd<J> {
    /// Both sides of a cursor before all entries, by the ends of an agreement.
    pub fn new(far_end: FarEnd) -> CursorEnd<J>
        requires { far_end.number ≡ 0 }
        ensures { result ≡ record { name = far_end.name; steps = [] } }
    {
        CursorEnd {
            far_end,
            last: None,
            of: PhantomData,
        }
    }

    /// Both sides have seen the same steps. From now on they have seen those up to this entry.
    pub fn meet(
        &mut self,
        entries: &Entries<Entry>,
        cursor: &mut Cursor<J>,
        last: &Option<Pushed<Entry>>,
    )
        requires entries { entries.now ≡ J.entries }
        requires name { self.old.name ≡ cursor.old.name }
        requires shown { IsShown J.entries last.now }
        ensures same { self.old ≡ cursor.old }
        ensures cursor_end { self.new ≡ record { name = self.old.name; steps = seen last.now } }
        ensures cursor { cursor.new ≡ self.new }
    {
        let CursorEnd {
            far_end,
            last: here,
            of: _,
        } = self;
        let Cursor {
            mark,
            last: there,
            of: _,
        } = cursor;
        far_end.agree(mark);
        same_last(entries, here, there);
        far_end.set(mark, spot_of::<J>(last));
        *here = again(last);
        *there = again(last);
    }
}

impl<J: Naming> Cursor<J> {
    pub fn new(mark: Mark) -> Cursor<J>
        requires { mark.number ≡ 0 }
        ensures { result ≡ record { name = mark.name; steps = [] } }
    {
        Cursor {
            mark,
            last: None,
            of: PhantomData,
        }
    }

    /// What it has seen are the steps up to an entry, or none.
    pub fn kept(&self)
        ensures { AreWitnessed J.entries self.now.steps }
    {
        let _ = &self.mark;
    }
}
