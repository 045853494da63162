//! Two ends that agree on a number, under locks of their own. Only who holds both can change it.
//! It knows nothing of what the number stands for.
#![tactic(auto)]

ghost use Rattle.std.specs.Prelude.{◌≡◌, ℕ, ◌+◌, ◌≤◌};
ghost use Rattle.core.specs.Sync.Ledger.{book_owns, share_owns};
ghost use Rattle.engine_agreement.specs.Agreed.{agreed_at};

use std::marker::{Model, PhantomData};

// The end that lies beside the record of the whole.
struct Far {
    marker: PhantomData<()>,
    pub ghost name: { ℕ },
    pub ghost value: { ℕ },
}

impl Model for Far {
    ghost also_owns = { λ f. book_owns f.name 1 f.value };
}

// The end that lies beside a part of it.
struct Near {
    marker: PhantomData<()>,
    pub ghost name: { ℕ },
    pub ghost value: { ℕ },
}

impl Model for Near {
    ghost also_owns = { λ n. share_owns n.name 1 1 n.value };
}

// Two ends of one name, at 0.
fn both_ends() -> (Far, Near)
    ensures name { result.0.name ≡ result.1.name }
    ensures far { result.0.value ≡ 0 }
    ensures near { result.1.value ≡ 0 }
{
    (
        Far {
            marker: PhantomData,
        },
        Near {
            marker: PhantomData,
        },
    )
}

fn record(far: &mut Far, near: &mut Near, plus: u64, minus: u64)
    requires name { far.old.name ≡ near.old.name }
    requires enough { minus ≤ near.old.value }
    ensures agreed { far.old.value ≡ near.old.value }
    ensures moved { far.new.value + minus ≡ far.old.value + plus }
    ensures agree { far.new.value ≡ near.new.value }
    ensures far { far.new.name ≡ far.old.name }
    ensures near { near.new.name ≡ near.old.name }
{}

// Both ends agree.
fn agree(far: &mut Far, near: &mut Near)
    requires name { far.old.name ≡ near.old.name }
    ensures agree { far.old.value ≡ near.old.value }
    ensures far { (far.new.name ≡ far.old.name) × (far.new.value ≡ far.old.value) }
    ensures near { (near.new.name ≡ near.old.name) × (near.new.value ≡ near.old.value) }
{
    record(far, near, 0, 0)
}

// Both ends agree, and go from one number to another.
fn change(far: &mut Far, near: &mut Near, from: u64, to: u64)
    requires name { far.old.name ≡ near.old.name }
    requires from { near.old.value ≡ from }
    ensures agree { far.old.value ≡ from }
    ensures far { (far.new.name ≡ far.old.name) × (far.new.value ≡ to) }
    ensures near { (near.new.name ≡ near.old.name) × (near.new.value ≡ to) }
{
    record(far, near, to, from)
}

impl Drop for Far {
    fn drop(self) {
        let Self { marker: _ } = self;
    }
}

impl Drop for Near {
    fn drop(self) {
        let Self { marker: _ } = self;
    }
}

unsafe impl Send for Far {}

unsafe impl Send for Near {}

/// A number beside the record of the whole, that agrees with a mark under another lock.
#[derive(Drop)]
pub struct FarEnd {
    number: u64,
    far: Far,
}

impl Model for FarEnd {
    ghost use Rattle.std.specs.Prelude.{◌≡◌};
    ghost use Rattle.engine_agreement.specs.Agreed.{Agreed};

    ghost Value = { Agreed };

    ghost view = { λ b. record { name = b.far.name; number = b.number } };

    ghost invariant = { λ b. b.far.value ≡ b.number };
}

/// The same number beside a part of it.
#[derive(Drop)]
pub struct Mark {
    number: u64,
    near: Near,
}

impl Model for Mark {
    ghost use Rattle.std.specs.Prelude.{◌≡◌};
    ghost use Rattle.engine_agreement.specs.Agreed.{Agreed};

    ghost Value = { Agreed };

    ghost view = { λ m. record { name = m.near.name; number = m.number } };

    ghost invariant = { λ m. m.near.value ≡ m.number };
}

impl FarEnd {
    /// A far end and its mark, at 0.
    pub fn open() -> (FarEnd, Mark)
        ensures far_end { result.0.number ≡ 0 }
        ensures mark { result.1 ≡ result.0 }
    {
        let (far, near) = both_ends();
        (FarEnd { number: 0, far }, Mark { number: 0, near })
    }

    pub fn number(&self) -> u64
        ensures { result ≡ self.now.number }
    {
        self.number
    }

    /// Both have one number.
    pub fn agree(&mut self, mark: &mut Mark)
        requires name { self.old.name ≡ mark.old.name }
        ensures agree { self.old ≡ mark.old }
        ensures far_end { self.new ≡ self.old }
        ensures mark { mark.new ≡ mark.old }
    {
        let FarEnd { number: _, far } = self;
        let Mark { number: _, near } = mark;
        agree(far, near);
    }

    /// Both get another number.
    pub fn set(&mut self, mark: &mut Mark, to: u64)
        requires name { self.old.name ≡ mark.old.name }
        ensures agree { self.old ≡ mark.old }
        ensures far_end { self.new ≡ agreed_at self.old.name to }
        ensures mark { mark.new ≡ agreed_at mark.old.name to }
    {
        let FarEnd { number, far } = self;
        let Mark {
            number: beside,
            near,
        } = mark;
        change(far, near, *beside, to);
        *number = to;
        *beside = to;
    }
}

impl Mark {
    pub fn number(&self) -> u64
        ensures { result ≡ self.now.number }
    {
        self.number
    }
}
