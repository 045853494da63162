//! Steps that contracts alone see.
ghost use Rattle.std.specs.Prelude.{List};
ghost use Rattle.std.specs.Coded.{codes};
ghost use Rattle.engine_history.specs.declared.step.Step.{Step};

use std::marker::{Model, PhantomData};

/// A list of steps. It has no bytes.
pub struct Trace {
    pub(crate) marker: PhantomData<()>,
    pub ghost steps: { List Step } by { Prim.hlevel codes },
}

impl Model for Trace {
    ghost use Rattle.std.specs.Borrow.{ftrue};

    ghost also_owns = { λ _. ftrue };
}

impl Drop for Trace {
    fn drop(self) {
        let Self { marker: _ } = self;
    }
}

unsafe impl Send for Trace {}

unsafe impl Sync for Trace {}
