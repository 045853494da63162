//! What was performed, which contracts alone see.
ghost use Rattle.std.specs.Prelude.{◌≡◌, []};
ghost use Rattle.record_key.specs.Lent.{op_lent};

use crate::performance::Performance;
use dc_leaf::AnswerSink;
use ghost_list::GhostList;
use record_key::OpRef;

/// A list of performances, the newest first. It has no bytes.
#[derive(Drop)]
pub struct Performances {
    pub list: GhostList<Performance>,
}

impl Performances {
    ghost use Rattle.dc_core.specs.Performing.{also_told};
    ghost use Rattle.dc_core.specs.Serves.{kept_to};

    /// Nothing was performed.
    pub fn new() -> Performances
        ensures { result.list.items ≡ [] }
    {
        Performances {
            list: GhostList::new(),
        }
    }

    /// These and a newer one, whose answer the sink was told.
    pub fn with<S: AnswerSink>(&self, number: u64, op: &OpRef<'_>, sink: &S) -> Performances
        ensures { result.list.items ≡ also_told number (op_lent op.now) (S.told sink.now) self.now.list.items }
    {
        Performances {
            list: GhostList::picked(number, &self.list, op, sink),
        }
    }

    /// Those whose numbers aren't above an end.
    pub fn up_to(&self, end: u64) -> Performances
        ensures { result.list.items ≡ kept_to end self.now.list.items }
    {
        Performances {
            list: GhostList::picked(end, &self.list, &(), &()),
        }
    }
}
