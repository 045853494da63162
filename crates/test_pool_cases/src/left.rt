//! What an engine leaves, as a trait: who judges is proved for whatever has it.
use engine_answers::engine_history::Step;
use record_key::{Key, Value};

/// What is left: steps in their order, and the records where the data component runs.
pub trait Leaves {
    fn count(&self) -> usize;

    fn step_at(&self, place: usize) -> Option<&Step>;

    fn records(&self) -> Option<&[(Key, Value)]>;
}
