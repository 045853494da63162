//! The names by which what lies under locks of its own belongs together.
use std::marker::Brand;

/// Which engine it is. Each call of a program picks it.
pub trait Naming {
    ghost use Rattle.std.specs.Prelude.{ℕ};
    ghost use Rattle.boxcar.specs.Table.{Shelves};
    ghost use Rattle.atomic_table.specs.Seated.{TableId};
    ghost use Rattle.engine_history.specs.Steps.{Start};

    /// The components with which it begins.
    ghost start: { Start };

    /// Where the entries stand.
    ghost entries: { Shelves };

    /// The marks that its seats read.
    ghost marks: { TableId };

    /// The agreements: of the transaction component, of the data component, of the engine itself, and of each session.
    ghost names: { ℕ → ℕ };

    /// How many sessions there are.
    ghost sessions: { ℕ };
}

impl Naming for Brand {
    ghost use Rattle.std.specs.Prelude.{[]};
    ghost use Rattle.engine_history.specs.Steps.{fresh_start};

    ghost start = { fresh_start };

    ghost entries = { record { tag = []; buckets = [] } };

    ghost marks = { record {
      words = 0;
      slots = 0;
      views_name = 0;
      atom = 0;
      block = 0;
      offset = 0;
      slot_names = [];
    } };

    ghost names = { λ n. n };

    ghost sessions = { 0 };
}
