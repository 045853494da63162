//! The law of crashes, over the definitions alone.
ghost use Rattle.std.specs.Prelude.{◌≡◌, ℕ, ◌++◌, List, take};
ghost use Rattle.stable.specs.Crash.{MayLeave};

/// To keep all forced bytes and some number of the others is all that a crash may do.
pub fn crash_law()
    ensures leaves { (forced pending : List ℕ) (kept : ℕ)
        → MayLeave forced pending (forced ++ take kept pending) }
    ensures nothing_else { (forced pending left : List ℕ) → MayLeave forced pending left
        → (kept : ℕ) × (left ≡ forced ++ take kept pending) }
{}
