//! What the values of frames have in common.
ghost use Rattle.std.specs.Prelude.{◌≡◌, ℕ, List, IfOk, IfErr, Some, None, if◌then◌else◌};
ghost use Rattle.codec.specs.Reading.{Reader, all_of};

/// A value that a frame's body spells.
pub(crate) trait Framed: Drop {
    /// What reading gives of it.
    ghost read_at: { Reader Self };

    /// What a body has for whose value memory is taken.
    ghost takes_memory: { List ℕ → Type 0 };

    /// What serves the value's memory.
    type Memory: Drop;

    /// Why it wasn't read: memory was refused. `Infallible` where none is taken.
    type Refused: Drop;

    /// Some value, for the one that is read to be put in its place.
    fn blank() -> Self;

    /// Puts the value that all of a body spells in place of another and tells whether there is one. Where there is none,
    /// what stands there is not said. A value is put in its place, since each hand-over of a large one is a copy.
    fn take_all(memory: Self::Memory, body: &[u8], value: &mut Self) -> Result<bool, Self::Refused>
        ensures value { IfOk result (λ is_there. all_of read_at body.now ≡ (if is_there then Some value.new else None)) }
        ensures cause { IfErr result (λ _. takes_memory body.now) };
}
