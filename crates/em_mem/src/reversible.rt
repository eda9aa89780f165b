//! What it means to take a change back.
ghost use Rattle.std.specs.Prelude.{◌≡◌};

/// A part of the model whose changes give out records, by which they are taken back.
pub trait Reversible {
    /// What a change gives out: the old cells, and where they lay.
    type Undo;

    /// That the record's places lie in the part as it is now.
    ghost fits: { Self → Self.Undo → Type 0 };

    /// The part with the record's old cells put back.
    ghost undone: { Self → Self.Undo → Self };

    /// Takes back the change that gave out this record. It takes no memory.
    fn take_back(&mut self, undo: Self::Undo)
        requires { fits self.old undo }
        ensures { self.new ≡ undone self.old undo };
}
