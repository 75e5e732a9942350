//! A source of bytes.
ghost use Rattle.std.specs.Prelude.{ℕ, List, length};
ghost use Rattle.spool_plant.specs.Source.{Gives, GivesCount};

/// What a call of a source gave.
#[derive(Clone, Copy)]
pub enum Got {
    /// So many bytes. None of them says the same as `End`.
    Bytes(usize),
    /// Nothing is left.
    End,
    /// The source failed. Its count of faults rose.
    Failed,
}

/// A source of bytes.
pub trait Source {
    /// That the source tells what it has left: `left` is then true of it.
    ghost tells: { Type 0 };

    /// What is left.
    ghost left: { Self → List ℕ };

    /// The count of faults.
    ghost faults: { Self → ℕ };

    /// Gives the next bytes, into the first places of `into`. No bytes, or the end, come only where nothing is left or
    /// `into` is empty.
    fn next(&mut self, into: &mut [u8]) -> Got
        ensures counts { GivesCount (length into.old) (faults self.old) (faults self.new) result }
        ensures content { tells → Gives (left self.old) (left self.new) into.new result };
}
