//! What lies in a gate.
ghost use Rattle.std.specs.Prelude.{◌≡◌, Bool, length};

/// A value that members share. It tells its facts in proofs alone.
pub trait Kept {
    ghost use Rattle.std.specs.Prelude.{Bool};
    ghost use Rattle.gate_facts.specs.declared.facts.Facts.{Facts};

    /// That the value's content is told.
    ghost tells: { Type 0 };

    /// What the value tells of itself, without its content and with it.
    ghost facts: { Self → Bool → Facts };

    /// The number of entries that are kept.
    fn kept_count(&self) -> u64
        ensures { (told : Bool) → result ≡ length (facts self.now told).kept };
}
