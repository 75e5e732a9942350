//! What a pass knows. No value of these types is made: contracts alone speak of them.
use gate_facts::{Desk, Facts};
use mas_types::{Entry, List};

/// What a pass knows of the value, without its content or with it.
pub struct Sight {
    /// Its member is stopped.
    pub stopped: bool,
    /// The value as it was when the pass last gave the turn up.
    pub last: Facts,
    /// What its member had at hand then.
    pub desk: Desk,
    /// The value in its turn: as it was taken, or, once the pass counted it, as it will be given back.
    pub out: Facts,
    /// The kept lists that the passes which it took in had seen.
    pub heard: List<List<Entry>>,
}

/// What a pass knows. The lists of truth values are marks: of places of the kept list, or of members, with member 0
/// first; one that is too short counts as filled up with false.
pub struct View {
    /// No other pass took it in.
    pub live: bool,
    /// It is the pass that came with the gate, from which the others are split.
    pub root: bool,
    /// The gate is being made, and its value isn't in it yet.
    pub opening: bool,
    /// It has the turn.
    pub has: bool,
    /// Its member.
    pub member: u8,
    /// How often it tried to take the turn.
    pub tries: u64,
    /// What its last try found: 0 where the turn was free, else one more than the member that had it.
    pub met: u64,
    /// The places of the kept list whose entries became kept in its turns.
    pub own: List<bool>,
    /// The members of which it knows the begun entries, the lines and the counts of stops.
    pub cares: List<bool>,
    /// The members whose pass it is, or has taken in.
    pub holds: List<bool>,
    /// The members for which a pass was split from it.
    pub given: List<bool>,
    /// What it knows of the value without its content.
    pub bare: Sight,
    /// What it knows of the value with its content, which counts where that is told.
    pub told: Sight,
}
