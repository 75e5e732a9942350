//! Where the slots that are used end.

/// From which slot on no job stands, and from which on no output.
#[derive(Clone, Copy)]
pub struct Ends {
    /// No job stands in the slots from this one on.
    pub jobs: usize,
    /// No output stands in the slots from this one on.
    pub outputs: usize,
}
