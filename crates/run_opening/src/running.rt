//! A run as its lines begin.

use mas_complex::{Complex, Steady};
use mas_types::List;
use member_node::Member;
use nje_frames::FrameReader;
use spool_plant::Plant;

/// A run whose lines can be played: its shared value and its members, as many as its configuration has.
#[derive(Drop)]
pub struct OpenRun<P: Plant + Drop, C: Steady + Drop> {
    /// The shared value.
    pub complex: Complex<P, C>,
    /// The members, SYSA first.
    pub members: List<Member>,
    /// What each has read of each line to another node, eight of SYSA first.
    pub readers: List<FrameReader>,
}
