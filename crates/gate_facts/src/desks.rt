//! What a member has at hand. No value of these types is made: contracts alone speak of them.
use mas_types::{Dev, Entry, GroupNo, List, Page};

/// What a member has of the checkpoint.
pub struct Hold {
    /// The member holds the lock. Where it doesn't, the other fields are empty.
    pub locked: bool,
    /// The pages that the good copies without the batch read.
    pub pages: List<Page>,
    /// The batch that is reserved, or being written.
    pub batch: List<Entry>,
    /// The copies that were logged for the batch.
    pub logged: List<Dev>,
    /// The copies that were opened for the batch.
    pub opened: List<Dev>,
}

/// A track group that the member took for a text to come.
pub struct Group {
    /// The group's number.
    pub number: GroupNo,
    /// The group's bytes.
    pub bytes: Page,
    /// The group has bytes that a crash may lose.
    pub unsynced: bool,
}

/// What a member has at hand.
pub struct Desk {
    /// What it has of the checkpoint.
    pub hold: Hold,
    /// How many lines it printed since it last picked an output or moved its mark.
    pub printed: u64,
    /// Its greatest step that was told, 0 for none.
    pub told: u32,
    /// Its groups.
    pub groups: List<Group>,
    /// The pages of the checkpoint that it noted last.
    pub noted: List<Page>,
}
