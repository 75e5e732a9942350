//! What a crash leaves of unsynced bytes.
/// What a crash makes of bytes that aren't synced.
#[derive(Clone, Copy)]
pub enum Choice {
    /// The unsynced bytes are as before their writes.
    Old,
    /// The unsynced bytes are as written.
    New,
    /// The unsynced bytes are all ones.
    Ones,
}
