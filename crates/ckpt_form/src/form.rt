//! The form that the copies have.
use change_log::LogCopy;

/// A copy of the checkpoint: home pages, and slots with the pages that changed since.
pub type CopyForm = LogCopy;
