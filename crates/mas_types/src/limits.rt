//! The limits of the spool, each named once.

/// The bytes of a page and of a track group.
pub const PAGE_BYTES: usize = 4096;

/// The least number of pages of a checkpoint.
pub const PAGES_LEAST: u16 = 6;

/// The greatest number of pages of a checkpoint.
pub const PAGES_MOST: u16 = 323;

/// The greatest number of members.
pub const MEMBERS_MOST: u8 = 8;

/// The greatest job number.
pub const NUMBER_MOST: u32 = 99_999;

/// The least number of jobs that a configuration has room for.
pub const JOBS_LEAST: u16 = 16;

/// The greatest number of jobs that a configuration has room for.
pub const JOBS_MOST: u16 = 2048;

/// The room for jobs is a multiple of this.
pub const JOBS_STEP: u16 = 16;

/// The least number of outputs that a configuration has room for.
pub const OUTPUTS_LEAST: u16 = 32;

/// The greatest number of outputs that a configuration has room for.
pub const OUTPUTS_MOST: u16 = 4096;

/// The room for outputs is a multiple of this.
pub const OUTPUTS_STEP: u16 = 32;

/// The greatest number of spool volumes.
pub const VOLUMES_MOST: u8 = 8;

/// The greatest number of track groups of a volume.
pub const GROUPS_MOST: u16 = 4096;

/// The greatest HOLD, in commands.
pub const HOLD_MOST: u16 = 9_999;

/// The greatest DORMANCY, in attempts.
pub const DORMANCY_MOST: u16 = 9_999;

/// The greatest number of nodes besides the own one.
pub const ROUTES_MOST: usize = 63;

/// The number of lines to other nodes.
pub const WIRES_MOST: u8 = 8;

/// The greatest number of bytes of a name.
pub const NAME_BYTES: usize = 8;

/// The greatest priority.
pub const PRIO_MOST: u8 = 15;

/// The number of classes, A to Z and 0 to 9.
pub const CLASSES_MOST: usize = 36;

/// The greatest number of outputs of a job.
pub const INDEX_MOST: u8 = 32;

/// The greatest number of steps of a job.
pub const JOB_STEPS_MOST: usize = 64;

/// The greatest number of lines of a text, and of cards of a deck.
pub const TEXT_LINES_MOST: usize = 9_999;

/// The greatest number of bytes of a card.
pub const CARD_BYTES: usize = 80;

/// The greatest number of bytes of a line of a text.
pub const LINE_BYTES: usize = 132;

/// The greatest number of lines that a printer prints at a time.
pub const PRINTER_LINES_MOST: u16 = 9_999;

/// The greatest number of bytes of a script.
pub const SCRIPT_BYTES: usize = 16_777_216;

/// The greatest number of bytes of a script's line.
pub const SCRIPT_LINE_BYTES: usize = 255;

/// The greatest number of a step of a script.
pub const STEPS_MOST: u32 = 99_999;
