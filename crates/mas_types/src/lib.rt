//! The plain data of a multi-access spool after JES2: its queue, its commands and replies, its journal, and how its
//! steps and runs end. The definitions in specs/ say what each command does to the queue, which job is selected, what a
//! history comes to and how each line is written; every layer above is proved against them. The terms are those of JES2
//! (z/OS JES2 Initialization and Tuning Guide, z/OS JES2 Commands); all layouts, texts and limits are this project's
//! own.
#![tactic(auto)]

pub mod answers;
pub mod closings;
pub mod commands;
pub mod copies;
pub mod examples;
pub mod ids;
pub mod jobs;
pub mod journals;
pub mod limits;
pub mod lists;
pub mod names;
pub mod queues;
pub mod starts;
pub mod statuses;
pub mod texts;
pub mod units;
pub mod walks;
pub mod words;

pub use answers::{CardCause, Closing, CopyState, FaultKind, JclCause, LineCause, Status, Verdict};
pub use closings::closing_line;
pub use commands::{Command, Refusal, Reply, What};
pub use copies::Copied;
pub use examples::law_of_lines;
pub use ids::{Class, Dev, GroupNo, JobNo, Level, MemberId, Name8, NoMemory, OutNo, Page, Prio};
pub use jobs::{Job, JobFields, OutSpec, Output, Phase, Text, purge_if};
pub use journals::{Batch, Entry, Fate, Journal};
pub use limits::{MEMBERS_MOST, NUMBER_MOST};
pub use lists::List;
pub use names::{
    BadClass, BadName, BadNumber, is_name_byte, member_name, read_class, read_member, read_name,
    read_number, write_key,
};
pub use queues::{Config, LineCount, Owner, Queue, Route, Setting, Thing};
pub use starts::{default_config, default_setting, empty_queue, no_queue};
pub use statuses::{status_code, status_line};
pub use texts::Lines;
pub use units::Unit;
pub use walks::LinesFrom;
