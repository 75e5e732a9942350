//! How many lines each member has printed.
ghost use Rattle.mas_complex.specs.Names.{begins_anew, counts_anew, command_of, entry_of};
ghost use Rattle.std.specs.Prelude.{◌≡◌, slice_set};
ghost use Rattle.std.specs.List.{list_any};
ghost use Rattle.mas_complex.specs.Paper.{printed_after};

use brief_journal::{BriefCommand, BriefEntries, BriefEntry};
use mas_types::{MEMBERS_MOST, MemberId};

/// A count for the operator, and one for each member.
pub const COUNTS: usize = MEMBERS_MOST as usize + 1;

// Whether a member begins to count anew with the command.
fn is_anew(command: &BriefCommand) -> bool
    ensures { result ≡ counts_anew (command_of command.now) }
{
    matches!(
        command,
        BriefCommand::Pick
            | BriefCommand::Mark(..)
            | BriefCommand::Back(_)
            | BriefCommand::Forward(_)
    )
}

// Whether the member begins to count anew with the entry.
fn is_anew_of(brief: &BriefEntry, by: MemberId) -> bool
    ensures { result ≡ begins_anew by (entry_of brief.now) }
{
    brief.by == by && is_anew(&brief.command)
}

// Whether the member begins to count anew with one of the entries that these are in brief.
fn is_any_anew(briefs: &[BriefEntry], by: MemberId) -> bool
    ensures { result ≡ list_any (λ b. begins_anew by (entry_of b)) briefs.now }
{
    briefs.iter().any(|brief| is_anew_of(brief, by))
}

// Whether the member begins to count anew with one of the entries.
#[tactic(auto, using(crate::proofs::Batches::any_anew))]
fn has_anew(entries: &BriefEntries, by: MemberId) -> bool
    ensures { result ≡ list_any (begins_anew by) entries.now }
{
    is_any_anew(entries.as_slice(), by)
}

// A count falls to 0; one that isn't there stays away.
#[tactic(auto, using(std::proofs::lemmas::List::set_past))]
fn forget(printed: &mut [u32; COUNTS], at: usize)
    ensures { printed.new ≡ slice_set printed.old at 0 }
{
    if at < COUNTS {
        printed[at] = 0;
    }
}

// The member begins to count anew, where it gives such a command.
pub(crate) fn count_anew(printed: &mut [u32; COUNTS], by: MemberId, entries: &BriefEntries)
    ensures { printed.new ≡ printed_after by entries.now printed.old }
{
    if has_anew(entries, by) {
        forget(printed, by.0 as usize);
    }
}
