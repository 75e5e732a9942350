//! The two copies of a world.
ghost use Rattle.std.specs.Prelude.{◌≡◌, length, List, IfOk};
ghost use Rattle.mas_types.specs.Lists.{change_at};
ghost use Rattle.member_core.specs.Worlds.{at_or, good_reads, longest as longest_read, no_copy, on_copies, reads_so_many, same_copy};
ghost use Rattle.member_core.specs.Events.{after_primary, all_read as each_reads, has_next, is_any_good as some_good, lost, made_sure, opened, renewed};

use crate::worlds::CopyAt;
use mas_types::{Copied, Entry, List, NoMemory};
use std::alloc::Global;

/// Whether the copy at a place is good.
pub fn is_good(copies: &List<CopyAt>, at: usize) -> bool
    ensures { result ≡ (at_or no_copy at copies.now).good }
{
    if at >= copies.len() {
        return false;
    }
    copies.item(at).good
}

/// Whether a copy is good.
pub fn is_any_good(copies: &List<CopyAt>) -> bool
    ensures { result ≡ some_good copies.now }
{
    is_good(copies, 0) || is_good(copies, 1)
}

fn sure_at(copies: &mut List<CopyAt>, at: usize)
    ensures { copies.new ≡ change_at at made_sure copies.old }
{
    if at < copies.len() {
        copies.item_mut(at).sure = true;
    }
}

/// Each gate becomes sure.
pub fn make_sure(copies: &mut List<CopyAt>)
    ensures { copies.new ≡ on_copies made_sure made_sure copies.old }
{
    sure_at(copies, 0);
    sure_at(copies, 1);
}

fn good_count(copy: &CopyAt) -> usize
    ensures { result ≡ length (good_reads copy.now) }
{
    if copy.good { copy.reads.len() } else { 0 }
}

fn read_count(copies: &List<CopyAt>, at: usize) -> usize
    ensures { result ≡ length (good_reads (at_or no_copy at copies.now)) }
{
    if at >= copies.len() {
        return 0;
    }
    good_count(copies.item(at))
}

fn copy_good(alloc: Global, copy: &CopyAt) -> Result<List<Entry>, NoMemory>
    ensures { IfOk result (λ own. own ≡ good_reads copy.now) }
{
    if copy.good {
        copy.reads.copy(alloc)
    } else {
        Ok(List::new(alloc))
    }
}

fn copy_reads(alloc: Global, copies: &List<CopyAt>, at: usize) -> Result<List<Entry>, NoMemory>
    ensures { IfOk result (λ own. own ≡ good_reads (at_or no_copy at copies.now)) }
{
    if at >= copies.len() {
        return Ok(List::new(alloc));
    }
    copy_good(alloc, copies.item(at))
}

/// A copy of the longest list that a good copy reads. NoMemory comes only when out of memory.
pub fn longest(alloc: Global, copies: &List<CopyAt>) -> Result<List<Entry>, NoMemory>
    ensures { IfOk result (λ own. own ≡ longest_read copies.now) }
{
    if read_count(copies, 0) < read_count(copies, 1) {
        copy_reads(alloc, copies, 1)
    } else {
        copy_reads(alloc, copies, 0)
    }
}

fn settle_copy(copy: &mut CopyAt, found: bool, own: List<Entry>)
    ensures { copy.new ≡ after_primary found own copy.old }
{
    copy.next = None;
    if found && copy.good {
        copy.reads = own;
    }
}

/// The batch in flight has its fate: a good copy reads the member's list where it was found, and no list is next.
pub fn settle_at(copies: &mut List<CopyAt>, at: usize, found: bool, own: List<Entry>)
    ensures { copies.new ≡ change_at at (after_primary found own) copies.old }
{
    if at < copies.len() {
        settle_copy(copies.item_mut(at), found, own);
    }
}

fn next_of(copy: &mut CopyAt, own: List<Entry>)
    ensures { copy.new ≡ has_next own copy.old }
{
    if copy.good {
        copy.next = Some(own);
    }
}

fn next_at(copies: &mut List<CopyAt>, at: usize, own: List<Entry>)
    ensures { copies.new ≡ change_at at (has_next own) copies.old }
{
    if at < copies.len() {
        next_of(copies.item_mut(at), own);
    }
}

/// The first copy, where it is good, has the list as next.
pub fn next_first(copies: &mut List<CopyAt>, own: List<Entry>)
    ensures { copies.new ≡ on_copies (has_next own) same_copy copies.old }
{
    next_at(copies, 0, own);
}

/// The second copy, where it is good, has the list as next.
pub fn next_second(copies: &mut List<CopyAt>, own: List<Entry>)
    ensures { copies.new ≡ on_copies same_copy (has_next own) copies.old }
{
    next_at(copies, 1, own);
}

fn open_copy(copy: &mut CopyAt, own: List<Entry>)
    ensures { copy.new ≡ opened own copy.old }
{
    if copy.good {
        copy.reads = own;
        copy.next = None;
    }
}

fn open_at(copies: &mut List<CopyAt>, at: usize, own: List<Entry>)
    ensures { copies.new ≡ change_at at (opened own) copies.old }
{
    if at < copies.len() {
        open_copy(copies.item_mut(at), own);
    }
}

/// The first copy, where it is good, reads the list.
pub fn open_first(copies: &mut List<CopyAt>, own: List<Entry>)
    ensures { copies.new ≡ on_copies (opened own) same_copy copies.old }
{
    open_at(copies, 0, own);
}

/// The second copy, where it is good, reads the list.
pub fn open_second(copies: &mut List<CopyAt>, own: List<Entry>)
    ensures { copies.new ≡ on_copies same_copy (opened own) copies.old }
{
    open_at(copies, 1, own);
}

fn copy_reads_so_many(copy: &CopyAt, count: usize) -> bool
    ensures { result ≡ reads_so_many count copy.now }
{
    !copy.good || copy.reads.len() == count
}

fn reads_so_many_at(copies: &List<CopyAt>, at: usize, count: usize) -> bool
    ensures { result ≡ reads_so_many count (at_or no_copy at copies.now) }
{
    if at >= copies.len() {
        return true;
    }
    copy_reads_so_many(copies.item(at), count)
}

/// Whether each good copy reads so many entries.
pub fn all_read(copies: &List<CopyAt>, count: usize) -> bool
    ensures { (own : List Entry) → count ≡ length own → result ≡ each_reads own copies.now }
{
    reads_so_many_at(copies, 0, count) && reads_so_many_at(copies, 1, count)
}

fn lose_copy(copies: &mut List<CopyAt>, at: usize)
    ensures { copies.new ≡ change_at at lost copies.old }
{
    if at < copies.len() {
        copies.item_mut(at).good = false;
    }
}

/// The first copy is lost.
pub fn lose_first(copies: &mut List<CopyAt>)
    ensures { copies.new ≡ on_copies lost same_copy copies.old }
{
    lose_copy(copies, 0);
}

/// The second copy is lost.
pub fn lose_second(copies: &mut List<CopyAt>)
    ensures { copies.new ≡ on_copies same_copy lost copies.old }
{
    lose_copy(copies, 1);
}

fn renew_copy(copy: &mut CopyAt, kept: List<Entry>)
    ensures { copy.new ≡ renewed kept copy.old }
{
    copy.good = true;
    copy.reads = kept;
    copy.next = None;
    copy.sure = true;
}

fn renew_at(copies: &mut List<CopyAt>, at: usize, kept: List<Entry>)
    ensures { copies.new ≡ change_at at (renewed kept) copies.old }
{
    if at < copies.len() {
        renew_copy(copies.item_mut(at), kept);
    }
}

/// The first copy is written anew: it reads as these entries.
pub fn renew_first(copies: &mut List<CopyAt>, kept: List<Entry>)
    ensures { copies.new ≡ on_copies (renewed kept) same_copy copies.old }
{
    renew_at(copies, 0, kept);
}

/// The second copy is written anew: it reads as these entries.
pub fn renew_second(copies: &mut List<CopyAt>, kept: List<Entry>)
    ensures { copies.new ≡ on_copies same_copy (renewed kept) copies.old }
{
    renew_at(copies, 1, kept);
}
