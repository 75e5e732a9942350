//! How a member reads the copies, and goes on from what it read.
ghost use Rattle.std.specs.Prelude.{◌≡◌, ◌+◌, ◌≤◌, ◌<◌, ℕ, List, Some, None, All, [], length, replicate, true, false, IfOk, IfErr, IsErrOf, OnOk, OnErr, slice_set};
ghost use Rattle.std.specs.List.{list_all};
ghost use Rattle.mas_types.specs.declared.ids.Dev.{Dev};
ghost use Rattle.mas_types.specs.declared.ids.Dev.TheVariants.{Ckpt1, Ckpt2};
ghost use Rattle.mas_types.specs.Limits.{members_most, page_bytes, pages_most};
ghost use Rattle.ckpt_copy.specs.Pages.{bytes_of, level, page_in};
ghost use Rattle.ckpt_tables.specs.declared.tables.Tables.{Tables as TablesLem};
ghost use Rattle.ckpt_pages.specs.Checkpoints.{IsCheckpoint, SpellSome};
ghost use Rattle.ckpt_tables.specs.Shape.{HasShape, HasSpelling, page_count};
ghost use Rattle.duplex_pair.specs.Halves.{SomeAlive};
ghost use Rattle.duplex_pair.specs.Outcomes.{least_room};
ghost use Rattle.mas_complex.specs.Locking.{MayAct};
ghost use Rattle.mas_complex.specs.Meaning.{run};
ghost use Rattle.mas_complex.specs.CallCounts.{pair_of, TookReadActs};
ghost use Rattle.mas_complex.specs.Begins.{kept_queue};
ghost use Rattle.member_node.specs.declared.member.NodeNo.TheVariants as no_node;
ghost use Rattle.queue_telling.specs.Orders.{HaveOrders};
ghost use Rattle.queue_telling.specs.Telling.{Tell};
ghost use Rattle.ckpt_places.specs.declared.places.Place.TheVariants.{Before};
ghost use Rattle.member_node.specs.Calls.{Course};
ghost use Rattle.member_node.specs.Spares.{Spares};
ghost use Rattle.member_node.specs.Mirrors.{IsMirror, IsMirrorBut};
ghost use Rattle.page_marks.specs.Marks.{is_marked};
ghost use Rattle.member_node.specs.Wanted.{AreUnchanged, one_if, wanted};
ghost use Rattle.ckpt_pages.specs.Given.{levels_given};
ghost use Rattle.ckpt_tables.specs.Pages.{page_in as page_of_list};
ghost use Rattle.page_tables.specs.Bringing.{AreOlder, are_orders_low};
ghost use Rattle.page_tables.specs.Kinds.{is_job_below, is_output_below};
ghost use Rattle.member_node.specs.Copies.{first_of, reading_of, second_of};
ghost use Rattle.member_node.specs.Reads.{ArePagesOf, IsCalmOf, IsRead, IsReadWhole, MayGoOn, ReadsOf, StandAt, TookActs, copies_alive};

use crate::marking::mark_if;
use crate::member::{Member, NodeNo};
use ckpt_pages::{PageNo, decode, first_bad, law_of_checkpoints, law_of_levels, levels_of};
use ckpt_tables::{Tables, law_of_page_sizes};
use duplex_pair::{PairNo, pages_level};
use lay_bytes::{JobRec, OutRec, is_same_page};
use mas_complex::{Complex, Steady};
use mas_types::{Config, Dev, Level, List, MemberId, NoMemory, Page};
use page_marks::Marks;
use page_tables::{bring_up, can_bring_up, can_bring_up_spelled, is_newer, level_at, order_of};
use spool_plant::Plant;
use std::alloc::Global;

/// From here on a level or an order doesn't leave a step all that it can use: no run of this program comes so far.
pub const TOO_HIGH: u64 = (1 << 63) - (1 << 22);

// Reads one page: it is the page of what each copy reads that counts as alive afterwards.
fn read_one<P: Plant + Drop, C: Steady + Drop>(
    complex: &mut Complex<P, C>,
    by: MemberId,
    page: u16,
    into: &mut Page,
) -> Result<(), NodeNo>
    requires may { MayAct complex.old.book by }
    requires first { complex.old.first ≡ Before }
    requires second { complex.old.second ≡ Before }
    requires page1 { complex.old.pair.first.alive ≡ true → page < C.count complex.old.pair.first.copy }
    requires page2 { complex.old.pair.second.alive ≡ true → page < C.count complex.old.pair.second.copy }
    ensures base { complex.new.base ≡ complex.old.base }
    ensures printed { complex.new.printed ≡ complex.old.printed }
    ensures since { complex.new.since ≡ complex.old.since }
    ensures renewals { complex.new.renewals ≡ complex.old.renewals }
    ensures had { complex.new.had ≡ complex.old.had }
    ensures book { complex.new.book ≡ complex.old.book }
    ensures journal { complex.new.journal ≡ complex.old.journal }
    ensures current { complex.new.current ≡ complex.old.current }
    ensures reserved { complex.new.reserved ≡ complex.old.reserved }
    ensures placed { complex.new.placed ≡ complex.old.placed }
    ensures first { complex.new.first ≡ complex.old.first }
    ensures second { complex.new.second ≡ complex.old.second }
    ensures level { complex.new.level ≡ complex.old.level }
    ensures copy1 { complex.new.pair.first.copy ≡ complex.old.pair.first.copy }
    ensures copy2 { complex.new.pair.second.copy ≡ complex.old.pair.second.copy }
    ensures read { IsRead P.tells by.0 (pair_of complex.old) (pair_of complex.new) result }
    ensures loses { (d : Dev) → (P.view complex.new.plant).loses d ≡ (P.view complex.old.plant).loses d }
    ensures acts { TookReadActs (pair_of complex.old) (pair_of complex.new) }
    ensures page { OnOk result (P.tells → (was : List ℕ) → ReadsOf P.tells (first_of complex.new) was
        → ReadsOf P.tells (second_of complex.new) was → into.new.0 ≡ page_in page was) }
{
    complex.kept_pages();
    match complex.read_page(by, page, into) {
        Ok(()) => Ok(()),
        Err(PairNo::BothLost) => Err(NodeNo::BothLost),
        Err(PairNo::Halted) => Err(NodeNo::Halted),
    }
}

// Reads the pages from this one on. What each copy read that counted as alive stands in them then.
fn read_from<P: Plant + Drop, C: Steady + Drop>(
    complex: &mut Complex<P, C>,
    by: MemberId,
    room: &mut [Page],
    first: usize,
) -> Result<(), NodeNo>
    requires may { MayAct complex.old.book by }
    requires calm1 { IsCalmOf (first_of complex.old) (length room.old) }
    requires calm2 { IsCalmOf (second_of complex.old) (length room.old) }
    requires some { first < length room.old }
    requires few { length room.old ≤ pages_most }
    ensures base { complex.new.base ≡ complex.old.base }
    ensures printed { complex.new.printed ≡ complex.old.printed }
    ensures since { complex.new.since ≡ complex.old.since }
    ensures renewals { complex.new.renewals ≡ complex.old.renewals }
    ensures had { complex.new.had ≡ complex.old.had }
    ensures book { complex.new.book ≡ complex.old.book }
    ensures journal { complex.new.journal ≡ complex.old.journal }
    ensures current { complex.new.current ≡ complex.old.current }
    ensures reserved { complex.new.reserved ≡ complex.old.reserved }
    ensures placed { complex.new.placed ≡ complex.old.placed }
    ensures first { complex.new.first ≡ complex.old.first }
    ensures second { complex.new.second ≡ complex.old.second }
    ensures level { complex.new.level ≡ complex.old.level }
    ensures copy1 { complex.new.pair.first.copy ≡ complex.old.pair.first.copy }
    ensures copy2 { complex.new.pair.second.copy ≡ complex.old.pair.second.copy }
    ensures as_many { length room.new ≡ length room.old }
    ensures before { (was : List ℕ) → ArePagesOf 0 first was room.old → ArePagesOf 0 first was room.new }
    ensures read { IsRead P.tells by.0 (pair_of complex.old) (pair_of complex.new) result }
    ensures loses { (d : Dev) → (P.view complex.new.plant).loses d ≡ (P.view complex.old.plant).loses d }
    ensures pages { OnOk result (P.tells → (was : List ℕ) → ReadsOf P.tells (first_of complex.old) was
        → ReadsOf P.tells (second_of complex.old) was → ArePagesOf first (length room.new) was room.new) }
{
    for page in first..room.len() {
        read_one(complex, by, page as u16, &mut room[page])?;
    }
    Ok(())
}

// Reads a page where it is newer than the one that stands there, and leaves this one where it isn't. It answers how
// many pages it read.
fn read_newer<P: Plant + Drop, C: Steady + Drop>(
    complex: &mut Complex<P, C>,
    by: MemberId,
    page: u16,
    newer: bool,
    into: &mut Page,
) -> Result<u32, NodeNo>
    requires may { MayAct complex.old.book by }
    requires first { complex.old.first ≡ Before }
    requires second { complex.old.second ≡ Before }
    requires page1 { complex.old.pair.first.alive ≡ true → page < C.count complex.old.pair.first.copy }
    requires page2 { complex.old.pair.second.alive ≡ true → page < C.count complex.old.pair.second.copy }
    requires alive { SomeAlive complex.old.pair.first.alive complex.old.pair.second.alive }
    ensures base { complex.new.base ≡ complex.old.base }
    ensures printed { complex.new.printed ≡ complex.old.printed }
    ensures since { complex.new.since ≡ complex.old.since }
    ensures renewals { complex.new.renewals ≡ complex.old.renewals }
    ensures had { complex.new.had ≡ complex.old.had }
    ensures book { complex.new.book ≡ complex.old.book }
    ensures journal { complex.new.journal ≡ complex.old.journal }
    ensures current { complex.new.current ≡ complex.old.current }
    ensures reserved { complex.new.reserved ≡ complex.old.reserved }
    ensures placed { complex.new.placed ≡ complex.old.placed }
    ensures first { complex.new.first ≡ complex.old.first }
    ensures second { complex.new.second ≡ complex.old.second }
    ensures level { complex.new.level ≡ complex.old.level }
    ensures copy1 { complex.new.pair.first.copy ≡ complex.old.pair.first.copy }
    ensures copy2 { complex.new.pair.second.copy ≡ complex.old.pair.second.copy }
    ensures count { IfOk result (λ count. count ≡ one_if newer) }
    ensures stays { newer ≡ false → into.new ≡ into.old }
    ensures read { IsRead P.tells by.0 (pair_of complex.old) (pair_of complex.new) result }
    ensures loses { (d : Dev) → (P.view complex.new.plant).loses d ≡ (P.view complex.old.plant).loses d }
    ensures acts { IfOk result (λ count.
        TookActs count (pair_of complex.old) (pair_of complex.new)) }
    ensures page { OnOk result (newer ≡ true → P.tells → (was : List ℕ) → ReadsOf P.tells (first_of complex.new) was
        → ReadsOf P.tells (second_of complex.new) was → into.new.0 ≡ page_in page was) }
{
    if !newer {
        return Ok(0);
    }
    read_one(complex, by, page, into)?;
    Ok(1)
}

// Reads the pages whose level exceeds this one, by page 0, and marks them. It answers how many it read.
//
// Where each other page is as each copy reads it that counts as alive, what these read stands in all of them then.
fn read_above<P: Plant + Drop, C: Steady + Drop>(
    complex: &mut Complex<P, C>,
    by: MemberId,
    room: &mut [Page],
    level: Level,
    differ: &mut Marks,
) -> Result<u32, NodeNo>
    requires may { MayAct complex.old.book by }
    requires calm1 { IsCalmOf (first_of complex.old) (length room.old) }
    requires calm2 { IsCalmOf (second_of complex.old) (length room.old) }
    requires some { 2 ≤ length room.old }
    requires few { length room.old ≤ pages_most }
    requires alive { SomeAlive complex.old.pair.first.alive complex.old.pair.second.alive }
    ensures base { complex.new.base ≡ complex.old.base }
    ensures printed { complex.new.printed ≡ complex.old.printed }
    ensures since { complex.new.since ≡ complex.old.since }
    ensures renewals { complex.new.renewals ≡ complex.old.renewals }
    ensures had { complex.new.had ≡ complex.old.had }
    ensures book { complex.new.book ≡ complex.old.book }
    ensures journal { complex.new.journal ≡ complex.old.journal }
    ensures current { complex.new.current ≡ complex.old.current }
    ensures reserved { complex.new.reserved ≡ complex.old.reserved }
    ensures placed { complex.new.placed ≡ complex.old.placed }
    ensures first { complex.new.first ≡ complex.old.first }
    ensures second { complex.new.second ≡ complex.old.second }
    ensures level { complex.new.level ≡ complex.old.level }
    ensures copy1 { complex.new.pair.first.copy ≡ complex.old.pair.first.copy }
    ensures copy2 { complex.new.pair.second.copy ≡ complex.old.pair.second.copy }
    ensures many { length room.new ≡ length room.old }
    ensures header { OnOk result (page_of_list room.new 0 ≡ page_of_list room.old 0) }
    ensures none { IfOk result (λ count. count ≡ 0 → (q : ℕ) → page_of_list room.new q ≡ page_of_list room.old q) }
    ensures differ { OnOk result ((q : ℕ) → is_marked differ.new.pages q ≡ false
        → page_of_list room.new q ≡ page_of_list room.old q) }
    ensures count { IfOk result (λ count. count ≡ length (wanted level (levels_given room.new))) }
    ensures read { IsRead P.tells by.0 (pair_of complex.old) (pair_of complex.new) result }
    ensures loses { (d : Dev) → (P.view complex.new.plant).loses d ≡ (P.view complex.old.plant).loses d }
    ensures acts { IfOk result (λ count.
        TookActs count (pair_of complex.old) (pair_of complex.new)) }
    ensures pages { OnOk result (P.tells → (was : List ℕ) → ReadsOf P.tells (first_of complex.old) was
        → ReadsOf P.tells (second_of complex.old) was → ArePagesOf 0 1 was room.old
        → AreUnchanged (length room.old) level room.old was → ArePagesOf 1 (length room.new) was room.new) }
{
    let mut count = 0;
    for page in 1..room.len() {
        let newer = is_newer(&room[0], page as u16, level);
        let read = read_newer(complex, by, page as u16, newer, &mut room[page])?;
        mark_if(differ, page, newer);
        count += read;
    }
    Ok(count)
}

// Takes the member's own page where another may stand there.
fn take_own(into: &mut Page, own: &Page, differs: bool)
    requires { differs ≡ false → into.old.0 ≡ own.now.0 }
    ensures { into.new.0 ≡ own.now.0 }
{
    if differs {
        *into = *own;
    }
}

// Gives the room the member's own pages, except page 0: those that have a mark, which is taken away.
fn mirror(room: &mut [Page], own: &[Page], differ: &mut Marks)
    requires many { length own.now ≡ length room.old }
    requires few { length room.old ≤ pages_most }
    requires mirrors { IsMirrorBut differ.old.pages room.old own.now }
    ensures many { length room.new ≡ length room.old }
    ensures header { page_of_list room.new 0 ≡ page_of_list room.old 0 }
    ensures mirrors { IsMirror room.new own.now }
    ensures unmarked { differ.new.pages ≡ replicate pages_most false }
{
    for page in 1..room.len() {
        take_own(&mut room[page], &own[page], differ.has(page as u16));
    }
    *differ = Marks::none();
}

// Whether page 0 of what was read is that of the member's own pages of this level: not where it has read nothing yet.
fn is_own_header(room: &[Page], own: &[Page], level: Level) -> bool
    requires some1 { 1 ≤ length room.now }
    requires some2 { 1 ≤ length own.now }
    ensures { result ≡ true → (1 ≤ level) × (page_of_list room.now 0 ≡ page_of_list own.now 0) }
{
    if level == 0 {
        return false;
    }
    is_same_page(&room[0], &own[0])
}

// Reads the pages whose level exceeds this one, by page 0, and takes each other page from the member's own, where
// another may stand in the room. It answers how many it read, and marks them.
//
// Where page 0 is the member's own, which has read before, no level is looked at: none exceeds its own.
//
// Where the member's own pages were the kept ones of this level, or this is 0, what each copy read that counted as
// alive stands in them then.
fn read_wanted<P: Plant + Drop, C: Steady + Drop>(
    complex: &mut Complex<P, C>,
    by: MemberId,
    room: &mut [Page],
    own: &[Page],
    level: Level,
    differ: &mut Marks,
) -> Result<u32, NodeNo>
    requires may { MayAct complex.old.book by }
    requires calm1 { IsCalmOf (first_of complex.old) (length room.old) }
    requires calm2 { IsCalmOf (second_of complex.old) (length room.old) }
    requires some { 2 ≤ length room.old }
    requires few { length room.old ≤ pages_most }
    requires as_many { length own.now ≡ length room.old }
    requires mirrors { IsMirrorBut differ.old.pages room.old own.now }
    requires low { 1 ≤ level → All (λ age. age ≤ level) (levels_given own.now) }
    requires alive { SomeAlive complex.old.pair.first.alive complex.old.pair.second.alive }
    ensures base { complex.new.base ≡ complex.old.base }
    ensures printed { complex.new.printed ≡ complex.old.printed }
    ensures since { complex.new.since ≡ complex.old.since }
    ensures renewals { complex.new.renewals ≡ complex.old.renewals }
    ensures had { complex.new.had ≡ complex.old.had }
    ensures book { complex.new.book ≡ complex.old.book }
    ensures journal { complex.new.journal ≡ complex.old.journal }
    ensures current { complex.new.current ≡ complex.old.current }
    ensures reserved { complex.new.reserved ≡ complex.old.reserved }
    ensures placed { complex.new.placed ≡ complex.old.placed }
    ensures first { complex.new.first ≡ complex.old.first }
    ensures second { complex.new.second ≡ complex.old.second }
    ensures level { complex.new.level ≡ complex.old.level }
    ensures copy1 { complex.new.pair.first.copy ≡ complex.old.pair.first.copy }
    ensures copy2 { complex.new.pair.second.copy ≡ complex.old.pair.second.copy }
    ensures many { length room.new ≡ length room.old }
    ensures header { OnOk result (page_of_list room.new 0 ≡ page_of_list room.old 0) }
    ensures none { IfOk result (λ count. count ≡ 0 → IsMirror room.new own.now) }
    ensures differ { OnOk result (IsMirrorBut differ.new.pages room.new own.now) }
    ensures count { IfOk result (λ count. count ≡ length (wanted level (levels_given room.new))) }
    ensures read { IsRead P.tells by.0 (pair_of complex.old) (pair_of complex.new) result }
    ensures loses { (d : Dev) → (P.view complex.new.plant).loses d ≡ (P.view complex.old.plant).loses d }
    ensures acts { IfOk result (λ count.
        TookActs count (pair_of complex.old) (pair_of complex.new)) }
    ensures pages { OnOk result (P.tells → (was : List ℕ) → ReadsOf P.tells (first_of complex.old) was
        → ReadsOf P.tells (second_of complex.old) was → ArePagesOf 0 1 was room.old
        → AreUnchanged (length room.old) level own.now was → ArePagesOf 1 (length room.new) was room.new) }
{
    mirror(room, own, differ);
    if is_own_header(room, own, level) {
        return Ok(0);
    }
    read_above(complex, by, room, level, differ)
}

// Loses the copy that pages are read from.
fn lose_source<P: Plant + Drop, C: Steady + Drop>(complex: &mut Complex<P, C>)
    requires some { SomeAlive complex.old.pair.first.alive complex.old.pair.second.alive }
    ensures base { complex.new.base ≡ complex.old.base }
    ensures printed { complex.new.printed ≡ complex.old.printed }
    ensures since { complex.new.since ≡ complex.old.since }
    ensures renewals { complex.new.renewals ≡ complex.old.renewals }
    ensures had { complex.new.had ≡ complex.old.had }
    ensures book { complex.new.book ≡ complex.old.book }
    ensures journal { complex.new.journal ≡ complex.old.journal }
    ensures current { complex.new.current ≡ complex.old.current }
    ensures reserved { complex.new.reserved ≡ complex.old.reserved }
    ensures placed { complex.new.placed ≡ complex.old.placed }
    ensures first { complex.new.first ≡ complex.old.first }
    ensures second { complex.new.second ≡ complex.old.second }
    ensures level { complex.new.level ≡ complex.old.level }
    ensures copy1 { complex.new.pair.first.copy ≡ complex.old.pair.first.copy }
    ensures copy2 { complex.new.pair.second.copy ≡ complex.old.pair.second.copy }
    ensures lost { copies_alive complex.new.pair.first.alive complex.new.pair.second.alive
        < copies_alive complex.old.pair.first.alive complex.old.pair.second.alive }
    ensures course { Course (pair_of complex.old) (pair_of complex.new) }
    ensures spares { Spares 0 false (P.view complex.old.plant) (P.view complex.new.plant) }
{
    if complex.pair.first.alive {
        complex.lose(Dev::Ckpt1);
        return;
    }
    complex.lose(Dev::Ckpt2);
}

// Loses the copy that pages were read from which can't be its own. BothLost comes exactly where none is left.
fn lose_read<P: Plant + Drop, C: Steady + Drop>(complex: &mut Complex<P, C>) -> Result<(), NodeNo>
    requires some { SomeAlive complex.old.pair.first.alive complex.old.pair.second.alive }
    requires untold { P.tells → ⊥ }
    ensures base { complex.new.base ≡ complex.old.base }
    ensures printed { complex.new.printed ≡ complex.old.printed }
    ensures since { complex.new.since ≡ complex.old.since }
    ensures renewals { complex.new.renewals ≡ complex.old.renewals }
    ensures had { complex.new.had ≡ complex.old.had }
    ensures book { complex.new.book ≡ complex.old.book }
    ensures journal { complex.new.journal ≡ complex.old.journal }
    ensures current { complex.new.current ≡ complex.old.current }
    ensures reserved { complex.new.reserved ≡ complex.old.reserved }
    ensures placed { complex.new.placed ≡ complex.old.placed }
    ensures first { complex.new.first ≡ complex.old.first }
    ensures second { complex.new.second ≡ complex.old.second }
    ensures level { complex.new.level ≡ complex.old.level }
    ensures copy1 { complex.new.pair.first.copy ≡ complex.old.pair.first.copy }
    ensures copy2 { complex.new.pair.second.copy ≡ complex.old.pair.second.copy }
    ensures lost { copies_alive complex.new.pair.first.alive complex.new.pair.second.alive
        < copies_alive complex.old.pair.first.alive complex.old.pair.second.alive }
    ensures read { IsRead P.tells 0 (pair_of complex.old) (pair_of complex.new) result }
    ensures only { IfErr result (λ e. e ≡ no_node.BothLost) }
    ensures untold { P.tells → ⊥ }
{
    lose_source(complex);
    if complex.pair.first.alive {
        return Ok(());
    }
    if complex.pair.second.alive {
        return Ok(());
    }
    Err(NodeNo::BothLost)
}

// Whether these pages are byte for byte the member's own, of which they have each but page 0 where they mirror them.
fn are_own(room: &[Page], own: &[Page], mirrors: bool) -> bool
    requires many { length room.now ≡ length own.now }
    requires some { 1 ≤ length own.now }
    requires mirrors { mirrors ≡ true → IsMirror room.now own.now }
    ensures { result ≡ true → room.now ≡ own.now }
{
    if !mirrors {
        return false;
    }
    is_same_page(&room[0], &own[0])
}

// Whether these pages spell tables, of which those that don't differ are those of the given tables. They need no test
// where they are alike to pages that do, and only those that differ do where the tables can be brought up to them.
fn spells(room: &[Page], alike: bool, tables: &Tables, differ: &Marks) -> bool
    requires own { alike ≡ true → SpellSome room.now }
    requires spelling { HasSpelling tables.now }
    requires older { AreOlder tables.now room.now differ.now.pages }
    ensures good { result ≡ true → SpellSome room.now }
    ensures bad { result ≡ false → SpellSome room.now → ⊥ }
{
    if alike {
        return true;
    }
    if can_bring_up(tables, room, differ) {
        return true;
    }
    first_bad(room).is_none()
}

// Whether the pages that were read spell tables, as pages do that are alike to the member's own. Where content is told
// they do, and stand for the queue after the kept batches.
fn are_spelled<P: Plant + Drop, C: Steady + Drop>(
    complex: &Complex<P, C>,
    room: &[Page],
    alike: bool,
    tables: &Tables,
    differ: &Marks,
) -> bool
    requires own { alike ≡ true → SpellSome room.now }
    requires spelling { HasSpelling tables.now }
    requires older { AreOlder tables.now room.now differ.now.pages }
    requires config { P.tells → page_count (kept_queue complex.now).config ≡ length room.now }
    requires read { P.tells → ∥ IsReadWhole (kept_queue complex.now) complex.now.level
        (reading_of (first_of complex.now)) (reading_of (second_of complex.now)) room.now ∥₁ }
    ensures good { result ≡ true → SpellSome room.now }
    ensures bad { result ≡ false → P.tells → ⊥ }
    ensures reads1 { ReadsOf P.tells (first_of complex.now) (bytes_of room.now) }
    ensures reads2 { ReadsOf P.tells (second_of complex.now) (bytes_of room.now) }
    ensures stand { P.tells → ∥ StandAt (kept_queue complex.now) complex.now.level room.now ∥₁ }
{
    spells(room, alike, tables, differ)
}

// Writes the level of each page, as page 0 gives it, over those of as many pages.
fn write_levels(levels: &mut [Level], pages: &[Page])
    requires many { length levels.old ≡ length pages.now }
    requires few { length pages.now ≤ pages_most }
    ensures { levels.new ≡ levels_given pages.now }
{
    for page in 0..levels.len() {
        levels[page] = level_at(&pages[0], page as u16);
    }
}

// Takes the level of each page, as page 0 gives it, in place of those of as many pages.
fn take_levels(levels: &mut List<Level>, pages: &[Page])
    requires many { length levels.old ≡ length pages.now }
    requires few { length pages.now ≤ pages_most }
    ensures { levels.new ≡ levels_given pages.now }
{
    write_levels(levels.as_mut_slice(), pages);
}

// The orders of the jobs are below this one.
fn are_jobs_below(jobs: &[Option<JobRec>], order: u64) -> bool
    ensures { result ≡ list_all (is_job_below order) jobs.now }
{
    jobs.iter().all(|slot| match slot {
        Some(job) => job.order < order,
        None => true,
    })
}

// The orders of the outputs are below this one.
fn are_outputs_below(outputs: &[Option<OutRec>], order: u64) -> bool
    ensures { result ≡ list_all (is_output_below order) outputs.now }
{
    outputs.iter().all(|slot| match slot {
        Some(output) => output.order < order,
        None => true,
    })
}

// A member of this configuration may go on from these pages, which spell these tables.
fn may_go_on(config: &Config, pages: &[Page], tables: &Tables) -> bool
    requires { IsCheckpoint pages.now tables.now }
    ensures may { result ≡ true → MayGoOn config.now pages.now tables.now }
    ensures not { result ≡ false → MayGoOn config.now pages.now tables.now → ⊥ }
{
    if tables.config != *config {
        return false;
    }
    if pages_level(pages) >= TOO_HIGH {
        return false;
    }
    if tables.order >= TOO_HIGH {
        return false;
    }
    if !are_jobs_below(tables.jobs.as_slice(), tables.order) {
        return false;
    }
    are_outputs_below(tables.outputs.as_slice(), tables.order)
}

// A member may go on from these pages, which spell its own tables. It doesn't look at their orders again once it has
// read.
fn may_stay(pages: &[Page], tables: &Tables, fresh: bool) -> bool
    requires checkpoint { IsCheckpoint pages.now tables.now }
    requires low { fresh ≡ false → are_orders_low tables.now ≡ true }
    ensures may { result ≡ true → MayGoOn tables.now.config pages.now tables.now }
    ensures not { result ≡ false → MayGoOn tables.now.config pages.now tables.now → ⊥ }
{
    if fresh {
        return may_go_on(&tables.config, pages, tables);
    }
    if pages_level(pages) >= TOO_HIGH {
        return false;
    }
    tables.order < TOO_HIGH
}

impl Member {
    ghost use Rattle.member_node.specs.Copies.{IsAtRest};
    ghost use Rattle.member_node.specs.Drawn.{AreAsDrawn, AreDrawn};
    ghost use Rattle.member_node.specs.Reads.{IsLowOf, IsReadIn, IsSettle, IsUpTo, MayComeUp, pages_had, too_high};
    ghost use Rattle.member_node.specs.Wanted.{HasHad, level_had};
    ghost use Rattle.mas_complex.specs.Past.{HasNoted, values_of};

    /// The first read: page 0, from CKPT1 while its copy counts as alive, else from CKPT2. The member holds the lock.
    ///
    /// It makes one act, and one more on CKPT2 where CKPT1 fails in it. BothLost comes only where both copies count as
    /// lost at the end of the call, Halted only where the member was stopped in it. The member's tables are as they
    /// were.
    pub fn first_read<P: Plant + Drop, C: Steady + Drop>(
        &mut self,
        complex: &mut Complex<P, C>,
    ) -> Result<(), NodeNo>
        requires may { MayAct complex.old.book self.old.id }
        requires some { 1 ≤ length self.old.room }
        requires calm1 { IsCalmOf (first_of complex.old) (length self.old.room) }
        requires calm2 { IsCalmOf (second_of complex.old) (length self.old.room) }
        ensures base { complex.new.base ≡ complex.old.base }
        ensures printed { complex.new.printed ≡ complex.old.printed }
        ensures since { complex.new.since ≡ complex.old.since }
        ensures renewals { complex.new.renewals ≡ complex.old.renewals }
        ensures had { complex.new.had ≡ complex.old.had }
        ensures book { complex.new.book ≡ complex.old.book }
        ensures journal { complex.new.journal ≡ complex.old.journal }
        ensures current { complex.new.current ≡ complex.old.current }
        ensures reserved { complex.new.reserved ≡ complex.old.reserved }
        ensures placed { complex.new.placed ≡ complex.old.placed }
        ensures first { complex.new.first ≡ complex.old.first }
        ensures second { complex.new.second ≡ complex.old.second }
        ensures level { complex.new.level ≡ complex.old.level }
        ensures copy1 { complex.new.pair.first.copy ≡ complex.old.pair.first.copy }
        ensures copy2 { complex.new.pair.second.copy ≡ complex.old.pair.second.copy }
        ensures id { self.new.id ≡ self.old.id }
        ensures checkpoint { self.new.checkpoint ≡ self.old.checkpoint }
        ensures batch { self.new.batch ≡ self.old.batch }
        ensures as_many { length self.new.room ≡ length self.old.room }
        ensures behind { self.new.behind ≡ false }
        ensures fresh { self.new.fresh ≡ self.old.fresh }
        ensures read { IsRead P.tells self.old.id.0 (pair_of complex.old) (pair_of complex.new) result }
        ensures loses { (d : Dev) → (P.view complex.new.plant).loses d ≡ (P.view complex.old.plant).loses d }
        ensures acts { TookReadActs (pair_of complex.old) (pair_of complex.new) }
        ensures page { OnOk result (P.tells → (was : List ℕ) → ReadsOf P.tells (first_of complex.new) was
            → ReadsOf P.tells (second_of complex.new) was → ArePagesOf 0 1 was self.new.room) }
    {
        self.behind = false;
        let room = self.room.as_mut_slice();
        read_one(complex, self.id, 0, &mut room[0])
    }

    /// The second read, after the first one: exactly the other pages whose level, as page 0 gives it, exceeds that of
    /// the member's own, or all of them where it has read nothing yet. It answers their number, and makes as many acts,
    /// and one more for each copy that fails in it. Their bytes come into the member's room, beside its own pages. The
    /// spelling is tested, unless none was read and page 0 is its own too, byte for byte, which is noted in `alike`.
    /// Its tables are as they were, until `catch_up` brings them up to these pages. A copy from which a page came that
    /// is no spelling is lost, and all is read again from the other one. Where content is told that doesn't come.
    ///
    /// After Ok the pages in the room are those that each copy reads which counts as alive, and stand for the queue
    /// after the kept batches. BothLost comes only where both copies count as lost at the end of the call, Halted only
    /// where the member was stopped in it. It takes no memory.
    pub fn second_read<P: Plant + Drop, C: Steady + Drop>(
        &mut self,
        complex: &mut Complex<P, C>,
        alike: &mut bool,
    ) -> Result<u32, NodeNo>
        requires drawn { AreDrawn self.old.checkpoint.tables self.old.checkpoint.level self.old.checkpoint.levels
            self.old.checkpoint.pages }
        requires may { MayAct complex.old.book self.old.id }
        requires some { 2 ≤ length self.old.room }
        requires few { length self.old.room ≤ pages_most }
        requires calm1 { IsCalmOf (first_of complex.old) (length self.old.room) }
        requires calm2 { IsCalmOf (second_of complex.old) (length self.old.room) }
        requires config { P.tells → page_count (kept_queue complex.old).config ≡ length self.old.room }
        requires many { length self.old.room ≡ length self.old.checkpoint.pages }
        requires same_config { P.tells → complex.old.base.config ≡ self.old.checkpoint.tables.config }
        requires alive { SomeAlive complex.old.pair.first.alive complex.old.pair.second.alive }
        requires noted { HasHad P.tells self.old.fresh (values_of complex.old.had) self.old.id.0
            self.old.checkpoint.pages }
        requires page { P.tells → (was : List ℕ) → ReadsOf P.tells (first_of complex.old) was
            → ReadsOf P.tells (second_of complex.old) was → ArePagesOf 0 1 was self.old.room }
        ensures base { complex.new.base ≡ complex.old.base }
        ensures printed { complex.new.printed ≡ complex.old.printed }
        ensures since { complex.new.since ≡ complex.old.since }
        ensures renewals { complex.new.renewals ≡ complex.old.renewals }
        ensures had { complex.new.had ≡ complex.old.had }
        ensures book { complex.new.book ≡ complex.old.book }
        ensures journal { complex.new.journal ≡ complex.old.journal }
        ensures current { complex.new.current ≡ complex.old.current }
        ensures reserved { complex.new.reserved ≡ complex.old.reserved }
        ensures placed { complex.new.placed ≡ complex.old.placed }
        ensures first { complex.new.first ≡ complex.old.first }
        ensures second { complex.new.second ≡ complex.old.second }
        ensures level { complex.new.level ≡ complex.old.level }
        ensures copy1 { complex.new.pair.first.copy ≡ complex.old.pair.first.copy }
        ensures copy2 { complex.new.pair.second.copy ≡ complex.old.pair.second.copy }
        ensures id { self.new.id ≡ self.old.id }
        ensures checkpoint { self.new.checkpoint ≡ self.old.checkpoint }
        ensures batch { self.new.batch ≡ self.old.batch }
        ensures as_many { length self.new.room ≡ length self.old.room }
        ensures read { IsRead P.tells self.old.id.0 (pair_of complex.old) (pair_of complex.new) result }
        ensures err { OnErr result (self.new.behind ≡ false) }
        ensures count { IfOk result (λ count. P.tells → count
            ≡ length (wanted (level_had self.old.fresh self.old.checkpoint.level) (levels_given self.new.room))) }
        ensures fresh { self.new.fresh ≡ self.old.fresh }
        ensures behind { OnOk result (self.new.behind ≡ true) }
        ensures spelled { OnOk result (SpellSome self.new.room) }
        ensures acts { IfOk result (λ count. P.tells
            → TookActs count (pair_of complex.old) (pair_of complex.new)) }
        ensures alike { OnOk result (alike.new ≡ true → self.new.room ≡ self.new.checkpoint.pages) }
        ensures rests1 { OnOk result (IsAtRest P.tells (first_of complex.new) self.new.room) }
        ensures rests2 { OnOk result (IsAtRest P.tells (second_of complex.new) self.new.room) }
        ensures stand { OnOk result (P.tells → ∥ StandAt (kept_queue complex.new) complex.new.level self.new.room ∥₁) }
    {
        let by = self.id;
        let level = self.level();
        let mut differ = self.differ;
        self.differ = Marks::all();
        self.behind = false;
        complex.kept_pages();
        law_of_levels();
        let own = self.checkpoint.pages.as_slice();
        let count = read_wanted(
            complex,
            by,
            self.room.as_mut_slice(),
            own,
            level,
            &mut differ,
        )?;
        let read = self.room.as_slice();
        *alike = are_own(read, own, count == 0);
        'spelled: while !are_spelled(
            complex,
            self.room.as_slice(),
            *alike,
            &self.checkpoint.tables,
            &differ,
        ) {
            lose_read(complex)?;
            *alike = false;
            differ = Marks::all();
            let room = self.room.as_mut_slice();
            read_from(complex, by, room, 0)?;
        }
        self.differ = differ;
        self.behind = true;
        Ok(count)
    }

    // The level of its pages: 0 where it has read nothing yet.
    fn level(&self) -> Level
        ensures { result ≡ level_had self.now.fresh self.now.checkpoint.level }
    {
        if self.fresh { 0 } else { self.checkpoint.level }
    }

    // The pages that it has: those that it read last, or those of its tables.
    pub(crate) fn pages(&self) -> &[Page]
        ensures { result.now ≡ pages_had self.now.behind self.now.room self.now.checkpoint.pages }
    {
        if self.behind {
            self.room.as_slice()
        } else {
            self.checkpoint.pages.as_slice()
        }
    }

    /// Primary: makes room for a put where a copy that counts as alive has none, with the pages that the member read,
    /// and makes no act where each has. Nothing is in flight.
    ///
    /// BothLost comes only where both copies count as lost at the end of the call, Halted only where the member was
    /// stopped in it.
    pub fn primary<P: Plant + Drop, C: Steady + Drop>(
        &self,
        complex: &mut Complex<P, C>,
    ) -> Result<(), NodeNo>
        requires may { MayAct complex.old.book self.now.id }
        requires none { complex.old.current ≡ None }
        requires rests1 { IsAtRest P.tells (first_of complex.old) (pages_had self.now.behind self.now.room
            self.now.checkpoint.pages) }
        requires rests2 { IsAtRest P.tells (second_of complex.old) (pages_had self.now.behind self.now.room
            self.now.checkpoint.pages) }
        ensures base { complex.new.base ≡ complex.old.base }
        ensures printed { complex.new.printed ≡ complex.old.printed }
        ensures since { complex.new.since ≡ complex.old.since }
        ensures renewals { complex.new.renewals ≡ complex.old.renewals }
        ensures had { complex.new.had ≡ complex.old.had }
        ensures book { complex.new.book ≡ complex.old.book }
        ensures journal { complex.new.journal ≡ complex.old.journal }
        ensures current { complex.new.current ≡ complex.old.current }
        ensures reserved { complex.new.reserved ≡ complex.old.reserved }
        ensures placed { complex.new.placed ≡ complex.old.placed }
        ensures level { complex.new.level ≡ complex.old.level }
        ensures idle { 1 ≤ least_room complex.old.pair.first.alive complex.old.pair.second.alive
            (C.room complex.old.pair.first.copy) (C.room complex.old.pair.second.copy) → complex.new ≡ complex.old }
        ensures rests1 { OnOk result (IsAtRest P.tells (first_of complex.new) (pages_had self.now.behind self.now.room
            self.now.checkpoint.pages)) }
        ensures rests2 { OnOk result (IsAtRest P.tells (second_of complex.new)
            (pages_had self.now.behind self.now.room self.now.checkpoint.pages)) }
        ensures room1 { OnOk result (complex.new.pair.first.alive ≡ true → 1 ≤ C.room complex.new.pair.first.copy) }
        ensures room2 { OnOk result (complex.new.pair.second.alive ≡ true → 1 ≤ C.room complex.new.pair.second.copy) }
        ensures settle { IsSettle P.tells self.now.id.0 (pair_of complex.old) (pair_of complex.new) result }
        ensures operator { IsErrOf result no_node.Halted → 0 < self.now.id.0 }
    {
        if complex.pair.room() > 0 {
            return Ok(());
        }
        match complex.settle(self.id, self.pages()) {
            Ok(()) => Ok(()),
            Err(PairNo::BothLost) => Err(NodeNo::BothLost),
            Err(PairNo::Halted) => Err(NodeNo::Halted),
        }
    }

    /// Brings the member's tables up to the pages that it read: for its first command after a read. It answers false
    /// where these are no pages that it may go on from, though they spell tables: of another configuration, or with
    /// orders that aren't below the next one, or too high ones. The member is as it was then, and where nothing was
    /// read.
    ///
    /// Its tables are those that its own pages were drawn from: where it read the same bytes, which `alike` says, they
    /// are up already, and stay.
    ///
    /// NoMemory leaves the member as it was.
    pub fn catch_up(&mut self, alloc: Global, alike: bool) -> Result<bool, NoMemory>
        requires drawn { AreDrawn self.old.checkpoint.tables self.old.checkpoint.level self.old.checkpoint.levels
            self.old.checkpoint.pages }
        requires spelled { self.old.behind ≡ true → SpellSome self.old.room }
        requires few { length self.old.room ≤ pages_most }
        requires alike { alike ≡ true → self.old.room ≡ self.old.checkpoint.pages }
        ensures id { self.new.id ≡ self.old.id }
        ensures batch { self.new.batch ≡ self.old.batch }
        ensures err { OnErr result (self.new ≡ self.old) }
        ensures same { self.old.behind ≡ false → self.new ≡ self.old }
        ensures refused { IfOk result (λ up. up ≡ false → (self.new ≡ self.old)
            × ((t : TablesLem) → IsCheckpoint self.old.room t
            → MayGoOn self.old.checkpoint.tables.config self.old.room t → ⊥)) }
        ensures up { IfOk result (λ up. up ≡ true → self.old.behind ≡ true
            → IsUpTo self.old.checkpoint.tables.config self.old.room self.new.checkpoint) }
        ensures here { IfOk result (λ up. up ≡ true → self.new.behind ≡ false) }
        ensures fresh { IfOk result (λ up. up ≡ true → self.old.behind ≡ true → self.new.fresh ≡ false) }
        ensures as_many { length self.old.checkpoint.pages ≡ length self.old.room
            → length self.new.room ≡ length self.old.room }
    {
        if !self.behind {
            return Ok(true);
        }
        if alike {
            return Ok(self.stay_up());
        }
        if self.can_come_up() {
            self.come_up(alloc);
            return Ok(true);
        }
        let levels = levels_of(alloc, self.room.as_slice())?;
        let pages = self.room.as_slice();
        let tables = match decode(alloc, pages) {
            Ok(tables) => tables,
            Err(PageNo::BadPage(_)) => unreachable!(),
            Err(PageNo::NoMemory) => return Err(NoMemory),
        };
        if !may_go_on(&self.checkpoint.tables.config, pages, &tables) {
            return Ok(false);
        }
        law_of_levels();
        law_of_checkpoints();
        law_of_page_sizes(pages);
        self.take_up(alloc, tables, levels);
        Ok(true)
    }

    // The member read the pages that it has: its tables are up, where it may go on from them.
    fn stay_up(&mut self) -> bool
        requires drawn { AreDrawn self.old.checkpoint.tables self.old.checkpoint.level self.old.checkpoint.levels
            self.old.checkpoint.pages }
        requires same { self.old.room ≡ self.old.checkpoint.pages }
        ensures id { self.new.id ≡ self.old.id }
        ensures batch { self.new.batch ≡ self.old.batch }
        ensures room { self.new.room ≡ self.old.room }
        ensures refused { result ≡ false → (self.new ≡ self.old)
            × ((t : TablesLem) → IsCheckpoint self.old.room t
            → MayGoOn self.old.checkpoint.tables.config self.old.room t → ⊥) }
        ensures up { result ≡ true → IsUpTo self.old.checkpoint.tables.config self.old.room self.new.checkpoint }
        ensures here { result ≡ true → self.new.behind ≡ false }
        ensures fresh { result ≡ true → self.new.fresh ≡ false }
    {
        let pages = self.room.as_slice();
        let tables = &self.checkpoint.tables;
        if !may_stay(pages, tables, self.fresh) {
            return false;
        }
        self.behind = false;
        self.fresh = false;
        true
    }

    /// Both reads, and the member's tables brought up to what they gave: what a member does that got the lock, before
    /// its first command. A copy from which it read what it can't go on from is lost, and all is read again; where
    /// content is told that doesn't come.
    ///
    /// After Ok the member's pages are those that each copy reads which counts as alive, and its tables tell the queue
    /// after the kept batches. BothLost comes only where both copies count as lost at the end of the call, Halted only
    /// where the member was stopped in it. After an error its tables are those from before, or newer ones.
    pub fn read_in<P: Plant + Drop, C: Steady + Drop>(
        &mut self,
        alloc: Global,
        complex: &mut Complex<P, C>,
    ) -> Result<(), NodeNo>
        requires by { self.old.id.0 ≤ members_most }
        requires drawn { AreDrawn self.old.checkpoint.tables self.old.checkpoint.level self.old.checkpoint.levels
            self.old.checkpoint.pages }
        requires may { MayAct complex.old.book self.old.id }
        requires nothing { self.old.batch ≡ [] }
        requires many { length self.old.room ≡ length self.old.checkpoint.pages }
        requires some { 2 ≤ length self.old.room }
        requires few { length self.old.room ≤ pages_most }
        requires calm1 { IsCalmOf (first_of complex.old) (length self.old.room) }
        requires calm2 { IsCalmOf (second_of complex.old) (length self.old.room) }
        requires config { P.tells → page_count (kept_queue complex.old).config ≡ length self.old.room }
        requires low1 { IsLowOf P.tells (first_of complex.old) self.old.checkpoint.tables.config
            (length complex.old.journal.batches) }
        requires low2 { IsLowOf P.tells (second_of complex.old) self.old.checkpoint.tables.config
            (length complex.old.journal.batches) }
        requires level { complex.old.level < too_high }
        requires same_config { P.tells → complex.old.base.config ≡ self.old.checkpoint.tables.config }
        requires noted { HasHad P.tells self.old.fresh (values_of complex.old.had) self.old.id.0
            self.old.checkpoint.pages }
        ensures base { complex.new.base ≡ complex.old.base }
        ensures printed { complex.new.printed ≡ complex.old.printed }
        ensures since { complex.new.since ≡ complex.old.since }
        ensures renewals { complex.new.renewals ≡ complex.old.renewals }
        ensures book { complex.new.book ≡ complex.old.book }
        ensures journal { complex.new.journal ≡ complex.old.journal }
        ensures current { complex.new.current ≡ complex.old.current }
        ensures reserved { complex.new.reserved ≡ complex.old.reserved }
        ensures placed { complex.new.placed ≡ complex.old.placed }
        ensures first { complex.new.first ≡ complex.old.first }
        ensures second { complex.new.second ≡ complex.old.second }
        ensures level { complex.new.level ≡ complex.old.level }
        ensures copy1 { complex.new.pair.first.copy ≡ complex.old.pair.first.copy }
        ensures copy2 { complex.new.pair.second.copy ≡ complex.old.pair.second.copy }
        ensures id { self.new.id ≡ self.old.id }
        ensures batch { self.new.batch ≡ self.old.batch }
        ensures read { IsReadIn P.tells self.old.id.0 (pair_of complex.old) (pair_of complex.new) result }
        ensures acts { OnOk result (P.tells → TookActs
            (1 + length (wanted (level_had self.old.fresh self.old.checkpoint.level)
            (levels_given self.new.checkpoint.pages))) (pair_of complex.old) (pair_of complex.new)) }
        ensures here { OnOk result (self.new.behind ≡ false) }
        ensures own { OnOk result ((self.new.fresh ≡ false)
            × HasNoted (values_of complex.new.had) self.new.id.0 self.new.checkpoint.pages) }
        ensures noted { OnOk result ((self.new.fresh ≡ false)
            × (values_of complex.new.had
            ≡ slice_set (values_of complex.old.had) self.old.id.0 self.new.checkpoint.pages)) }
        ensures noted_err { OnErr result (complex.new.had ≡ complex.old.had) }
        ensures as_many { OnOk result (length self.new.checkpoint.pages ≡ length self.old.room) }
        ensures many { OnOk result (length self.new.room ≡ length self.new.checkpoint.pages) }
        ensures up { OnOk result (IsUpTo self.old.checkpoint.tables.config self.new.checkpoint.pages
            self.new.checkpoint) }
        ensures rests1 { OnOk result (IsAtRest P.tells (first_of complex.new) self.new.checkpoint.pages) }
        ensures rests2 { OnOk result (IsAtRest P.tells (second_of complex.new) self.new.checkpoint.pages) }
        ensures told { OnOk result (P.tells → ∥ Tell self.new.checkpoint.tables (kept_queue complex.new) ∥₁) }
        ensures ordered { OnOk result (P.tells → ∥ HaveOrders self.new.checkpoint.tables ∥₁) }
        ensures same_level { OnOk result (P.tells → complex.new.level ≡ self.new.checkpoint.level) }
    {
        let mut alike = false;
        self.read_all(complex, &mut alike)?;
        while !self.is_caught_up(alloc, alike)? {
            lose_read(complex)?;
            self.read_all(complex, &mut alike)?;
        }
        complex.note_pages(self.id, &self.checkpoint.pages);
        Ok(())
    }

    // Both reads of the copies, one after the other: page 0, and then all other pages.
    fn read_all<P: Plant + Drop, C: Steady + Drop>(
        &mut self,
        complex: &mut Complex<P, C>,
        alike: &mut bool,
    ) -> Result<(), NodeNo>
        requires drawn { AreDrawn self.old.checkpoint.tables self.old.checkpoint.level self.old.checkpoint.levels
            self.old.checkpoint.pages }
        requires may { MayAct complex.old.book self.old.id }
        requires some { 2 ≤ length self.old.room }
        requires few { length self.old.room ≤ pages_most }
        requires calm1 { IsCalmOf (first_of complex.old) (length self.old.room) }
        requires calm2 { IsCalmOf (second_of complex.old) (length self.old.room) }
        requires config { P.tells → page_count (kept_queue complex.old).config ≡ length self.old.room }
        requires many { length self.old.room ≡ length self.old.checkpoint.pages }
        requires same_config { P.tells → complex.old.base.config ≡ self.old.checkpoint.tables.config }
        requires noted { HasHad P.tells self.old.fresh (values_of complex.old.had) self.old.id.0
            self.old.checkpoint.pages }
        ensures base { complex.new.base ≡ complex.old.base }
        ensures printed { complex.new.printed ≡ complex.old.printed }
        ensures since { complex.new.since ≡ complex.old.since }
        ensures renewals { complex.new.renewals ≡ complex.old.renewals }
        ensures had { complex.new.had ≡ complex.old.had }
        ensures book { complex.new.book ≡ complex.old.book }
        ensures journal { complex.new.journal ≡ complex.old.journal }
        ensures current { complex.new.current ≡ complex.old.current }
        ensures reserved { complex.new.reserved ≡ complex.old.reserved }
        ensures placed { complex.new.placed ≡ complex.old.placed }
        ensures first { complex.new.first ≡ complex.old.first }
        ensures second { complex.new.second ≡ complex.old.second }
        ensures level { complex.new.level ≡ complex.old.level }
        ensures copy1 { complex.new.pair.first.copy ≡ complex.old.pair.first.copy }
        ensures copy2 { complex.new.pair.second.copy ≡ complex.old.pair.second.copy }
        ensures id { self.new.id ≡ self.old.id }
        ensures checkpoint { self.new.checkpoint ≡ self.old.checkpoint }
        ensures batch { self.new.batch ≡ self.old.batch }
        ensures as_many { length self.new.room ≡ length self.old.room }
        ensures read { IsRead P.tells self.old.id.0 (pair_of complex.old) (pair_of complex.new) result }
        ensures behind { OnOk result (self.new.behind ≡ true) }
        ensures fresh { self.new.fresh ≡ self.old.fresh }
        ensures spelled { OnOk result (SpellSome self.new.room) }
        ensures acts { OnOk result (P.tells → TookActs
            (1 + length (wanted (level_had self.old.fresh self.old.checkpoint.level) (levels_given self.new.room)))
            (pair_of complex.old) (pair_of complex.new)) }
        ensures alike { OnOk result (alike.new ≡ true → self.new.room ≡ self.new.checkpoint.pages) }
        ensures rests1 { OnOk result (IsAtRest P.tells (first_of complex.new) self.new.room) }
        ensures rests2 { OnOk result (IsAtRest P.tells (second_of complex.new) self.new.room) }
        ensures stand { OnOk result (P.tells → ∥ StandAt (kept_queue complex.new) complex.new.level self.new.room ∥₁) }
    {
        self.first_read(complex)?;
        self.second_read(complex, alike)?;
        Ok(())
    }

    // Brings the member's tables up to the pages that it read, where it may go on from them.
    fn is_caught_up(&mut self, alloc: Global, alike: bool) -> Result<bool, NodeNo>
        requires drawn { AreDrawn self.old.checkpoint.tables self.old.checkpoint.level self.old.checkpoint.levels
            self.old.checkpoint.pages }
        requires spelled { self.old.behind ≡ true → SpellSome self.old.room }
        requires few { length self.old.room ≤ pages_most }
        requires alike { alike ≡ true → self.old.room ≡ self.old.checkpoint.pages }
        ensures id { self.new.id ≡ self.old.id }
        ensures batch { self.new.batch ≡ self.old.batch }
        ensures only { IfErr result (λ e. e ≡ no_node.NoMemory) }
        ensures refused { IfOk result (λ up. up ≡ false → (self.new ≡ self.old)
            × ((t : TablesLem) → IsCheckpoint self.old.room t
            → MayGoOn self.old.checkpoint.tables.config self.old.room t → ⊥)) }
        ensures up { IfOk result (λ up. up ≡ true → self.old.behind ≡ true
            → IsUpTo self.old.checkpoint.tables.config self.old.room self.new.checkpoint) }
        ensures here { IfOk result (λ up. up ≡ true → self.new.behind ≡ false) }
        ensures fresh { IfOk result (λ up. up ≡ true → self.old.behind ≡ true → self.new.fresh ≡ false) }
        ensures as_many { length self.old.checkpoint.pages ≡ length self.old.room
            → length self.new.room ≡ length self.old.room }
        ensures sized { All (λ page. length page.0 ≡ page_bytes) self.old.room }
    {
        law_of_page_sizes(self.room.as_slice());
        match self.catch_up(alloc, alike) {
            Ok(up) => Ok(up),
            Err(NoMemory) => Err(NodeNo::NoMemory),
        }
    }

    // Whether its tables can be brought up to the pages that it read in their place, and it may go on from these.
    fn can_come_up(&self) -> bool
        requires drawn { AreDrawn self.now.checkpoint.tables self.now.checkpoint.level self.now.checkpoint.levels
            self.now.checkpoint.pages }
        requires spelled { SpellSome self.now.room }
        ensures { result ≡ true → MayComeUp self.now.fresh self.now.differ.pages self.now.room
            self.now.checkpoint.pages self.now.checkpoint.tables }
    {
        if self.fresh {
            return false;
        }
        let pages = self.room.as_slice();
        if pages.len() != self.checkpoint.pages.len() {
            return false;
        }
        if pages_level(pages) >= TOO_HIGH {
            return false;
        }
        if !can_bring_up_spelled(&self.checkpoint.tables, pages, &self.differ) {
            return false;
        }
        if order_of(&pages[0]) >= TOO_HIGH {
            return false;
        }
        true
    }

    // Brings its tables, the levels and the index up to the pages of its room in their place, and takes these.
    fn come_up(&mut self, alloc: Global)
        requires drawn { AreDrawn self.old.checkpoint.tables self.old.checkpoint.level self.old.checkpoint.levels
            self.old.checkpoint.pages }
        requires few { length self.old.room ≤ pages_most }
        requires may { MayComeUp self.old.fresh self.old.differ.pages self.old.room self.old.checkpoint.pages
            self.old.checkpoint.tables }
        ensures id { self.new.id ≡ self.old.id }
        ensures batch { self.new.batch ≡ self.old.batch }
        ensures up { IsUpTo self.old.checkpoint.tables.config self.old.room self.new.checkpoint }
        ensures room { self.new.room ≡ self.old.checkpoint.pages }
        ensures behind { self.new.behind ≡ false }
        ensures fresh { self.new.fresh ≡ false }
    {
        let pages = self.room.as_slice();
        law_of_levels();
        law_of_page_sizes(pages);
        let level = pages_level(pages);
        bring_up(&mut self.checkpoint.tables, pages, &self.differ);
        self.kept
            .follow(alloc, &self.checkpoint.tables, &self.differ);
        self.checkpoint.level = level;
        take_levels(&mut self.checkpoint.levels, pages);
        let read = std::mem::replace(&mut self.room, List::new(alloc));
        self.room = std::mem::replace(&mut self.checkpoint.pages, read);
        self.behind = false;
        self.marks = Marks::none();
    }

    // Takes the pages of the member's room, which spell these tables with these levels, and builds the index anew.
    fn take_up(&mut self, alloc: Global, tables: Tables, levels: List<Level>)
        requires shape { HasShape tables }
        requires drawn { AreAsDrawn tables levels self.old.room }
        requires low { are_orders_low tables ≡ true }
        ensures id { self.new.id ≡ self.old.id }
        ensures batch { self.new.batch ≡ self.old.batch }
        ensures tables { self.new.checkpoint.tables ≡ tables }
        ensures levels { self.new.checkpoint.levels ≡ levels }
        ensures level { self.new.checkpoint.level ≡ level (bytes_of self.old.room) }
        ensures pages { self.new.checkpoint.pages ≡ self.old.room }
        ensures room { self.new.room ≡ self.old.checkpoint.pages }
        ensures behind { self.new.behind ≡ false }
        ensures fresh { self.new.fresh ≡ false }
    {
        self.checkpoint.level = pages_level(self.room.as_slice());
        self.checkpoint.tables = tables;
        self.checkpoint.levels = levels;
        let read = std::mem::replace(&mut self.room, List::new(alloc));
        self.room = std::mem::replace(&mut self.checkpoint.pages, read);
        self.behind = false;
        self.fresh = false;
        self.marks = Marks::none();
        self.kept.build(alloc, &self.checkpoint.tables);
    }
}
