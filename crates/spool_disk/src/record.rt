//! A record of acts, and the bytes that they come to.
ghost use Rattle.std.specs.Prelude.{◌≡◌, ◌+◌, ◌≤◌, ◌<◌, ◌++◌, ◌∷◌, [], ◌==◌, ℕ, length, replicate, IfOk, vec_len, vec_capacity, if◌then◌else◌, nat_lt};
ghost use Rattle.spool_disk.specs.Deeds.{Idle, Wrote, Synced, Said, Passed, Fetched, Renewed, overwrite, after, idled};
ghost use Rattle.spool_disk.specs.Entries.{kept_by, kept_in, deed_of, deeds_of};
ghost use Rattle.spool_disk.specs.Standing.{bytes_at};
ghost use Rattle.spool_disk.specs.Kept.{AreCurrent, fresh, size_at};
ghost use Rattle.spool_plant.specs.View.{slice};

use crate::base::Base;
use crate::entry::Entry;
use crate::sizes::size_number;
use std::alloc::{AllocError, Global};

// Puts bytes over those that are there.
fn put_over(disk: &mut Vec<u8>, at: usize, bytes: &[u8])
    requires { at + length bytes.now ≤ vec_len disk.old }
    ensures { disk.new.items ≡ overwrite at bytes.now disk.old.items }
{
    disk[at..at + bytes.len()].copy_from_slice(bytes);
}

fn put_at(disks: &mut Vec<Vec<u8>>, slot: usize, at: usize, bytes: &[u8])
    requires there { slot < vec_len disks.old }
    requires room { at + length bytes.now ≤ length (bytes_at disks.old.items slot) }
    ensures len { vec_len disks.new ≡ vec_len disks.old }
    ensures bytes { (s : ℕ) → bytes_at disks.new.items s
        ≡ (if slot == s then overwrite at bytes.now (bytes_at disks.old.items s) else bytes_at disks.old.items s) }
{
    let disk = &mut disks[slot];
    put_over(disk, at, bytes);
}

// Makes zeros of all bytes.
pub(crate) fn clear(disk: &mut [u8])
    ensures { disk.new ≡ replicate (length disk.old) 0 }
{
    disk.fill(0);
}

fn clear_all(disk: &mut Vec<u8>)
    ensures { disk.new.items ≡ replicate (length disk.old.items) 0 }
{
    clear(disk);
}

fn clear_at(disks: &mut Vec<Vec<u8>>, slot: usize)
    requires { slot < vec_len disks.old }
    ensures len { vec_len disks.new ≡ vec_len disks.old }
    ensures bytes { (s : ℕ) → bytes_at disks.new.items s
        ≡ (if slot == s then replicate (length (bytes_at disks.old.items s)) 0 else bytes_at disks.old.items s) }
{
    let disk = &mut disks[slot];
    clear_all(disk);
}

fn copy_part(bytes: &[u8], at: usize, into: &mut [u8])
    requires { at + length into.old ≤ length bytes.now }
    ensures { into.new ≡ slice at (length into.new) bytes.now }
{
    into.copy_from_slice(&bytes[at..at + into.len()]);
}

fn read_at(disks: &[Vec<u8>], slot: usize, at: usize, into: &mut [u8])
    requires there { slot < length disks.now }
    requires room { at + length into.old ≤ length (bytes_at disks.now slot) }
    ensures { into.new ≡ slice at (length into.new) (bytes_at disks.now slot) }
{
    let disk = &disks[slot];
    copy_part(disk, at, into);
}

// Adds an entry with its bytes, for which there is room.
fn append(log: &mut Vec<Entry>, arena: &mut Vec<u8>, entry: Entry, bytes: &[u8])
    requires acts { length log.old.items < vec_capacity log.old }
    requires room { length arena.old.items + length bytes.now ≤ vec_capacity arena.old }
    requires kept { kept_by entry ≡ length bytes.now }
    requires fits { kept_in log.old.items ≡ length arena.old.items }
    ensures added { deeds_of log.new.items arena.new.items
        ≡ deeds_of log.old.items arena.old.items ++ deed_of entry bytes.now ∷ [] }
    ensures fits { kept_in log.new.items ≡ length arena.new.items }
    ensures longer { length log.new.items ≡ length log.old.items + 1 }
    ensures more { length arena.new.items ≡ length arena.old.items + length bytes.now }
    ensures log_room { vec_capacity log.new ≡ vec_capacity log.old }
    ensures arena_room { vec_capacity arena.old ≤ vec_capacity arena.new }
{
    let _done = arena.extend_from_slice(bytes);
    log.push_reserved(entry);
}

// The acts made over a base, and the bytes of the devices after them. The room for entries and for their bytes was
// taken when the record was made.
#[derive(Drop)]
pub(crate) struct Record {
    pub(crate) base: Base,
    disks: Vec<Vec<u8>>,
    pub(crate) log: Vec<Entry>,
    pub(crate) arena: Vec<u8>,
    pub(crate) acts: usize,
    pub(crate) room: usize,
    ghost slots: { length disks.items ≡ 258 },
    ghost fits: { kept_in log.items ≡ length arena.items },
    ghost acts_room: { (length log.items ≤ acts) × (acts ≤ vec_capacity log) },
    ghost bytes_room: { (length arena.items ≤ room) × (room ≤ vec_capacity arena) },
    ghost current: { AreCurrent base disks.items (deeds_of log.items arena.items) },
}

impl Record {
    ghost use Rattle.spool_disk.specs.Added.{Added};

    // An act that changed nothing.
    pub(crate) fn add_idle(&mut self)
        requires { length self.old.log.items < self.old.acts }
        ensures { Added Idle 0 self.old self.new }
    {
        append(&mut self.log, &mut self.arena, Entry::Idle, &[]);
    }

    // An act that changed nothing, where there is room for it.
    pub(crate) fn add_pass(&mut self)
        ensures base { self.new.base ≡ self.old.base }
        ensures deeds { deeds_of self.new.log.items self.new.arena.items
            ≡ idled self.old.acts (deeds_of self.old.log.items self.old.arena.items) }
        ensures longer { length self.new.log.items
            ≡ (if nat_lt (length self.old.log.items) self.old.acts then length self.old.log.items
            + 1 else length self.old.log.items) }
        ensures more { length self.new.arena.items ≡ length self.old.arena.items }
        ensures acts { self.new.acts ≡ self.old.acts }
        ensures room { self.new.room ≡ self.old.room }
    {
        if self.log.len() < self.acts {
            self.add_idle();
        }
    }

    pub(crate) fn add_sync(&mut self, slot: usize)
        requires { length self.old.log.items < self.old.acts }
        ensures { Added (Synced slot) 0 self.old self.new }
    {
        append(&mut self.log, &mut self.arena, Entry::Synced(slot), &[]);
    }

    pub(crate) fn add_line(&mut self, place: usize, text: &[u8], whole: bool)
        requires acts { length self.old.log.items < self.old.acts }
        requires room { length self.old.arena.items + length text.now ≤ self.old.room }
        ensures { Added (Said place text.now whole) (length text.now) self.old self.new }
    {
        append(
            &mut self.log,
            &mut self.arena,
            Entry::Said(place, text.len(), whole),
            text,
        );
    }

    // Bytes given on a wire, or else taken from it, by a member.
    pub(crate) fn add_passed(&mut self, given: bool, wire: u8, by: u8, bytes: &[u8])
        requires acts { length self.old.log.items < self.old.acts }
        requires room { length self.old.arena.items + length bytes.now ≤ self.old.room }
        ensures { Added (Passed given wire by bytes.now) (length bytes.now) self.old self.new }
    {
        append(
            &mut self.log,
            &mut self.arena,
            Entry::Passed(given, wire, by, bytes.len()),
            bytes,
        );
    }

    pub(crate) fn add_read(&mut self, slot: usize)
        requires { length self.old.log.items < self.old.acts }
        ensures { Added (Fetched slot) 0 self.old self.new }
    {
        append(&mut self.log, &mut self.arena, Entry::Fetched(slot), &[]);
    }

    // Another device of zeros in the place of a slot's, which was lost since a moment, if it was.
    pub(crate) fn add_renewal(&mut self, slot: usize, since: Option<u64>)
        requires acts { length self.old.log.items < self.old.acts }
        requires there { slot < 258 }
        ensures { Added (Renewed slot since) 0 self.old self.new }
    {
        clear_at(&mut self.disks, slot);
        append(
            &mut self.log,
            &mut self.arena,
            Entry::Renewed(slot, since),
            &[],
        );
    }

    // A write of so many bytes, of which these came.
    pub(crate) fn add_write(&mut self, slot: usize, at: usize, len: usize, bytes: &[u8])
        requires acts { length self.old.log.items < self.old.acts }
        requires room { length self.old.arena.items + length bytes.now ≤ self.old.room }
        requires there { slot < 258 }
        requires within { at + length bytes.now ≤ size_at self.old.base slot }
        requires few { length bytes.now ≤ len }
        ensures { Added (Wrote slot at len bytes.now) (length bytes.now) self.old self.new }
    {
        put_at(&mut self.disks, slot, at, bytes);
        append(
            &mut self.log,
            &mut self.arena,
            Entry::Wrote(slot, at, len, bytes.len()),
            bytes,
        );
    }

    pub(crate) fn size(&self, slot: usize) -> u64
        ensures { result ≡ size_at self.now.base slot }
    {
        size_number(&self.base.sizes, slot)
    }

    // Reads the present bytes.
    pub(crate) fn read(&self, slot: usize, at: usize, into: &mut [u8])
        requires there { slot < 258 }
        requires within { at + length into.old ≤ size_at self.now.base slot }
        ensures { into.new ≡ slice at (length into.new)
            (after slot (fresh self.now.base slot) (deeds_of self.now.log.items self.now.arena.items)).bytes }
    {
        read_at(&self.disks, slot, at, into);
    }
}

pub(crate) fn copy(alloc: Global, bytes: &[u8]) -> Result<Vec<u8>, AllocError>
    ensures { IfOk result (λ v. v.items ≡ bytes.now) }
{
    bytes.to_vec(alloc)
}

// A copy of each device.
fn copy_all(alloc: Global, disks: &[Vec<u8>]) -> Result<Vec<Vec<u8>>, AllocError>
    ensures len { IfOk result (λ all. length all.items ≡ length disks.now) }
    ensures same { IfOk result (λ all. (slot : ℕ) → bytes_at all.items slot ≡ bytes_at disks.now slot) }
{
    let mut all = Vec::with_capacity(alloc, disks.len())?;
    for disk in disks {
        all.push(copy(alloc, disk)?)?;
    }
    Ok(all)
}

impl Record {
    // An empty record over a base, with room for so many acts and bytes.
    pub(crate) fn new(
        alloc: Global,
        base: Base,
        acts: usize,
        room: usize,
    ) -> Result<Record, AllocError>
        ensures base { IfOk result (λ r. r.base ≡ base) }
        ensures log { IfOk result (λ r. (r.log.items ≡ []) × (r.arena.items ≡ [])) }
        ensures room { IfOk result (λ r. (r.acts ≡ acts) × (r.room ≡ room)) }
    {
        let disks = copy_all(alloc, &base.start)?;
        let log = Vec::with_capacity(alloc, acts)?;
        let arena = Vec::with_capacity(alloc, room)?;
        Ok(Record {
            base,
            disks,
            log,
            arena,
            acts,
            room,
        })
    }
}
