//! What comes in on wires.
ghost use Rattle.std.specs.Prelude.{◌≡◌, ◌+◌, ◌≤◌, ◌<◌, ◌==◌, ◌++◌, ℕ, [], length, take, drop, slice_index, if◌then◌else◌, IfOk, IfErr};
ghost use Rattle.spool_disk.specs.Standing.{bytes_at};

use mas_types::NoMemory;
use std::alloc::{AllocError, Global};

// The wires that there are.
const WIRES: usize = 256;

// By the wire's number, the bytes that came on it, and how many of them were taken.
#[derive(Drop)]
pub(crate) struct Incoming {
    pub(crate) came: Vec<Vec<u8>>,
    pub(crate) taken: Vec<usize>,
    ghost wires: { length came.items ≡ 256 },
    ghost counts: { length taken.items ≡ 256 },
    ghost within: { (w : ℕ) → slice_index taken.items w ≤ length (bytes_at came.items w) },
}

// No bytes for each wire.
fn empty_wires(alloc: Global) -> Result<Vec<Vec<u8>>, AllocError>
    ensures len { IfOk result (λ all. length all.items ≡ 256) }
    ensures each { IfOk result (λ all. (w : ℕ) → bytes_at all.items w ≡ []) }
{
    let mut all = Vec::with_capacity(alloc, WIRES)?;
    for wire in 0..WIRES {
        all.push(Vec::new(alloc))?;
    }
    Ok(all)
}

// The bytes after a place, as many as there is room for.
fn copy_from(bytes: &[u8], at: usize, into: &mut [u8])
    requires { at + length into.old ≤ length bytes.now }
    ensures { into.new ≡ take (length into.new) (drop at bytes.now) }
{
    into.copy_from_slice(&bytes[at..at + into.len()]);
}

fn bytes_on(wires: &[Vec<u8>], wire: usize) -> &[u8]
    requires { wire < length wires.now }
    ensures { result.now ≡ bytes_at wires.now wire }
{
    &wires[wire]
}

fn extend(wires: &mut Vec<Vec<u8>>, wire: usize, bytes: &[u8]) -> Result<(), AllocError>
    requires { wire < length wires.old.items }
    ensures len { length wires.new.items ≡ length wires.old.items }
    ensures added { IfOk result (λ u. (w : ℕ)
        → bytes_at wires.new.items w ≡ (if wire == w then bytes_at wires.old.items w
        ++ bytes.now else bytes_at wires.old.items w)) }
    ensures none { IfErr result (λ e. (w : ℕ) → bytes_at wires.new.items w ≡ bytes_at wires.old.items w) }
{
    wires[wire].extend_from_slice(bytes)
}

impl Incoming {
    ghost use Rattle.spool_disk.specs.Waiting.{waiting_on};

    // Nothing came on any wire.
    pub(crate) fn new(alloc: Global) -> Result<Incoming, AllocError>
        ensures { IfOk result (λ i. (w : ℕ) → waiting_on i w ≡ []) }
    {
        let came = empty_wires(alloc)?;
        let taken = vec![in alloc; 0; WIRES]?;
        Ok(Incoming { came, taken })
    }

    // How many bytes wait on a wire.
    pub(crate) fn count(&self, wire: u8) -> usize
        ensures { result ≡ length (waiting_on self.now wire) }
    {
        let wire = wire as usize;
        bytes_on(&self.came, wire).len() - self.taken[wire]
    }

    // Takes the first bytes that wait on a wire.
    pub(crate) fn take(&mut self, wire: u8, into: &mut [u8])
        requires { length into.old ≤ length (waiting_on self.old wire) }
        ensures into { into.new ≡ take (length into.new) (waiting_on self.old wire) }
        ensures rest { (w : ℕ) → waiting_on self.new w
            ≡ (if wire == w then drop (length into.new) (waiting_on self.old w) else waiting_on self.old w) }
    {
        let wire = wire as usize;
        copy_from(bytes_on(&self.came, wire), self.taken[wire], into);
        self.taken[wire] += into.len();
    }

    // More bytes come on a wire. After NoMemory there are as many as before.
    pub(crate) fn add(&mut self, wire: u8, bytes: &[u8]) -> Result<(), NoMemory>
        ensures added { IfOk result (λ u. (w : ℕ)
            → waiting_on self.new w ≡ (if wire == w then waiting_on self.old w
            ++ bytes.now else waiting_on self.old w)) }
        ensures none { IfErr result (λ e. (w : ℕ) → waiting_on self.new w ≡ waiting_on self.old w) }
    {
        extend(&mut self.came, wire as usize, bytes)?;
        Ok(())
    }
}
