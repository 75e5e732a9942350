//! What a plant in memory begins with.
ghost use Rattle.std.specs.Prelude.{◌≡◌, ◌<◌, ◌≤◌, ℕ, [], length, replicate, IfOk};
ghost use Rattle.spool_disk.specs.Standing.{bytes_at};
ghost use Rattle.spool_disk.specs.Sizes.{size_in};
ghost use Rattle.spool_disk.specs.Entries.{kept_in};

use crate::entry::Entry;
use crate::sizes::{SLOTS, Sizes, size_number};
use std::alloc::{AllocError, Global};

// The sizes, the bytes of each device, and the lines that stand on the console and the printers already.
#[derive(Drop)]
pub(crate) struct Base {
    pub(crate) sizes: Sizes,
    pub(crate) start: Vec<Vec<u8>>,
    pub(crate) said: Vec<Entry>,
    pub(crate) text: Vec<u8>,
    ghost whole: { (slot : ℕ) → length (bytes_at start.items slot) ≡ size_in sizes slot },
    ghost slots: { length start.items ≡ 258 },
    ghost texts: { kept_in said.items ≡ length text.items },
}

fn zeros(alloc: Global, n: usize) -> Result<Vec<u8>, AllocError>
    ensures { IfOk result (λ v. v.items ≡ replicate n 0) }
{
    vec![in alloc; 0; n]
}

// Zeros for each device.
fn blank_start(alloc: Global, sizes: &Sizes) -> Result<Vec<Vec<u8>>, AllocError>
    ensures len { IfOk result (λ all. length all.items ≡ 258) }
    ensures each { IfOk result (λ all. (slot : ℕ) → slot < 258
        → bytes_at all.items slot ≡ replicate (size_in sizes.now slot) 0) }
    ensures none { (slot : ℕ) → 258 ≤ slot → size_in sizes.now slot ≡ 0 }
{
    let _volumes = sizes.volumes;
    let mut all = Vec::with_capacity(alloc, SLOTS)?;
    for slot in 0..SLOTS {
        let bytes = zeros(alloc, size_number(sizes, slot) as usize)?;
        all.push(bytes)?;
    }
    Ok(all)
}

// Zeroed devices, and no line.
pub(crate) fn blank_base(alloc: Global, sizes: Sizes) -> Result<Base, AllocError>
    ensures sizes { IfOk result (λ b. b.sizes ≡ sizes) }
    ensures zeros { IfOk result (λ b. (slot : ℕ) → slot < 258
        → bytes_at b.start.items slot ≡ replicate (size_in sizes slot) 0) }
    ensures none { IfOk result (λ b. b.said.items ≡ []) }
{
    let start = blank_start(alloc, &sizes)?;
    Ok(Base {
        sizes,
        start,
        said: Vec::new(alloc),
        text: Vec::new(alloc),
    })
}
