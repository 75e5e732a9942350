//! Lists of one item.
ghost use Rattle.std.specs.Prelude.{◌≡◌, IfOk, replicate};

use mas_types::{List, NoMemory};
use std::alloc::Global;

/// The item, so many times.
pub(crate) fn repeated<T: Copy + Drop>(
    alloc: Global,
    item: T,
    times: usize,
) -> Result<List<T>, NoMemory>
    ensures { IfOk result (λ items. items ≡ replicate times item) }
{
    let mut items = List::new(alloc);
    for _time in 0..times {
        items.push(item)?;
    }
    Ok(items)
}
