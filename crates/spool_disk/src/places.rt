//! Numbers of devices and parts.
ghost use Rattle.std.specs.Prelude.{◌≡◌, ◌<◌};
ghost use Rattle.spool_disk.specs.Places.{slot_of, place_of};

use mas_types::Dev;
use spool_plant::Part;

/// The places of all parts: devices, the console, and a printer and a wire for each byte.
pub const PLACES: usize = 1032;

/// The number of a device, its slot.
pub fn slot_number(dev: Dev) -> usize
    ensures slot { result ≡ slot_of dev }
    ensures few { result < 258 }
{
    match dev {
        Dev::Ckpt1 => 0,
        Dev::Ckpt2 => 1,
        Dev::Spool(volume) => 2 + volume as usize,
    }
}

/// The number of a part, its place. No two parts have one place.
pub fn place_number(part: Part) -> usize
    ensures place { result ≡ place_of part }
    ensures few { result < 1032 }
{
    match part {
        Part::Disk(dev) => 4 * slot_number(dev),
        Part::Console => 1,
        Part::Printer(member) => 4 * member.0 as usize + 2,
        Part::Wire(wire) => 4 * wire as usize + 3,
    }
}
