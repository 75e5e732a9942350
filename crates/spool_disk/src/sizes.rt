//! How large each device is.
ghost use Rattle.std.specs.Prelude.{◌≡◌, ◌≤◌};
ghost use Rattle.spool_disk.specs.Sizes.{size_in};

/// The sizes of the devices, in bytes. A device that is not named here has 0 bytes.
#[derive(Clone, Copy)]
pub struct Sizes {
    /// The bytes of each of the two checkpoint data sets.
    pub ckpt: u64,
    /// The number of spool volumes, from volume 1 on.
    pub volumes: u8,
    /// The bytes of each spool volume.
    pub volume: u64,
}

/// Devices are numbered so: the two checkpoint data sets, then the volumes by their numbers from 0 on.
pub(crate) const SLOTS: usize = 258;

// The size of a device by its slot.
pub(crate) fn size_number(sizes: &Sizes, slot: usize) -> u64
    ensures size { result ≡ size_in sizes.now slot }
    ensures few { 258 ≤ slot → result ≡ 0 }
{
    if slot < 2 {
        sizes.ckpt
    } else if 2 < slot && slot <= 2 + sizes.volumes as usize {
        sizes.volume
    } else {
        0
    }
}
