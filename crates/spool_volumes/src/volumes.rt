//! The volume of a group.
ghost use Rattle.std.specs.Prelude.{◌≡◌, ◌≤◌};
ghost use Rattle.spool_volumes.specs.Volumes.{volume_of as volume_of_lem};

use mas_types::GroupNo;

/// The volume on which a group lies, where there are so many volumes with so many groups each.
pub fn volume_of(volumes: u8, per: u32, group: GroupNo) -> u8
    requires some { 1 ≤ per }
    requires placed { volume_of_lem per group ≤ volumes }
    ensures { result ≡ volume_of_lem per group }
{
    prove!((group.0 / per) as u64 + 1 <= volumes as u64);
    (group.0 / per) as u8 + 1
}
