//! The groups that the outputs of a job need.
ghost use Rattle.std.specs.Prelude.{◌≡◌, ◌≤◌};
ghost use Rattle.member_work.specs.Names.{groups_of_outputs as groups_of_outputs_lem, AreOutputs};

use mas_types::OutSpec;
use spool_text::groups_needed;

/// The groups that outputs need, one after another.
pub fn groups_of_outputs(specs: &[OutSpec]) -> u32
    requires { AreOutputs specs.now }
    ensures groups { result ≡ groups_of_outputs_lem specs.now }
    ensures few { result ≤ 320000 }
{
    let mut groups = 0;
    for spec in specs {
        groups += groups_needed(&spec.text);
    }
    groups
}
