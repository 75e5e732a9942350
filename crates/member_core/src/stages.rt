//! Tests of stages.
ghost use Rattle.std.specs.Prelude.{◌≡◌};
ghost use Rattle.member_core.specs.Worlds.{is_away as at_away, is_locked as at_locked, is_read1 as at_read1, is_read2 as at_read2, is_ready as at_ready, is_logged1 as at_logged1, is_logged2 as at_logged2, is_opened1 as at_opened1};

use crate::worlds::At;

/// Away.
pub fn is_away(stage: At) -> bool
    ensures { result ≡ at_away stage }
{
    matches!(stage, At::Away)
}

/// Locked.
pub fn is_locked(stage: At) -> bool
    ensures { result ≡ at_locked stage }
{
    matches!(stage, At::Locked)
}

/// Read1.
pub fn is_read1(stage: At) -> bool
    ensures { result ≡ at_read1 stage }
{
    matches!(stage, At::Read1)
}

/// Read2.
pub fn is_read2(stage: At) -> bool
    ensures { result ≡ at_read2 stage }
{
    matches!(stage, At::Read2)
}

/// Ready.
pub fn is_ready(stage: At) -> bool
    ensures { result ≡ at_ready stage }
{
    matches!(stage, At::Ready)
}

/// Logged1.
pub fn is_logged1(stage: At) -> bool
    ensures { result ≡ at_logged1 stage }
{
    matches!(stage, At::Logged1)
}

/// Logged2.
pub fn is_logged2(stage: At) -> bool
    ensures { result ≡ at_logged2 stage }
{
    matches!(stage, At::Logged2)
}

/// Opened1.
pub fn is_opened1(stage: At) -> bool
    ensures { result ≡ at_opened1 stage }
{
    matches!(stage, At::Opened1)
}
