//! Threads that write into one history, a turn each.
use gate_example::{together, two};
use mas_types::MemberId;
use std::test::Fail;

const MEMBERS: u8 = 8;

const TURNS: u32 = 10_000;

#[test]
fn two_threads_write_in_turn(rt: HostRuntime) -> Result<(), Fail> {
    let (diary, first, second) = two(&rt, rt.alloc(), &[1, 2, 3], &[4, 5]).ok_or("memory")?;
    assert!(rt; (first, second, diary.entries.len()) == (3, 2, 5));
    Ok(())
}

#[test]
fn eight_threads_take_ten_thousand_turns_each(rt: HostRuntime) -> Result<(), Fail> {
    let mut steps = Vec::new(rt.alloc());
    for step in 0..TURNS {
        steps.push(step)?;
    }
    let diary = together(&rt, rt.alloc(), MEMBERS, steps.as_slice()).ok_or("memory")?;
    assert!(rt; diary.entries.len() == 80_000);
    for member in 1..=MEMBERS {
        let mut next = 0;
        for entry in diary.entries.as_slice() {
            if entry.by == MemberId(member) {
                assert!(rt; entry.step == next);
                assert!(rt; next < TURNS);
                next += 1;
            }
        }
        assert!(rt; next == TURNS);
    }
    Ok(())
}
