//! A run that has begun: its shared value and its members, and the lines of a script that are played on them.
ghost use Rattle.mas_run.specs.Names.{steps_most, IsMember, left_of, granted_by, IsPlayed};
ghost use Rattle.std.specs.Prelude.{◌≡◌, ◌≤◌, ◌-◌, length, true, OnOk, All};
ghost use Rattle.mas_run.specs.Wires.{task_place};

use mas_complex::{Complex, Steady};
use mas_types::limits::WIRES_MOST;
use mas_types::{List, MemberId};
use member_lines::{
    Admission, Closed, admit, arm_line, free_line, lock_line, replace_line, say_denied,
    say_refused, say_stopped, stop_line,
};
use member_node::{Member, NodeNo};
use member_resets::{play_task, reset_line, take_line};
use nje_frames::{FrameReader, law_of_streams};
use script_lang::{Ask, Step};
use spool_plant::Plant;
use std::alloc::Global;
use step_turns::{Grant, Holder, Task};

/// The shared value of a run, and its members: SYSA first, and as many as its configuration has. And what each has read
/// of each line to another node, eight of SYSA first.
#[derive(Drop)]
pub(crate) struct Running<P: Plant + Drop, C: Steady + Drop> {
    pub(crate) complex: Complex<P, C>,
    pub(crate) members: List<Member>,
    pub(crate) readers: List<FrameReader>,
}

// A line is begun below this level of the kept pages. A run begins far below it.
const LEVEL_MOST: u64 = (1 << 62) + (1 << 61);

/// The lines to other nodes that a member may serve.
const LINES: usize = WIRES_MOST as usize;

// How a member comes to hold the lock in a line: one that holds it before has it by LOCK.
fn grant_of<P: Plant + Drop, C: Steady + Drop>(complex: &Complex<P, C>, by: MemberId) -> Grant
    ensures { result ≡ granted_by complex.now.book by }
{
    if complex.holder() == by {
        Grant::ByLock
    } else {
        Grant::ForStep
    }
}

// Who holds the lock in a line, once it was tried for.
fn holder_of<P: Plant + Drop, C: Steady + Drop>(
    complex: &Complex<P, C>,
    by: MemberId,
    step: u32,
    grant: Grant,
) -> Holder
    requires { IsMember complex.now.book by }
    ensures { result ≡ record { by = by; step = step; hold = left_of complex.now.book by; grant = grant } }
{
    Holder {
        by,
        step,
        hold: complex.hold_left(by),
        grant,
    }
}

// The place of the reader of the line that a task of a member serves, among those of all members.
fn reader_of(by: MemberId, task: &Task) -> usize
    ensures { result ≡ task_place (by.0 - 1) task.now }
{
    let first = LINES * (by.0 as usize).saturating_sub(1);
    match task {
        Task::Line(line) => first + (*line as usize).saturating_sub(1),
        _ => first,
    }
}

impl<P: Plant + Drop, C: Steady + Drop> Running<P, C> {
    ghost use Rattle.member_resets.specs.Settling.{IfRuns};
    ghost use Rattle.mas_run.specs.LinesDone.{LineDone, LineIsPlayed};
    ghost use Rattle.mas_run.specs.LinesPlayed.{PlayedLines, is_of_member, line_by};
    ghost use Rattle.run_opening.specs.Shows.{BetweenLines};
    ghost use Rattle.run_opening.specs.Wires.{HaveRead};

    // A line of a member: it is tested, and then played as it is admitted, or closed.
    fn play_member(
        &mut self,
        alloc: Global,
        step: u32,
        by: MemberId,
        asked: &Ask,
    ) -> Result<(), NodeNo>
        requires played { IsPlayed (line_by by asked.now) }
        requires member { is_of_member asked.now ≡ true }
        requires few { step ≤ steps_most }
        requires between { BetweenLines self.old.complex self.old.members step }
        requires readers { HaveRead self.old.complex self.old.readers }
        ensures done { LineDone self.old.complex self.new.complex self.new.members step by asked.now
            result }
        ensures heard { IfRuns result (HaveRead self.new.complex self.new.readers) }
    {
        if self.complex.level >= LEVEL_MOST {
            return Err(NodeNo::NoMemory);
        }
        let grant = grant_of(&self.complex, by);
        let Ok(admission) = admit(alloc, &mut self.complex, by, asked) else {
            return Err(NodeNo::NoMemory);
        };
        let complex = &mut self.complex;
        match admission {
            Admission::Refused { sayer, end } => {
                say_refused(alloc, complex, Closed { by, step, sayer }, &end)
            }
            Admission::Denied(why) => say_denied(alloc, complex, by, step, why),
            Admission::Frees => free_line(alloc, complex, by, step),
            Admission::Unplayed => unreachable!(),
            acts => {
                let at = (by.0 as usize).saturating_sub(1);
                let member = self.members.item_mut(at);
                let holder = holder_of(complex, by, step, grant);
                match acts {
                    Admission::Plays(task) => {
                        law_of_streams();
                        let place = reader_of(by, &task);
                        let reader = self.readers.item_mut(place);
                        play_task(member, alloc, complex, reader, holder, task)
                    }
                    Admission::Resets(of) => reset_line(member, alloc, complex, holder, of),
                    Admission::Replaces(dev) => replace_line(member, alloc, complex, holder, dev),
                    Admission::TakesOver(of) => take_line(member, alloc, complex, step, of),
                    Admission::Locks => lock_line(member, alloc, complex, step),
                    _ => unreachable!(),
                }
            }
        }
    }

    // A line of a member. Where its member was halted, what it had reserved is given up, the operator says that it was
    // stopped, and the run goes on.
    fn play_asked(
        &mut self,
        alloc: Global,
        step: u32,
        by: MemberId,
        asked: &Ask,
    ) -> Result<(), NodeNo>
        requires played { IsPlayed (line_by by asked.now) }
        requires member { is_of_member asked.now ≡ true }
        requires few { step ≤ steps_most }
        requires between { BetweenLines self.old.complex self.old.members step }
        requires readers { HaveRead self.old.complex self.old.readers }
        ensures line { LineIsPlayed self.old.complex self.new.complex self.new.members step
            (line_by by asked.now) result }
        ensures heard { OnOk result (HaveRead self.new.complex self.new.readers) }
    {
        match self.play_member(alloc, step, by, asked) {
            Ok(()) => Ok(()),
            Err(NodeNo::Halted) => {
                self.complex.give_up_reserved();
                say_stopped(alloc, &mut self.complex, by, step)
            }
            Err(why) => Err(why),
        }
    }

    /// Plays a line with this number. A step of a member is tested first: whether its member is one of the
    /// configuration, and isn't stopped; what its deck says, or which member it resets; and whether the lock is to be
    /// had. Then it is played with the lock, which is given up at its end, unless LOCK took it and some of the hold is
    /// left. A member that halts in it is stopped, and the operator says so; it holds what it held. STOP stops a member
    /// that is up, or arms a stop of it; LOSE loses a device. Neither says anything.
    ///
    /// The run goes on after each line but one with an error: both copies are lost, the console failed, or there was no
    /// memory, which is also said of a line of a member at a level of 2^62 + 2^61 or more. Halted never comes.
    pub(crate) fn play_line(
        &mut self,
        alloc: Global,
        number: u32,
        line: &Step,
    ) -> Result<(), NodeNo>
        requires played { IsPlayed line.now }
        requires few { number ≤ steps_most }
        requires between { BetweenLines self.old.complex self.old.members number }
        requires readers { HaveRead self.old.complex self.old.readers }
        ensures line { LineIsPlayed self.old.complex self.new.complex self.new.members number line.now
            result }
        ensures heard { OnOk result (HaveRead self.new.complex self.new.readers) }
    {
        match &line.what {
            Ask::Stop => {
                stop_line(&mut self.complex, line.by);
                Ok(())
            }
            Ask::StopIn(fuse, count) => {
                arm_line(&mut self.complex, line.by, *fuse, *count);
                Ok(())
            }
            Ask::Lose(dev) => {
                self.complex.lose(*dev);
                Ok(())
            }
            asked => self.play_asked(alloc, number, line.by, asked),
        }
    }

    /// Plays the lines of a script one after another, up to one that ends the run.
    pub(crate) fn play_lines(&mut self, alloc: Global, lines: &[Step]) -> Result<(), NodeNo>
        requires few { length lines.now ≤ steps_most }
        requires played { All IsPlayed lines.now }
        requires between { BetweenLines self.old.complex self.old.members 1 }
        requires readers { HaveRead self.old.complex self.old.readers }
        ensures { PlayedLines 1 lines.now self.old.complex self.new.complex result }
    {
        let mut number = 0;
        for line in lines {
            number += 1;
            self.play_line(alloc, number, line)?;
        }
        Ok(())
    }
}
