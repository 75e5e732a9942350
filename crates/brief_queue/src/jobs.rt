//! Jobs and outputs without their texts.
ghost use Rattle.std.specs.Prelude.{◌≡◌};

use crate::texts::BriefText;
use mas_types::{Class, Job, JobFields, JobNo, MemberId, Name8, OutNo, Output, Phase};
use std::marker::Model;

/// A job of whose deck memory has no cards. A contract sees the job.
#[derive(Drop)]
pub struct BriefJob {
    /// Its number.
    pub number: JobNo,
    /// What its deck says, except what commands changed of it.
    pub fields: JobFields,
    /// Where it is on its way.
    pub phase: Phase,
    /// It was cancelled while a member was at work on it.
    pub cancelled: bool,
    /// The member that is at work on it, 0 for nobody.
    pub busy: MemberId,
    /// The cards of its deck.
    pub text: BriefText,
}

impl Model for BriefJob {
    ghost use Rattle.mas_types.specs.declared.jobs.Job.{Job};

    ghost Value = { Job };

    ghost view = { λ a. record {
      number = a.number;
      fields = a.fields;
      phase = a.phase;
      cancelled = a.cancelled;
      busy = a.busy;
      text = a.text;
    } };
}

impl BriefJob {
    /// A job that memory has.
    pub fn of(job: &Job) -> BriefJob
        ensures { result ≡ job.now }
    {
        BriefJob {
            number: job.number,
            fields: job.fields,
            phase: job.phase,
            cancelled: job.cancelled,
            busy: job.busy,
            text: BriefText::of(&job.text),
        }
    }

    /// Its number.
    pub fn number(&self) -> JobNo
        ensures { result ≡ self.now.number }
    {
        self.number
    }

    /// Its deck.
    pub fn text(&self) -> &BriefText
        ensures { result.now ≡ self.now.text }
    {
        &self.text
    }
}

/// An output of which memory has no lines. A contract sees the output.
#[derive(Drop)]
pub struct BriefOutput {
    /// Its job.
    pub job: JobNo,
    /// Its index among the outputs of its job.
    pub index: OutNo,
    /// The class that a printer takes it by.
    pub class: Class,
    /// Its destination.
    pub dest: Name8,
    /// The forms that have to be in the printer.
    pub forms: Name8,
    /// How often its lines are printed, from 1 on.
    pub copies: u8,
    /// A held output is not printed.
    pub held: bool,
    /// The member whose printer has it, 0 for nobody.
    pub busy: MemberId,
    /// How many lines of all its copies are noted as printed.
    pub mark: u32,
    /// Its lines.
    pub text: BriefText,
}

impl Model for BriefOutput {
    ghost use Rattle.mas_types.specs.declared.jobs.Output.{Output};

    ghost Value = { Output };

    ghost view = { λ a. record {
      job = a.job;
      index = a.index;
      class = a.class;
      dest = a.dest;
      forms = a.forms;
      copies = a.copies;
      held = a.held;
      busy = a.busy;
      mark = a.mark;
      text = a.text;
    } };
}

impl BriefOutput {
    /// An output that memory has.
    pub fn of(output: &Output) -> BriefOutput
        ensures { result ≡ output.now }
    {
        BriefOutput {
            job: output.job,
            index: output.index,
            class: output.class,
            dest: output.dest,
            forms: output.forms,
            copies: output.copies,
            held: output.held,
            busy: output.busy,
            mark: output.mark,
            text: BriefText::of(&output.text),
        }
    }

    /// Its job.
    pub fn job(&self) -> JobNo
        ensures { result ≡ self.now.job }
    {
        self.job
    }

    /// Its index among the outputs of its job.
    pub fn index(&self) -> OutNo
        ensures { result ≡ self.now.index }
    {
        self.index
    }

    /// Its lines.
    pub fn text(&self) -> &BriefText
        ensures { result.now ≡ self.now.text }
    {
        &self.text
    }
}
