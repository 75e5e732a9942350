//! What a slot holds.
use mas_types::{Class, JobFields, JobNo, MemberId, Name8, OutNo, Phase};

/// A job as its slot has it: with the number of its cards and its order in place of its text.
#[derive(Clone, Copy)]
pub struct JobRec {
    /// Its number, 1 to 99,999.
    pub number: JobNo,
    /// What its deck says of it.
    pub fields: JobFields,
    /// How far it has come.
    pub phase: Phase,
    /// It was cancelled while a member was at it.
    pub cancelled: bool,
    /// The member that works on it, 0 for nobody.
    pub busy: MemberId,
    /// The cards of its deck, 0 to 9,999; 0 as long as the deck isn't entered.
    pub cards: u16,
    /// Jobs are listed by ascending order.
    pub order: u64,
}

/// An output as its slot has it: with the number of its lines and its order in place of its text.
#[derive(Clone, Copy)]
pub struct OutRec {
    /// The job that made it.
    pub job: JobNo,
    /// Its place among the outputs of that job, from 1.
    pub index: OutNo,
    /// Its class.
    pub class: Class,
    /// The printer for which it is, or LOCAL.
    pub dest: Name8,
    /// The forms on which it is printed.
    pub forms: Name8,
    /// 1 to 255.
    pub copies: u8,
    /// It isn't printed until it is released.
    pub held: bool,
    /// The member that prints it, 0 for nobody.
    pub busy: MemberId,
    /// The lines of all copies that are printed.
    pub mark: u32,
    /// The lines of one copy, 1 to 9,999.
    pub lines: u16,
    /// Outputs are listed by ascending order.
    pub order: u64,
}
