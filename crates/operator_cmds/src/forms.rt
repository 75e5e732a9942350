//! The forms in which commands are typed.
ghost use Rattle.std.specs.Prelude.{◌≡◌};

/// What a command that is typed does.
#[derive(Clone, Copy)]
pub enum Form {
    /// `$HJn` holds a job.
    Hold,
    /// `$AJn` releases a job.
    Release,
    /// `$CJn` cancels a job.
    Cancel,
    /// `$TJn,P=p` sets a job's priority.
    SetPrio,
    /// `$TJn,C=c` sets a job's class.
    SetClass,
    /// `$OJn` releases a job's held outputs.
    Out,
    /// `$COJn.k` cancels an output.
    CancelOut,
    /// `$TOJn.k,Q=c` sets an output's class.
    SetOut,
    /// `$DJn` displays a job.
    ShowJob,
    /// `$DQ` displays the queue.
    ShowQueue,
    /// `$DO` displays the outputs.
    ShowOutputs,
    /// `$DSPL` displays the spool volumes.
    ShowSpool,
    /// `$DMEMBER` displays the members.
    ShowMembers,
    /// `$TINIT,C=list` sets the member's initiator classes.
    SetInit,
    /// `$TPRT,Q=list,F=forms,L=n` sets the member's printer.
    SetPrt,
    /// `$BPRT,b` sets the mark on the member's printer back.
    Back,
    /// `$FPRT,b` sets the mark on the member's printer forward.
    Forward,
    /// `$EMEMBER(SYSx)` resets a stopped member.
    Reset,
}

ghost use Rattle.operator_cmds.specs.Forms.{form_text as form_text_lem};

/// All forms.
pub const FORMS: [Form; 18] = [
    Form::Hold,
    Form::Release,
    Form::Cancel,
    Form::SetPrio,
    Form::SetClass,
    Form::Out,
    Form::CancelOut,
    Form::SetOut,
    Form::ShowJob,
    Form::ShowQueue,
    Form::ShowOutputs,
    Form::ShowSpool,
    Form::ShowMembers,
    Form::SetInit,
    Form::SetPrt,
    Form::Back,
    Form::Forward,
    Form::Reset,
];

/// How a command is typed. A small letter stands for a text: n for a job's number, k for the index of an output, p for
/// a priority, c for a class, s for classes, f for forms, l for lines of a printer, b for lines of a mark, m for the
/// last letter of a member's name. Any other byte stands for itself.
pub(crate) fn form_text(form: Form) -> &'static [u8]
    ensures { result.now ≡ form_text_lem form }
{
    match form {
        Form::Hold => b"$HJn",
        Form::Release => b"$AJn",
        Form::Cancel => b"$CJn",
        Form::SetPrio => b"$TJn,P=p",
        Form::SetClass => b"$TJn,C=c",
        Form::Out => b"$OJn",
        Form::CancelOut => b"$COJn.k",
        Form::SetOut => b"$TOJn.k,Q=c",
        Form::ShowJob => b"$DJn",
        Form::ShowQueue => b"$DQ",
        Form::ShowOutputs => b"$DO",
        Form::ShowSpool => b"$DSPL",
        Form::ShowMembers => b"$DMEMBER",
        Form::SetInit => b"$TINIT,C=s",
        Form::SetPrt => b"$TPRT,Q=s,F=f,L=l",
        Form::Back => b"$BPRT,b",
        Form::Forward => b"$FPRT,b",
        Form::Reset => b"$EMEMBER(SYSm)",
    }
}
