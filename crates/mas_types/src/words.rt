//! Words and numbers at the end of a line: the pieces of which console lines and lines on paper are made. Each call
//! adds its text at the end of the line. After want of memory a front of the text may stand there.
ghost use Rattle.std.specs.Prelude.{◌≡◌, ◌≤◌, ◌++◌, ◌%◌, ◌+◌, decimal, OnOk};
ghost use Rattle.std.specs.List.{list_all};
ghost use Rattle.mas_types.specs.Closings.{device_word};
ghost use Rattle.mas_types.specs.Limits.{members_most};
ghost use Rattle.mas_types.specs.Names.{is_blank, name_text, unpadded};
ghost use Rattle.mas_types.specs.Numerals.{in_digits, key_of};
ghost use Rattle.mas_types.specs.Shown.{classes_text, member_word, output_key, phase_text};

use crate::ids::{Class, Dev, JobNo, MemberId, Name8, NoMemory, OutNo};
use crate::jobs::Phase;
use crate::limits::NUMBER_MOST;
use crate::lists::List;

/// Adds a text.
pub fn push_text(line: &mut List<u8>, text: &[u8]) -> Result<(), NoMemory>
    ensures { OnOk result (line.new ≡ line.old ++ text.now) }
{
    line.push_all(text)
}

fn last_digit(n: u64) -> u8
    ensures { result ≡ 48 + n % 10 }
{
    b'0' + (n % 10) as u8
}

/// Adds a number, without leading zeros.
pub fn push_decimal(line: &mut List<u8>, n: u64) -> Result<(), NoMemory>
    ensures { OnOk result (line.new ≡ line.old ++ decimal n) }
{
    if n < 10 {
        return line.push(last_digit(n));
    }
    push_decimal(line, n / 10)?;
    line.push(last_digit(n))
}

/// Adds a number in at least `width` digits, with zeros before it.
pub fn push_digits(line: &mut List<u8>, width: u8, n: u64) -> Result<(), NoMemory>
    ensures { OnOk result (line.new ≡ line.old ++ in_digits width n) }
{
    if width < 2 {
        return push_decimal(line, n);
    }
    push_digits(line, width - 1, n / 10)?;
    line.push(last_digit(n))
}

/// Adds a job's identifier: `JOB` and five digits, for a number above 99,999 `J0` and at least six digits.
pub fn push_key(line: &mut List<u8>, job: JobNo) -> Result<(), NoMemory>
    ensures { OnOk result (line.new ≡ line.old ++ key_of job.0) }
{
    if job.0 <= NUMBER_MOST {
        push_text(line, b"JOB")?;
        push_digits(line, 5, job.0 as u64)
    } else {
        push_text(line, b"J0")?;
        push_digits(line, 6, job.0 as u64)
    }
}

/// Adds an output's identifier: the job's, a point, and the index in two digits.
pub fn push_output_key(line: &mut List<u8>, job: JobNo, index: OutNo) -> Result<(), NoMemory>
    ensures { OnOk result (line.new ≡ line.old ++ output_key job index) }
{
    push_key(line, job)?;
    line.push(b'.')?;
    push_digits(line, 2, index.0 as u64)
}

/// Adds a member's name, `SYSA` to `SYSH`, `OPER` for member 0.
pub fn push_member(line: &mut List<u8>, member: MemberId) -> Result<(), NoMemory>
    requires { member.0 ≤ members_most }
    ensures { OnOk result (line.new ≡ line.old ++ member_word member) }
{
    if member.0 == 0 {
        push_text(line, b"OPER")
    } else {
        push_text(line, &[b'S', b'Y', b'S', member.0 + 64])
    }
}

/// Adds a phase's word.
pub fn push_phase(line: &mut List<u8>, phase: Phase) -> Result<(), NoMemory>
    ensures { OnOk result (line.new ≡ line.old ++ phase_text phase) }
{
    push_text(line, phase_word(phase))
}

fn phase_word(phase: Phase) -> &'static [u8]
    ensures { result.now ≡ phase_text phase }
{
    match phase {
        Phase::Input => b"INPUT",
        Phase::Convert => b"CONVERT",
        Phase::Execute => b"EXECUTE",
        Phase::Output => b"OUTPUT",
        Phase::Hardcopy => b"HARDCOPY",
        Phase::Purge => b"PURGE",
        Phase::Xmit => b"XMIT",
    }
}

/// Adds classes without separators.
pub fn push_classes(line: &mut List<u8>, classes: &[Class]) -> Result<(), NoMemory>
    ensures { OnOk result (line.new ≡ line.old ++ classes_text classes.now) }
{
    for class in classes {
        line.push(class.0)?;
    }
    Ok(())
}

/// Adds a name without its padding.
pub fn push_name(line: &mut List<u8>, name: &Name8) -> Result<(), NoMemory>
    ensures { OnOk result (line.new ≡ line.old ++ name_text name.now) }
{
    push_unpadded(line, &name.0)
}

fn push_unpadded(line: &mut List<u8>, text: &[u8]) -> Result<(), NoMemory>
    ensures { OnOk result (line.new ≡ line.old ++ unpadded text.now) }
{
    for (i, byte) in text.iter().enumerate() {
        if are_blanks(&text[i..]) {
            return Ok(());
        }
        line.push(*byte)?;
    }
    Ok(())
}

fn are_blanks(text: &[u8]) -> bool
    ensures { result ≡ list_all is_blank text.now }
{
    text.iter().all(|b| *b == b' ')
}

pub(crate) fn push_device(line: &mut List<u8>, dev: Dev) -> Result<(), NoMemory>
    ensures { OnOk result (line.new ≡ line.old ++ device_word dev) }
{
    match dev {
        Dev::Ckpt1 => push_text(line, b"CKPT1"),
        Dev::Ckpt2 => push_text(line, b"CKPT2"),
        Dev::Spool(volume) => push_with_number(line, b"SPOOL", volume as u64),
    }
}

pub(crate) fn push_with_member(
    line: &mut List<u8>,
    text: &[u8],
    member: MemberId,
) -> Result<(), NoMemory>
    requires { member.0 ≤ members_most }
    ensures { OnOk result (line.new ≡ line.old ++ (text.now ++ member_word member)) }
{
    push_text(line, text)?;
    push_member(line, member)
}

pub(crate) fn push_with_number(line: &mut List<u8>, text: &[u8], n: u64) -> Result<(), NoMemory>
    ensures { OnOk result (line.new ≡ line.old ++ (text.now ++ decimal n)) }
{
    push_text(line, text)?;
    push_decimal(line, n)
}
