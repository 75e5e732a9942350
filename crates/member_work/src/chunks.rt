//! How many lines of an output are printed next.
ghost use Rattle.std.specs.Prelude.{◌≡◌, ◌*◌, ◌+◌, ◌≤◌, min, None, Some};
ghost use Rattle.member_work.specs.Names.{Queue, printer_lines_most, HasSpelling, Tell, limit_of};

use ckpt_tables::Tables;
use lay_bytes::OutRec;
use mas_types::MemberId;
use printer_proc::forward;
use queue_effect::setting;

// The lines that a member's printer prints at a time.
fn limit_at(tables: &Tables, by: MemberId) -> u16
    requires spelled { HasSpelling tables.now }
    ensures most { result ≤ printer_lines_most }
    ensures is { (Q : Queue) → Tell tables.now Q → result ≡ limit_of Q by }
{
    match setting(tables, by) {
        Some(setting) => setting.lines,
        None => 0,
    }
}

/// The last line of an output that is printed next: as many after its mark as the member's printer prints at a time,
/// but none above its total.
pub fn chunk_end(tables: &Tables, by: MemberId, output: &OutRec) -> u32
    requires spelled { HasSpelling tables.now }
    ensures limit { result ≤ output.now.mark + printer_lines_most }
    ensures total { result ≤ output.now.lines * output.now.copies }
    ensures is { (Q : Queue) → Tell tables.now Q
        → result ≡ min (output.now.mark + limit_of Q by) (output.now.lines * output.now.copies) }
{
    let limit = limit_at(tables, by);
    let total = output.lines as u32 * output.copies as u32;
    forward(output.mark, limit as u32, total)
}
