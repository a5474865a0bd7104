// A width table as an answer.
ghost use Rattle.std.specs.Prelude.{◌*◌, ◌≤◌, ◌<◌, length, IfOk};

use printing::line::Line;
use printing::rows;
use reader::Refusal;
use std::io;
use std::io::Write;

// No heap: fixed memory, the area is lent and may be longer than its records.
// What became of a table that was to be made at the area's start: its records, a line each, of so many bytes, then how many there are; or why there is none.
pub fn print<W: Write>(
    out: &mut W,
    area: &[u8],
    made: Result<usize, Refusal>,
    size: usize,
) -> io::Result<()>
    requires { (0 < size) × IfOk made (λ records. records * size ≤ length area.now) }
{
    match made {
        Ok(records) => {
            rows::print(out, &area[..records * size], size)?;
            Line::of(b"end").number(records).text(b"\n").print(out)
        }
        Err(refusal) => asking::refused(refusal).print(out),
    }
}
