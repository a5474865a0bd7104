// The answer of a page that was placed: a line a record, then the counts.
ghost use Rattle.std.specs.Prelude.{◌≡◌, ◌*◌, ◌≤◌, length};

use printing::block::Block;
use printing::line::Line;
use reader::Counts;
use std::io::{Result, Write};

pub fn place<W: Write>(
    out: &mut W,
    file: &[u8],
    widths: &[u8],
    resolution: u32,
    page: u32,
    area: &mut [u8],
) -> Result<()> {
    match reader::place_page(file, widths, resolution, page, area) {
        Ok(
            Counts {
                records,
                missing,
                specials,
            },
        ) => {
            print_records(out, area, records)?;
            Line::of(b"end")
                .number(records)
                .number(missing)
                .number(specials)
                .text(b"\n")
                .print(out)
        }
        Err(refusal) => crate::refused(refusal).print(out),
    }
}

// The lines are gathered in a block, so that a page of thousands of records is few writes. No heap: fixed memory, the area is lent and may be longer than its records.
fn print_records<W: Write>(out: &mut W, area: &[u8], records: usize) -> Result<()>
    requires { 20 * records ≤ length area.now }
{
    let mut block = Block::<4096>::empty();
    for record in area[..20 * records].chunks_exact(20) {
        let line = record_line(record);
        block.make_room(out, 160)?;
        block.push(line.held());
    }
    block.print(out)
}

// One record as the program prints it: c or r, then its numbers, the page before the font
fn record_line(placed: &[u8]) -> Line
    requires { length placed.now ≡ 20 }
{
    // 1 is a character, 2 a rule
    let kind = if placed[0] == 1 { b"c" } else { b"r" };
    let font = placed[1];
    let page = numbers::unsigned_at(placed, 2, 2);
    let hh = numbers::signed_at(placed, 4, 4);
    let vv = numbers::signed_at(placed, 8, 4);
    let content = numbers::signed_at(placed, 12, 4);
    let extent = numbers::signed_at(placed, 16, 4);
    Line::of(kind)
        .number(page)
        .number(font)
        .number(hh)
        .number(vv)
        .number(content)
        .number(extent)
        .text(b"\n")
}
