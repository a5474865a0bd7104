// The records of one check sum, scale and name in a table, and the search for a code among them. A page that finds them once a font compares a byte a character.
ghost use Rattle.std.specs.Prelude.{◌≡◌, ◌<◌, ◌^◌, ltb};
ghost use Rattle.widths.specs.Table.{record_of};
ghost use Rattle.names.specs.Names.{name_number};
ghost use Rattle.widths.specs.Steps.{Among, BlockIs, Within, has_code, FirstCode, CodeFound, FoundIn};

use crate::table::{Key, Widths};
use crate::{halving, table};
use names::Name;

// The records of one check sum, scale and name: the index of the first, and that behind the last. A page keeps two of them a font, so none has the `Widths` in
// which it lies, and `Within` is no ghost field.
#[derive(Clone, Copy, PartialEq, Eq)]
pub struct Block {
    pub start: usize,
    pub end: usize,
}

// Where the records of a check sum, a scale and a name stand.
pub fn block_of(widths: Widths, checksum: u64, scale: u64, name: Name) -> Block
    requires checksum_bound { (checksum < 2 ^ 32) × (scale < 2 ^ 32) }
    ensures { BlockIs widths.entry.bytes.now widths.entry.records checksum scale (name_number name) result × Within widths.entry.records result }
{
    let first = table::key_of(checksum, scale, name, 0);
    let behind = Key { code: 256, ..first };
    Block {
        start: widths.first_not_below(first),
        end: widths.first_not_below(behind),
    }
}

// Whether an index is that of a record in a block with a code.
fn has_code(widths: Widths, block: Block, byte: u64, index: usize) -> bool
    requires { Within widths.records block }
    ensures { result ≡ has_code widths.entry.bytes.now block byte index }
{
    block.start <= index && index < block.end && widths.code_of(index) == byte
}

// The first record of a block whose code is not below a code, by halves.
fn first_code(widths: Widths, block: Block, byte: u64) -> usize
    requires { Within widths.records block × (byte < 256) }
    ensures { FirstCode widths.entry.bytes.now widths.entry.records block byte result }
{
    halving::first_past(
        block.start,
        block.end,
        |index: usize| -> bool
            requires { index < widths.records }
            ensures { result ≡ ltb (record_of widths.entry.bytes.now index).code byte }
        { widths.code_of(index) < byte },
    )
}

// The record of a block with a code. One index is tried before the search: any hint gives the same answer.
fn find_code(widths: Widths, block: Block, byte: u64, hint: usize) -> Option<usize>
    requires { Within widths.records block × (byte < 256) }
    ensures { CodeFound widths.entry.bytes.now widths.entry.records block byte result × Among widths.entry.records result }
{
    if has_code(widths, block, byte, hint) {
        return Some(hint);
    }
    let index = first_code(widths, block, byte);
    if has_code(widths, block, byte, index) {
        return Some(index);
    }
    None
}

// A character's record, by the records of its font's own name and those for any name: an own one, or else one for any name. A font that the table does not name
// has none of its own, and one without a name that records can have has the same for both: then one search is enough.
pub fn find(widths: Widths, own: Block, any: Block, byte: u64, hint: usize) -> Option<usize>
    requires { Within widths.records own × Within widths.records any × (byte < 256) }
    ensures { FoundIn widths.entry.bytes.now widths.entry.records own any byte result × Among widths.entry.records result }
{
    if own.start == own.end {
        return find_code(widths, any, byte, hint);
    }
    let found = find_code(widths, own, byte, hint);
    if found.is_some() || own == any {
        return found;
    }
    find_code(widths, any, byte, hint)
}
