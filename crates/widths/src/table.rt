// The width table: its check, and the search for a character's record.
ghost use Rattle.std.specs.Prelude.{ℕ, ◌≡◌, ◌&&◌, ◌+◌, ◌*◌, ◌%◌, ◌≤◌, ◌<◌, ◌^◌, nat_abs, ltb, eqb, length, get_or, IfOk, IfErr};
ghost use Rattle.refusals.specs.Answer.{refusal, answered, given};
ghost use Rattle.names.specs.Names.{name_number};
ghost use Rattle.widths.specs.Table.{size_with, width_record_size, record_with, record_at, record_of, checked_table};
ghost use Rattle.widths.specs.LookUp.{metric_of, looked_for};
ghost use Rattle.widths.specs.Steps.{block_number, key_number, InKey, KeyIs, KeyAt, reaches, LeastKey, Judging, with_code, lawful_block, lawful_rest, found_at, KeyFound, Among, FirstNotBelow};

use crate::{Metric, halving};
use names::{NAME_SIZE, Name};
use refusals::{Reason, Refusal};
use scaling::FixWord;

// The layout of a width record: where the scale, the name and the fields after it start, and the size.
pub const SCALE_AT: usize = 4;

const NAME_AT: usize = 8;

pub const CODE_AT: usize = NAME_AT + NAME_SIZE;

// How far behind the code, in a record of either form, the zero byte and the width stand.
const ZERO_BEHIND: usize = 1;

const WIDTH_BEHIND: usize = 4;

pub const ESCAPEMENT_AT: usize = CODE_AT + 2;

pub const WIDTH_AT: usize = CODE_AT + WIDTH_BEHIND;

pub const RECORD_SIZE: usize = CODE_AT + 8;

// How many values the four bytes of a scale have. In a key's head the check sum counts so many.
pub const SCALE_SPAN: u64 = 4294967296;

// A record's key: check sum and scale as one number, the two numbers of the name, and the code
#[derive(Clone, Copy, PartialEq, Eq, PartialOrd, Ord)]
pub struct Key {
    pub head: u64,
    pub high: u64,
    pub low: u64,
    pub code: u64,
}

// What a run over records of one check sum, scale and name comes to: the place behind it, and the least code there
#[derive(Clone, Copy)]
pub struct Run {
    pub at: usize,
    pub code: u64,
}

// A table that was judged right, and how many records it has. `below` stands because a slice inside a struct gives its user no bounds of its bytes, as a slice that
// is a parameter does.
#[derive(Clone, Copy)]
pub struct Widths<'a> {
    pub bytes: &'a [u8],
    pub records: usize,
    pub ghost below: { (i : ℕ) → get_or bytes.now i 0 < 256 },
    pub ghost right: { checked_table bytes.now ≡ given records },
}

// The key of a check sum, a scale, a name and a code.
pub fn key_of(checksum: u64, scale: u64, name: Name, code: u64) -> Key
    requires { (checksum < 2 ^ 32) × (scale < 2 ^ 32) × (code < 256) }
    ensures { KeyIs checksum scale (name_number name) code result }
{
    Key {
        head: checksum * SCALE_SPAN + scale,
        high: name.high,
        low: name.low,
        code,
    }
}

// The key of the record at a place. Check sum and scale are joined from two numbers of four bytes: the compiler makes that one load of eight, where a number
// of eight bytes read at once is too deep for it in the check's loop.
fn key_at(table: &[u8], at: usize) -> Key
    requires { at + 32 ≤ length table.now }
    ensures { KeyAt table.now at result }
{
    let checksum = numbers::unsigned_at(table, at, 4);
    let scale = numbers::unsigned_at(table, at + SCALE_AT, 4);
    let name = names::name_at(table, at + NAME_AT);
    key_of(checksum, scale, name, u64::from(table[at + CODE_AT]))
}

// Whether two keys have the same check sum, scale and name: all but the code, so no derived `==`.
fn same_block(a: Key, b: Key) -> bool
    requires { InKey a × InKey b }
    ensures { result ≡ eqb (block_number a) (block_number b) }
{
    a.low == b.low && a.high == b.high && a.head == b.head
}

// Whether a record's key reaches the least that it must, with a scale and a name that are lawful. The scale is taken from the key: reading its
// bytes again would keep the key from being one load. Where check sum, scale and name are those of the key before it, they were judged there.
fn lawful_key(table: &[u8], at: usize, key: Key, least: Key) -> bool
    requires { (at + 32 ≤ length table.now) × KeyAt table.now at key × LeastKey table.now least }
    ensures { result ≡ reaches key least && lawful_block (record_at table.now at) }
{
    if same_block(key, least) {
        return least.code <= key.code;
    }
    if key < least {
        return false;
    }
    numbers::lawful_size(key.head % SCALE_SPAN)
        && names::lawful_name(&table[at + NAME_AT..at + CODE_AT])
}

// Whether the zero byte and the width's first byte of the record at a place are right. The name has so many bytes: none in the old form.
pub fn lawful_rest<const NAMED: usize>(table: &[u8], at: usize) -> bool
    requires { at + size_with NAMED ≤ length table.now }
    ensures { result ≡ lawful_rest (record_with NAMED table.now at) }
{
    let code_at = at + NAME_AT + NAMED;
    table[code_at + ZERO_BEHIND] == 0 && scaling::lawful_first(table[code_at + WIDTH_BEHIND])
}

// The records that follow with the check sum, scale and name of the key before, as far as they are right: the place behind them, and the least code there. In this
// loop no byte of a name is read by itself, so that each half of a name is one load; a `for` over chunks would be another loop than the measured one.
fn pass_block(table: &[u8], from: usize, whole: usize, least: Key) -> Run
    requires { (whole ≤ length table.now) × (whole % 32 ≡ 0) × Judging table.now whole from least }
    ensures { (from ≤ result.at) × Judging table.now whole result.at (with_code least result.code) }
{
    let mut at = from;
    let mut code = least.code;
    while at < whole {
        let key = key_at(table, at);
        if !same_block(key, least) || key.code < code || !lawful_rest::<NAME_SIZE>(table, at) {
            return Run { at, code };
        }
        code = key.code + 1;
        at += RECORD_SIZE;
    }
    Run { at, code }
}

// The check of a whole table. A next record must reach `least`: one past the key before it. At first it is the least with a head above 0 or a name: scale 0 is
// not lawful. Bytes after the whole records are judged once, after the loop. The place goes on by whole runs, so that no `for` has it.
pub fn check_table(table: &[u8]) -> Result<usize, Refusal>
    ensures { answered result ≡ checked_table table.now }
{
    let mut at: usize = 0;
    let mut least = Key {
        head: 0,
        high: 0,
        low: 0,
        code: 256,
    };
    let whole = table.len() - table.len() % RECORD_SIZE;
    while at < whole {
        let key = key_at(table, at);
        if !lawful_key(table, at, key, least) || !lawful_rest::<NAME_SIZE>(table, at) {
            return Err(Refusal {
                reason: Reason::WrongWidthTable,
                place: at,
            });
        }
        let next = Key {
            code: key.code + 1,
            ..key
        };
        let run = pass_block(table, at + RECORD_SIZE, whole, next);
        least = Key {
            code: run.code,
            ..key
        };
        at = run.at;
    }
    if at < table.len() {
        return Err(Refusal {
            reason: Reason::WrongWidthTable,
            place: at,
        });
    }
    Ok(at / RECORD_SIZE)
}

impl<'a> Widths<'a> {
    // A table as one that is right, or 14 at its first wrong record.
    pub fn judged(table: &'a [u8]) -> Result<Widths<'a>, Refusal>
        ensures ok { IfOk result (λ widths. widths.bytes.now ≡ table.now) }
        ensures err { IfErr result (λ r. checked_table table.now ≡ refusal r) }
    {
        let records = check_table(table)?;
        Ok(Widths {
            bytes: table,
            records,
        })
    }

    // Where the record of an index starts.
    pub fn place_of(self, index: usize) -> usize
        requires { index < self.records }
        ensures place { result ≡ index * width_record_size }
        ensures inside { result + 32 ≤ length self.entry.bytes.now }
    {
        index * RECORD_SIZE
    }

    // The first of the records whose key is not below a key, by halves.
    pub fn first_not_below(self, key: Key) -> usize
        requires in_key { InKey key }
        ensures { FirstNotBelow self.entry.bytes.now self.entry.records (key_number key) result }
    {
        halving::first_past(
            0,
            self.records,
            |index: usize| -> bool
                requires { (index < self.records) × InKey key }
                ensures { result ≡ ltb (record_of self.entry.bytes.now index).key (key_number key) }
            { key_at(self.bytes, self.place_of(index)) < key },
        )
    }

    // The record with a key, by search.
    fn find_key(self, key: Key) -> Option<usize>
        requires in_key { InKey key × (key.code < 256) }
        ensures { KeyFound self.entry.bytes.now self.entry.records key result × Among self.entry.records result }
    {
        let index = self.first_not_below(key);
        if index < self.records && key_at(self.bytes, self.place_of(index)) == key {
            return Some(index);
        }
        None
    }

    // A character's record, by search: that of the name that is sought, or else that of any name.
    pub fn seek(self, checksum: u64, scale: u64, name: Name, byte: u64) -> Option<usize>
        requires checksum_bound { (checksum < 2 ^ 32) × (scale < 2 ^ 32) × (byte < 256) }
        ensures { (found_at self.entry.bytes.now result ≡ looked_for self.entry.records self.entry.bytes.now checksum scale (name_number name) byte) × Among self.entry.records result }
    {
        let own = self.find_key(key_of(checksum, scale, name, byte));
        if own.is_some() || name == Name::ANY {
            return own;
        }
        self.find_key(key_of(checksum, scale, Name::ANY, byte))
    }

    // The code of a record.
    #[tactic(auto, unfolding(crate::specs::Table::record_in))]
    pub fn code_of(self, index: usize) -> u64
        requires { index < self.records }
        ensures { result ≡ (record_of self.entry.bytes.now index).code }
    {
        u64::from(self.bytes[self.place_of(index) + CODE_AT])
    }

    // Escapement and fix word of a record.
    #[tactic(auto, unfolding(crate::specs::Table::record_in))]
    pub fn metric_of(self, index: usize) -> Metric
        requires { index < self.records }
        ensures value { result ≡ metric_of (record_of self.entry.bytes.now index) }
        ensures escapement_bound { nat_abs result.escapement ≤ 2 ^ 31 }
    {
        let at = self.place_of(index);
        let width = at + WIDTH_AT;
        Metric {
            escapement: numbers::signed_at(self.bytes, at + ESCAPEMENT_AT, 2),
            width: FixWord {
                b0: self.bytes[width],
                b1: self.bytes[width + 1],
                b2: self.bytes[width + 2],
                b3: self.bytes[width + 3],
            },
        }
    }
}
