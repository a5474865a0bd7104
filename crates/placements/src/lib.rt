// The records of a page in the output area, and their counts.
#![tactic(auto)]

ghost use Rattle.std.specs.Prelude.{◌≡◌, ◌≤◌, ◌^◌, nat_abs};
ghost use Rattle.numbers.specs.Bytes.{signed_bytes_of};
ghost use Rattle.placements.specs.Records.{record_bytes};
ghost use Rattle.placements.specs.Steps.{InWords, added_of, put_record, area_noted, count_noted, AddsInWords};

// One placed character or rule
#[derive(Clone, Copy)]
pub struct Record {
    // 1 character, 2 rule: the number that is written, which definitions of specs/Records give (`character_record`, `rule_record`)
    pub kind: u64,
    pub font: u64,
    pub page: u64,
    pub hh: i64,
    pub vv: i64,
    // a character's full code, or a rule's height in pixels
    pub content: i64,
    // a character's escapement, or a rule's width, in pixels
    pub extent: i64,
}

// How many records, missing characters and specials a page has. Definitions of specs/ build it (`count_noted`), so its bounds are asked where it is counted on.
#[derive(Clone, Copy)]
pub struct Counts {
    pub records: usize,
    pub missing: usize,
    pub specials: usize,
}

// What a command adds to the page. No closure in its place: the definition `added_of` says what each means.
#[derive(Clone, Copy)]
pub enum Adds {
    Nothing,
    Placed(Record),
    Missing,
    Special,
}

// How many bytes a record has.
pub const RECORD_SIZE: usize = 20;

// A signed number in four bytes, the highest first, in two's complement
fn word_of(n: i64) -> [u8; 4]
    requires { nat_abs n ≤ 2 ^ 31 }
    ensures { result ≡ signed_bytes_of 4 n }
{
    (numbers::to_twos(4294967296, n) as u32).to_be_bytes()
}

// The bytes of a record.
fn bytes_of(placed: Record) -> [u8; 20]
    requires { InWords placed }
    ensures { result ≡ record_bytes placed }
{
    let kind = (placed.kind % 256) as u8;
    let font = (placed.font % 256) as u8;
    let [p1, p0] = ((placed.page % 65536) as u16).to_be_bytes();
    let [h3, h2, h1, h0] = word_of(placed.hh);
    let [v3, v2, v1, v0] = word_of(placed.vv);
    let [c3, c2, c1, c0] = word_of(placed.content);
    let [e3, e2, e1, e0] = word_of(placed.extent);
    [
        kind, font, p1, p0, h3, h2, h1, h0, v3, v2, v1, v0, c3, c2, c1, c0, e3, e2, e1, e0,
    ]
}

// A record of an index, where the area has room for it.
fn put_record(out: &mut [u8], index: usize, placed: Record)
    requires { (index ≤ 16777216) × InWords placed }
    ensures { out.new ≡ put_record out.old index placed }
{
    let from = RECORD_SIZE * index;
    if from + RECORD_SIZE <= out.len() {
        areas::paste(out, from, &bytes_of(placed));
    }
}

// The counts with what a command adds; a record is written where the area has room for it.
pub fn note(out: &mut [u8], counts: Counts, adds: Adds) -> Counts
    requires { (counts.records ≤ 16777216) × (counts.missing ≤ 16777216) × (counts.specials ≤ 16777216) × AddsInWords adds }
    ensures value { result ≡ count_noted counts (added_of adds) }
    ensures out_after { out.new ≡ area_noted out.old counts.records (added_of adds) }
{
    match adds {
        Adds::Nothing => counts,
        Adds::Placed(placed) => {
            put_record(out, counts.records, placed);
            Counts {
                records: counts.records + 1,
                ..counts
            }
        }
        Adds::Missing => Counts {
            missing: counts.missing + 1,
            ..counts
        },
        Adds::Special => Counts {
            specials: counts.specials + 1,
            ..counts
        },
    }
}
