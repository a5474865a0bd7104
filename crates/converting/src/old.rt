// The check of a table of the old form: sixteen bytes a record, of which nine are the key.
ghost use Rattle.std.specs.Prelude.{◌≡◌, ◌&&◌, ◌+◌, ◌%◌, ◌≤◌, ◌<◌, ◌^◌, length};
ghost use Rattle.numbers.specs.Sizes.{lawful_size};
ghost use Rattle.refusals.specs.Answer.{answered};
ghost use Rattle.widths.specs.Table.{old_table};
ghost use Rattle.converting.specs.Steps.{OldKeyAt, old_reaches, OldLeastKey};

use refusals::{Reason, Refusal};
use widths::table;

// The layout of an old record: where the code starts, and the size.
const CODE_AT: usize = 8;

pub const RECORD_SIZE: usize = CODE_AT + 8;

// An old record's key: check sum and scale as one number, and the code. No `Key`: nine bytes, and no name
#[derive(Clone, Copy)]
pub struct OldKey {
    pub head: u64,
    pub code: u64,
}

// The key of the record at a place. Check sum and scale, the bytes before the code, are read as one number because that is one load.
fn key_at(table: &[u8], at: usize) -> OldKey
    requires { at + 16 ≤ length table.now }
    ensures { OldKeyAt table.now at result }
{
    OldKey {
        head: numbers::unsigned_at(table, at, CODE_AT),
        code: u64::from(table[at + CODE_AT]),
    }
}

// Whether a record's key reaches the least that it must, with a scale that is lawful. The scale is taken from the key: reading its
// bytes again would keep the key from being one load. Where the head is that of the key before it, the scale was judged there: so the
// parts are compared one by one, and not whole keys by a derived order.
fn lawful_key(key: OldKey, least: OldKey) -> bool
    requires { (key.code < 256) × OldLeastKey least }
    ensures { result ≡ old_reaches key least && lawful_size (key.head % 2 ^ 32) }
{
    if key.head == least.head {
        return least.code <= key.code;
    }
    least.head < key.head && numbers::lawful_size(key.head % table::SCALE_SPAN)
}

// The check of a whole table of the old form. A next record must reach `least`: one past the key before it. At first it is the least with a head above 0: scale 0
// is not lawful. Bytes after the whole records are judged once, after the loop. The place is what both refusals have: a `for` over chunks would count it beside.
// No twin of `check_table`: the key has no name, and the loop no runs of one name.
pub fn check_old(table: &[u8]) -> Result<usize, Refusal>
    ensures { answered result ≡ old_table table.now }
{
    let mut at: usize = 0;
    let mut least = OldKey { head: 0, code: 256 };
    let whole = table.len() - table.len() % RECORD_SIZE;
    while at < whole {
        let key = key_at(table, at);
        if !lawful_key(key, least) || !table::lawful_rest::<0>(table, at) {
            return Err(Refusal {
                reason: Reason::WrongWidthTable,
                place: at,
            });
        }
        least = OldKey {
            code: key.code + 1,
            ..key
        };
        at += RECORD_SIZE;
    }
    if at < table.len() {
        return Err(Refusal {
            reason: Reason::WrongWidthTable,
            place: at,
        });
    }
    Ok(at / RECORD_SIZE)
}
