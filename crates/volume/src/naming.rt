// A font's name: the part of the file that holds it, in the definition before post.
ghost use Rattle.std.specs.Prelude.{◌≡◌, length};
ghost use Rattle.refusals.specs.Answer.{answered};
ghost use Rattle.volume.specs.Names.{name_place};
ghost use Rattle.volume.specs.Steps.{Inside, NamedIs};

use crate::scanning;
use commands::fields;
use list::{Part, fonts};
use refusals::{Reason, Refusal};

// Where the name of a font stands, by the table of the definitions before post.
fn named_by(file: &[u8], fonts: &[u32; 256], number: i64) -> Result<Part, Refusal>
    ensures { NamedIs file.now fonts.now number result }
{
    let nowhere = Refusal {
        reason: Reason::NoFont,
        place: 0,
    };
    let at = fonts::place_of(fonts, number).ok_or(nowhere)?;
    let said = fonts::saying_at(file, at).ok_or(nowhere)?;
    Ok(Part {
        start: said.start + fields::DEFINITION_NAME,
        ..said
    })
}

// Where the name of a font stands.
pub fn name_place(file: &[u8], number: i64) -> Result<Part, Refusal>
    ensures { (answered result ≡ name_place file.now number) × Inside (length file.now) result }
{
    let mut fonts = [0u32; 256];
    scanning::scan(file, 0, &mut fonts)?;
    named_by(file, &fonts, number)
}
