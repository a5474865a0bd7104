// The font that a selection names, from its definition before post.
ghost use Rattle.std.specs.Prelude.{◌≡◌, ◌≤◌, length};
ghost use Rattle.names.specs.Names.{sought_name};
ghost use Rattle.names.specs.Steps.{InEights};
ghost use Rattle.commands.specs.Parameters.{font_name};
ghost use Rattle.page.specs.Steps.{FontIs};

use commands::fields;
use list::fonts;
use names::Name;
use state::Font;

// No font: what is current while none is selected
pub const UNSELECTED: Font = Font {
    number: 0,
    checksum: 0,
    scale: 0,
    name: Name::ANY,
};

// The name that a font seeks in a width table, by what its definition says: its own, without the area.
fn name_in(said: &[u8]) -> Name
    requires { 14 ≤ length said.now }
    ensures { (result ≡ sought_name (font_name said.now)) × InEights result }
{
    let area = fields::unsigned_in(fields::DEFINITION_AREA_LENGTH, said);
    let start = fields::DEFINITION_NAME + area as usize;
    let Some(name) = said.get(start..) else {
        return Name::ANY;
    };
    names::sought_name(name)
}

// The font of a number, by the table of the definitions before post; one that is not defined has scale 0.
pub fn font_of(file: &[u8], fonts: &[u32; 256], number: i64) -> Font
    ensures { FontIs file.now fonts.now number result }
{
    let Some(place) = fonts::place_of(fonts, number) else {
        return UNSELECTED;
    };
    let Some(part) = fonts::saying_at(file, place) else {
        return UNSELECTED;
    };
    let said = &file[part.start..part.end];
    Font {
        number: number.unsigned_abs(),
        checksum: fields::unsigned_in(fields::DEFINITION_CHECKSUM, said),
        scale: fields::unsigned_in(fields::DEFINITION_SCALE, said),
        name: name_in(said),
    }
}
