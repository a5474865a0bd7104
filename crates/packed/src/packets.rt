// What a packet says of its character.
ghost use Rattle.std.specs.Prelude.{◌≡◌, ◌+◌, ◌≤◌, ◌<◌, ◌^◌, length, drop, nat_abs};
ghost use Rattle.packed.specs.Commands.{form_of};
ghost use Rattle.packed.specs.Packets.{nearest};
ghost use Rattle.packed.specs.Steps.{packet_of};

use crate::{Packet, commands_in_font};

// 65,536ths of a pixel in whole pixels: the nearest, of two the upper one.
fn nearest_pixel(dx: i64) -> i32
    requires { nat_abs dx ≤ 2 ^ 31 }
    ensures { (result ≡ nearest dx) × (nat_abs result ≤ 32768) }
{
    (dx + 32768).div_euclid(65536) as i32
}

// The packet of a flag, whose parameters start at a place.
#[tactic(auto, unfolding(crate::specs::Commands::form_of))]
pub fn packet_at(pk: &[u8], from: usize, flag: u64) -> Packet
    requires { from + ((form_of flag).length + (form_of flag).code) + (form_of flag).fields ≤ length pk.now }
    ensures { result ≡ packet_of flag (drop from pk.now) }
{
    let form = commands_in_font::form_of(flag);
    let code_from = from + form.length;
    let width_from = code_from + form.code;
    let escapement_from = width_from + form.width;
    let code = numbers::unsigned_at(pk, code_from, form.code) as u32;
    let width = numbers::unsigned_at(pk, width_from, form.width) as u32;
    if flag % 8 == 7 {
        let dx = numbers::signed_at(pk, escapement_from, 4);
        return Packet {
            code,
            width,
            escapement: nearest_pixel(dx),
        };
    }
    let dm = numbers::unsigned_at(pk, escapement_from, form.escapement);
    Packet {
        code,
        width,
        escapement: dm as i32,
    }
}
