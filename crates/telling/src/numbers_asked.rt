// Questions whose words are numbers alone.
use asking::lines::word;
use asking::words;
use printing::line;
use printing::line::Line;

// round NUM DEN MAG R N
pub fn round(line: &[u8]) -> Line {
    asking::or_no_input(try_round(line))
}

fn try_round(line: &[u8]) -> Option<Line> {
    let num = words::read_signed32(word(line, 1))?;
    let den = words::read_signed32(word(line, 2))?;
    let mag = words::read_signed32(word(line, 3))?;
    let resolution = words::read_unsigned32(word(line, 4))?;
    let n = words::read_signed32(word(line, 5))?;
    Some(match reader::round_distance(num, den, mag, resolution, n) {
        Ok(distance) => line::word_and_number("rounded", distance),
        Err(refusal) => asking::refused(refusal),
    })
}

// scale S B0 B1 B2 B3
pub fn scale(line: &[u8]) -> Line {
    asking::or_no_input(try_scale(line))
}

fn try_scale(line: &[u8]) -> Option<Line> {
    let scale = words::read_unsigned32(word(line, 1))?;
    let b0 = words::read_byte(word(line, 2))?;
    let b1 = words::read_byte(word(line, 3))?;
    let b2 = words::read_byte(word(line, 4))?;
    let b3 = words::read_byte(word(line, 5))?;
    Some(match reader::scale_width(scale, b0, b1, b2, b3) {
        Ok(width) => line::word_and_number("width", width),
        Err(refusal) => asking::refused(refusal),
    })
}
