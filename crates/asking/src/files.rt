// A file read whole into a buffer that the caller lends. That it cannot be read is an answer, and no error.
ghost use Rattle.std.specs.Prelude.{IfSome};
ghost use Rattle.io.specs.Counts.{IsPrefixLen};

use std::fs;
use std::fs::Files;
use std::io::Read;

// How many bytes of the buffer the file is; none where it cannot be read or is longer than the buffer. A path is UTF-8 text: other bytes name no file.
pub fn read_whole<R: Files>(rt: &R, path: &[u8], buffer: &mut [u8]) -> Option<usize>
    ensures { IfSome result (λ length. IsPrefixLen length buffer.new) }
{
    let name = str::from_utf8(path).ok()?;
    let mut file = fs::open(rt, name).ok()?;
    read_to_end(&mut file, buffer)
}

fn read_to_end<F: Read>(file: &mut F, buffer: &mut [u8]) -> Option<usize>
    ensures { IfSome result (λ length. IsPrefixLen length buffer.new) }
{
    let mut done: usize = 0;
    // No range: a read brings as many bytes as it likes.
    while done < buffer.len() {
        match file.read(&mut buffer[done..]).ok()? {
            0 => return Some(done),
            more => done += more,
        }
    }
    if is_at_end(file) { Some(done) } else { None }
}

// Whether the file has no byte more; one that cannot be read any further is not at its end.
fn is_at_end<F: Read>(file: &mut F) -> bool {
    let mut byte = [0u8; 1];
    matches!(file.read(&mut byte), Ok(0))
}
