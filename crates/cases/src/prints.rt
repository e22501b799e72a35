// The vectors of the printed walk: what print writes, compared with the expected text.
ghost use Rattle.std.specs.Prelude.{◌≡◌, IfOk};
ghost use Rattle.vectors.specs.Corpus.{parts_of};
ghost use Rattle.cases.specs.Prints.{print_agrees};

use std::io;
use vectors::comparing::{first_wrong, wanted_byte};
use vectors::corpus::Vector;
use vectors::report;

// Room for the longest text.
const ROOM: usize = 65536;

// Whether print writes the text that the vector expects; a difference is printed.
pub fn print_vector(rt: &impl Print, v: &Vector<'_>) -> io::Result<bool>
    ensures { IfOk result (λ agrees. agrees ≡ print_agrees (parts_of v.now)) }
{
    let mut buffer = [0u8; ROOM];
    let count = printing::print(v.input, &mut buffer);
    let text = &buffer[..count];
    if text == v.expected {
        return Ok(true);
    }
    let wrong = first_wrong(text, |i| wanted_byte(v.expected, 0, i));
    report::other_text(rt, v.number, wrong, v.expected, text)?;
    Ok(false)
}
