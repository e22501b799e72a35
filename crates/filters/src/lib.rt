// What the programs that convert write: the bytes on standard output, or the line of a refusal on standard error.
#![tactic(auto)]

ghost use Rattle.std.specs.Prelude.{◌≤◌, length};
ghost use Rattle.dimacs.specs.Convert.{converted_values};

use formula::Refusal;
use std::io;
use writing::Writer;

// Room for a refusal's line: its word and two numbers of 20 digits, blanks between them, and the line feed. A number and a place are known
// to be 64 bits and no more here.
const MAX_LINE: usize = 50;

// The first bytes of the buffer, as many as were written into it, on the output, or the refusal's line on the other one.
pub fn put_converted(
    output: &impl Print,
    errors: &impl Print,
    converted: Result<usize, Refusal>,
    buffer: &[u8],
) -> io::Result<()>
    requires { (converted_values converted).count ≤ length buffer.now }
{
    match converted {
        Ok(count) => output.write_all(&buffer[..count]),
        Err(refusal) => {
            let mut line = [0u8; MAX_LINE];
            let mut w = Writer::new(&mut line, 0);
            printing::put_refused_line(&mut w, refusal.number(), refusal.place() as u64);
            let count = w.behind();
            errors.write_all(&line[..count])
        }
    }
}
