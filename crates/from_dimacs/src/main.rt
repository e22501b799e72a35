// Program: writes the encoded formula of the DIMACS text on standard input, or its refusal on standard error (S15).
//
// It reads at most 65,536 bytes, and takes these for the whole text. The buffer for the formula, which has at most 9,315 bytes, is as
// large as the input that list_models takes.
#![tactic(auto)]

use std::io;

// The longest text that is read.
const MAX_TEXT: usize = 65536;

fn main(rt: HostRuntime) -> io::Result<()> {
    let mut text = [0u8; MAX_TEXT];
    let n = reading::read_full(&mut rt.reader(), &mut text)?;
    let mut buffer = [0u8; printing::MAX_INPUT];
    let converted = dimacs::read(&text[..n], &mut buffer);
    filters::put_converted(&rt.stdout(), &rt.stderr(), converted, &buffer)
}
