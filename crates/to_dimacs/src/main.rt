// Program: writes the DIMACS text of the encoded formula on standard input, or its refusal on standard error (S16).
//
// It reads at most 16,384 bytes, as list_models does, and takes these for the whole input.
#![tactic(auto)]

use std::io;

// Room for the text.
const MAX_TEXT: usize = 65536;

fn main(rt: HostRuntime) -> io::Result<()> {
    let mut input = [0u8; printing::MAX_INPUT];
    let n = reading::read_full(&mut rt.reader(), &mut input)?;
    let mut buffer = [0u8; MAX_TEXT];
    let converted = dimacs::write(&input[..n], &mut buffer);
    filters::put_converted(&rt.stdout(), &rt.stderr(), converted, &buffer)
}
