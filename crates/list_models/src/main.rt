// Program: prints the walk of the encoded formula on standard input, or its refusal (S12).
//
// It reads as many bytes as `print` takes.
#![tactic(auto)]

use std::io;

// Room for the print.
const ROOM: usize = 65536;

fn main(rt: HostRuntime) -> io::Result<()> {
    let mut input = [0u8; printing::MAX_INPUT];
    let n = reading::read_full(&mut rt.reader(), &mut input)?;
    let mut buffer = [0u8; ROOM];
    let count = printing::print(&input[..n], &mut buffer);
    rt.stdout().write_all(&buffer[..count])
}
