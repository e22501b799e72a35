// Program: prints the pages of the walk of the encoded formula on standard input, or its refusal (S19.6).
//
// It reads at most 16,384 bytes, as list_models does, and takes these for the whole input.
#![tactic(auto)]

ghost use Rattle.std.specs.Prelude.{[], ◌+◌, ◌*◌, ◌≤◌, length};
ghost use Rattle.writing.specs.Text.{blanks};
ghost use Rattle.writing.specs.Placed.{Wrote};
ghost use Rattle.enumeration.specs.Values.{checkpoint_values};
ghost use Rattle.page.specs.PageLines.{page_size};
ghost use Rattle.page.specs.Pages.{page_call};
ghost use Rattle.print_pages.specs.PrintedPages.{max_pages, printed_pages};
ghost use Rattle.print_pages.specs.InnerParts.{PutPage};

use enumeration::Checkpoint;
use formula::{Assignment, Refusal};
use page::{PAGE_LINES, PAGE_SIZE, Paged};
use std::io;
use writing::Writer;

// The most pages that are printed.
const MAX_PAGES: usize = 20;

// Room for the pages.
const ROOM: usize = 65536;

// A page without assumptions, in the 3,000 bytes from an offset on.
fn put_page(
    input: &[u8],
    checkpoint: Checkpoint,
    serial: u32,
    buffer: &mut [u8],
    from: usize,
) -> Result<Paged, Refusal>
    requires { from + page_size ≤ length buffer.old }
    ensures { let c = checkpoint_values checkpoint in PutPage c (page_call input.now [] c serial (blanks page_size)) from buffer.old buffer.new result }
{
    let to = from + PAGE_SIZE;
    page::write_page_under(
        input,
        Ok(Assignment::none()),
        checkpoint,
        serial,
        &mut buffer[from..to],
    )
}

// The pages from the start checkpoint on, or the refusal's line: how many bytes they are.
fn put_pages(input: &[u8], buffer: &mut [u8]) -> usize
    requires { max_pages * page_size ≤ length buffer.old }
    ensures { Wrote (printed_pages input.now) 0 buffer.old buffer.new result }
{
    let mut checkpoint = enumeration::start_checkpoint();
    for k in 0..MAX_PAGES {
        let from = PAGE_SIZE * k;
        let serial = 1 + PAGE_LINES * k;
        match put_page(input, checkpoint, serial as u32, buffer, from) {
            Ok(paged) => {
                if paged.lines < PAGE_LINES {
                    return from + PAGE_SIZE;
                }
                checkpoint = paged.checkpoint;
            }
            Err(refusal) => {
                let mut w = Writer::new(buffer, from);
                printing::put_refused_line(&mut w, refusal.number(), refusal.place() as u64);
                return w.behind();
            }
        }
    }
    PAGE_SIZE * MAX_PAGES
}

fn main(rt: HostRuntime) -> io::Result<()> {
    let mut input = [0u8; printing::MAX_INPUT];
    let n = reading::read_full(&mut rt.reader(), &mut input)?;
    let mut buffer = [0u8; ROOM];
    let count = put_pages(&input[..n], &mut buffer);
    rt.stdout().write_all(&buffer[..count])
}
