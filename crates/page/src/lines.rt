// S19.1: the lines of a page, each written into the 60 bytes that are lent for it.
ghost use Rattle.std.specs.Prelude.{◌≡◌, ◌*◌, ◌<◌, ◌≤◌, length};
ghost use Rattle.limits.specs.Limits.{max_variables};
ghost use Rattle.writing.specs.Placed.{placed};
ghost use Rattle.page.specs.PageLines.{page_lines, line_size, page_size, page_line, blank_line};

use writing::Writer;

// A page has so many lines.
pub const PAGE_LINES: usize = 50;

// A line has so many bytes.
pub const LINE_SIZE: usize = 60;

// A page has so many bytes.
pub const PAGE_SIZE: usize = PAGE_LINES * LINE_SIZE;

// So wide are a serial and the steps.
const SERIAL_WIDTH: usize = 6;

const STEPS_WIDTH: usize = 3;

// The line of a model of n variables, of which the mask has those whose values are shown.
fn write_line(line: &mut [u8], serial: u64, n: usize, mask: u64, a: u64, steps: u64)
    requires { (length line.old ≡ line_size) × (serial < 1000000) × (n ≤ max_variables) × (steps < 1000) }
    ensures { line.new ≡ page_line serial n mask a steps }
{
    let mut w = Writer::new(line, 0);
    w.put_right(serial, SERIAL_WIDTH);
    w.put_byte(b' ');
    w.put_columns(n, mask, a);
    w.put_blanks(limits::MAX_VARIABLES - n);
    w.put_byte(b' ');
    w.put_right(steps, STEPS_WIDTH);
    w.put_byte(b'\n');
}

// A line without a model.
fn write_blank(line: &mut [u8])
    requires { length line.old ≡ line_size }
    ensures { line.new ≡ blank_line }
{
    let mut blank = Writer::new(line, 0);
    blank.put_blanks(LINE_SIZE - 1);
    blank.put_byte(b'\n');
}

// Line i of a page: the line of a model.
pub fn put_line(page: &mut [u8], i: usize, serial: u64, n: usize, mask: u64, a: u64, steps: u64)
    requires { (i < page_lines) × (page_size ≤ length page.old) × (serial < 1000000) × (n ≤ max_variables) × (steps < 1000) }
    ensures { page.new ≡ placed (line_size * i) (page_line serial n mask a steps) page.old }
{
    let from = LINE_SIZE * i;
    let to = from + LINE_SIZE;
    write_line(&mut page[from..to], serial, n, mask, a, steps);
}

// Line i of a page, without a model.
pub fn put_blank(page: &mut [u8], i: usize)
    requires { (i < page_lines) × (page_size ≤ length page.old) }
    ensures { page.new ≡ placed (line_size * i) blank_line page.old }
{
    let start = LINE_SIZE * i;
    let end = start + LINE_SIZE;
    write_blank(&mut page[start..end]);
}
