// Text written into a lent buffer: words, numbers in decimal, the columns of an assignment.
//
// A writer is lent a buffer and stands at an offset in it, behind what it wrote. Its callers show that the buffer has room.
#![tactic(auto)]

ghost use Rattle.std.specs.Prelude.{◌≡◌, [], ◌∷◌, ◌<◌, ◌≤◌, length};
ghost use Rattle.writing.specs.Placed.{Lent, Puts, RoomFor, RoomIn};
ghost use Rattle.writing.specs.Text.{decimal, digit, column, columns, line_of, blanks, right};

// The digit of bit i of a mask.
fn digit_of(a: u64, i: usize) -> u8
    requires { i < 64 }
    ensures { result ≡ digit a i }
{
    if masks::member(a, i) { b'1' } else { b'0' }
}

// S23.3: the column of variable i in the assignment a: its digit where `visible` has i, else a dash.
fn column_of(visible: u64, a: u64, i: usize) -> u8
    requires { i < 64 }
    ensures { result ≡ column visible a i }
{
    if masks::member(visible, i) {
        digit_of(a, i)
    } else {
        b'-'
    }
}

// How many digits a number has.
fn width_of(x: u64) -> usize
    ensures { result ≡ length (decimal x) }
{
    match x.checked_ilog10() {
        Some(power) => power as usize + 1,
        None => 1,
    }
}

// A lent buffer, and the offset of the next byte in it.
#[derive(Drop)]
pub struct Writer<'a> {
    buffer: &'a mut [u8],
    at: usize,
}

impl<'a> Writer<'a> {
    // A writer that begins at an offset.
    pub fn new(buffer: &'a mut [u8], at: usize) -> Writer<'a>
        ensures { Lent buffer.entry at result }
    {
        Writer { buffer, at }
    }

    // The offset behind what is written.
    pub fn behind(&self) -> usize
        ensures { result ≡ self.now.at }
    {
        self.at
    }

    // One byte.
    pub fn put_byte(&mut self, x: u8)
        requires { RoomIn (x ∷ []) self.old }
        ensures { Puts (x ∷ []) self.old self.new }
    {
        self.buffer[self.at] = x;
        self.at += 1;
    }

    // A word.
    pub fn put_word(&mut self, word: &[u8])
        requires { RoomIn word.now self.old }
        ensures { Puts word.now self.old self.new }
    {
        let behind = self.at + word.len();
        self.buffer[self.at..behind].copy_from_slice(word);
        self.at = behind;
    }

    // A number in decimal: the digits before the last one first.
    pub fn put_decimal(&mut self, x: u64)
        requires { RoomIn (decimal x) self.old }
        ensures { Puts (decimal x) self.old self.new }
    {
        if x < 10 {
            self.put_byte(b'0' + x as u8);
            return;
        }
        self.put_decimal(x / 10);
        self.put_byte(b'0' + (x % 10) as u8);
    }

    // The columns of the first n variables.
    pub fn put_columns(&mut self, n: usize, visible: u64, a: u64)
        requires size { n ≤ 64 }
        requires room { RoomFor n self.old }
        ensures { Puts (columns n visible a) self.old self.new }
    {
        for i in 0..n {
            self.put_byte(column_of(visible, a, i));
        }
    }

    // The last two words of a line, numbers.
    pub fn put_numbers(&mut self, x: u64, y: u64)
        requires { RoomIn (line_of (decimal x ∷ decimal y ∷ [])) self.old }
        ensures { Puts (line_of (decimal x ∷ decimal y ∷ [])) self.old self.new }
    {
        self.put_decimal(x);
        self.put_byte(b' ');
        self.put_decimal(y);
        self.put_byte(b'\n');
    }

    // So many blanks.
    pub fn put_blanks(&mut self, count: usize)
        requires { RoomFor count self.old }
        ensures { Puts (blanks count) self.old self.new }
    {
        let behind = self.at + count;
        self.buffer[self.at..behind].fill(b' ');
        self.at = behind;
    }

    // A number in decimal, so wide and right-aligned.
    pub fn put_right(&mut self, x: u64, wide: usize)
        requires size { length (decimal x) ≤ wide }
        requires room { RoomFor wide self.old }
        ensures { Puts (right wide (decimal x)) self.old self.new }
    {
        self.put_blanks(wide - width_of(x));
        self.put_decimal(x);
    }
}
