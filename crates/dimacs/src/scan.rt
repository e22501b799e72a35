// Lines, words and numbers of a text (S15.1, S15.2).
ghost use Rattle.std.specs.Prelude.{◌≡◌, ◌+◌, ◌-◌, ◌*◌, ◌≤◌};
ghost use Rattle.std.specs.Iterator.{YieldsFirstBy, item_count};
ghost use Rattle.writing.specs.Text.{digit_zero};
ghost use Rattle.dimacs.specs.Text.{lines, parts_words, words, others, token};
ghost use Rattle.dimacs.specs.InnerPiece.{piece_of};
ghost use Rattle.dimacs.specs.InnerScan.{lines_left, words_left, cap, capped, number_held, token_held};

use crate::piece::Piece;

// Numbers above this one are taken for it: it is above every number that a formula has.
const CAP: usize = 1000;

// The lines of a text that are no comments, from the offset `from` on: none if it is past the text's end.
#[derive(Clone, Copy)]
pub struct Lines<'a> {
    text: &'a [u8],
    from: usize,
}

// The words of a line, from `rest` on.
#[derive(Clone, Copy)]
pub struct Words<'a> {
    rest: Piece<'a>,
}

// A word after the p line: it ends a clause, or names a variable (from 1) as true or as false.
#[derive(Clone, Copy)]
pub enum Token {
    Ends,
    Literal(bool, usize),
}

impl<'a> Lines<'a> {
    // Those of a text.
    pub fn new(text: &'a [u8]) -> Self
        ensures { lines_left result ≡ others (lines text.now) }
    {
        Lines { text, from: 0 }
    }
}

impl<'a> Iterator for Lines<'a> {
    type Item = Piece<'a>;

    ghost next_gives = { YieldsFirstBy piece_of lines_left };

    ghost remaining = { item_count lines_left };

    // S15.1: a line ends at its line feed, or with the text. One that starts with c, as the rest does then, is a comment.
    fn next(&mut self) -> Option<Piece<'a>> {
        while self.from <= self.text.len() {
            let rest = Piece {
                at: self.from,
                bytes: &self.text[self.from..],
            };
            let (line, behind) = rest.split_where(|x| *x == b'\n');
            self.from = behind.at + 1;
            if !rest.bytes.starts_with(b"c") {
                return Some(line);
            }
        }
        None
    }
}

impl<'a> Words<'a> {
    // Those of a line.
    pub fn new(line: Piece<'a>) -> Self
        ensures { words_left result ≡ words (piece_of line.entry) }
    {
        Words { rest: line }
    }
}

impl<'a> Iterator for Words<'a> {
    type Item = Piece<'a>;

    ghost next_gives = { YieldsFirstBy piece_of words_left };

    ghost remaining = { item_count words_left };

    // From the next byte that does not part words, up to one that does.
    fn next(&mut self) -> Option<Piece<'a>> {
        let (_, rest) = self.rest.split_where(|x| !parts_words(x));
        if rest.bytes.is_empty() {
            return None;
        }
        let (word, behind) = rest.split_where(parts_words);
        self.rest = behind;
        Some(word)
    }
}

// S15.1: a blank, a tab, a carriage return and a line feed part words.
fn parts_words(x: &u8) -> bool
    ensures { result ≡ parts_words x.now }
{
    matches!(*x, b' ' | b'\t' | b'\r' | b'\n')
}

// The number behind a with one digit more, at most the cap.
fn push_digit(a: usize, x: u8) -> usize
    requires { (a ≤ cap) × (digit_zero ≤ x) }
    ensures { result ≡ capped (10 * a + (x - digit_zero)) }
{
    (10 * a + usize::from(x - b'0')).min(CAP)
}

// The number that a run of digits writes, at most the cap.
pub fn number(word: &[u8]) -> Option<usize>
    ensures { result ≡ number_held word.now }
{
    if word.is_empty() {
        return None;
    }
    let mut a = 0;
    for x in word {
        if !x.is_ascii_digit() {
            return None;
        }
        a = push_digit(a, *x);
    }
    Some(a)
}

// A word after the p line: digits, of which zero ends a clause, or a minus before digits that are not zero.
pub fn read_token(word: &[u8]) -> Option<Token>
    ensures { result ≡ token_held (token word.now) }
{
    if let [b'-', digits @ ..] = word {
        return match number(digits)? {
            0 => None,
            k => Some(Token::Literal(false, k)),
        };
    }
    match number(word)? {
        0 => Some(Token::Ends),
        k => Some(Token::Literal(true, k)),
    }
}
