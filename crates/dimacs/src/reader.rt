// The act read: a text into an encoded formula (S15).
//
// A refusal may come behind any word, and leaves the lent buffer as it was: so the bytes are first kept apart.
ghost use Rattle.std.specs.Prelude.{◌≡◌, ◌+◌, ◌-◌, ◌≤◌, ℕ, length};
ghost use Rattle.limits.specs.Limits.{max_variables};
ghost use Rattle.dimacs.specs.Text.{words, all_words, Progress, progress_start, take_literal, take_end, take_word, take_words, next, closing};
ghost use Rattle.dimacs.specs.Convert.{converted_values, to_encoded};
ghost use Rattle.dimacs.specs.InnerPiece.{piece_of};
ghost use Rattle.dimacs.specs.InnerScan.{lines_left, numbers_of};
ghost use Rattle.dimacs.specs.InnerReader.{kept_room, with_record, Keeps, Ready, Takes, Opens, Reads};

use crate::opening::{Numbers, read_opening};
use crate::piece::Piece;
use crate::scan::{Lines, Token, Words, read_token};
use formula::{ByteList, Clause, Kind, Refusal};
use limits::{MAX_CLAUSES, MAX_VARIABLES};

// The bytes of a clause that names every variable once.
const MAX_CLAUSE_BYTES: usize = 2 * MAX_VARIABLES + 1;

// The most bytes of an encoded formula without repeats.
const MAX_BYTES: usize = 3 + MAX_CLAUSES * MAX_CLAUSE_BYTES;

// Room for the most clauses and one that has not ended: its end is what is refused.
const KEPT_ROOM: usize = 2 + (MAX_CLAUSES + 1) * MAX_CLAUSE_BYTES;

// Where reading stands: the number of variables, how many clauses have ended, what the current one names, and the bytes that are kept.
#[derive(Drop)]
struct Reader {
    variables: usize,
    count: usize,
    current: Clause,
    kept: ByteList<KEPT_ROOM>,
}

impl Reader {
    // The reader behind the p line.
    fn new(variables: usize) -> Self
        requires { (1 ≤ variables) × (variables ≤ max_variables) }
        ensures { Keeps variables progress_start result }
    {
        let mut kept = ByteList::new();
        kept.push(u8::from(Kind::VariableCount));
        kept.push(variables as u8);
        Reader {
            variables,
            count: 0,
            current: Clause::empty(),
            kept,
        }
    }

    // Keeps a literal's record: of variable k, from 1.
    fn keep_literal(&mut self, sign: bool, k: usize)
        requires { (1 ≤ k) × (k ≤ max_variables) × (length self.old.kept.items + 2 ≤ kept_room) }
        ensures { self.new ≡ with_record self.old sign k }
    {
        self.kept.push(u8::from(Kind::Literal(sign)));
        self.kept.push(k as u8);
        self.current = self.current.with_literal(k - 1, sign);
    }

    // A word that names variable k, from 1.
    fn take_literal(&mut self, at: usize, sign: bool, k: usize) -> Result<(), Refusal>
        requires { (1 ≤ k) × Ready self.old }
        ensures { Takes (λ n s. take_literal n at s sign k) self.old self.new result }
    {
        if self.variables < k {
            return Err(Refusal::NoSuchVariable(at));
        }
        if masks::member(self.current.other_side(sign), k - 1) {
            return Err(Refusal::ComplementaryLiteral(at));
        }
        if masks::member(self.current.variables(), k - 1) {
            return Ok(());
        }
        self.keep_literal(sign, k);
        Ok(())
    }

    // A word that ends a clause.
    fn take_end(&mut self, at: usize) -> Result<(), Refusal>
        requires { Ready self.old }
        ensures { Takes (λ n s. take_end at s) self.old self.new result }
    {
        if MAX_CLAUSES <= self.count {
            return Err(Refusal::TooManyClauses(at));
        }
        self.kept.push(u8::from(Kind::ClauseEnd));
        self.count += 1;
        self.current = Clause::empty();
        Ok(())
    }

    // One word.
    fn take_word(&mut self, word: Piece) -> Result<(), Refusal>
        requires { Ready self.old }
        ensures { Takes (λ n s. take_word n (piece_of word.entry) s) self.old self.new result }
    {
        match read_token(word.bytes) {
            Some(Token::Ends) => self.take_end(word.at),
            Some(Token::Literal(sign, k)) => self.take_literal(word.at, sign, k),
            None => Err(Refusal::BadWord(word.at)),
        }
    }

    // The words of a line.
    fn take_line(&mut self, line: Piece) -> Result<(), Refusal>
        requires { Ready self.old }
        ensures { Takes (λ n s. take_words n (words (piece_of line.entry)) s) self.old self.new result }
    {
        for word in Words::new(line) {
            self.take_word(word)?;
        }
        Ok(())
    }

    // The words of all lines that are left.
    fn take_lines(&mut self, lines: Lines) -> Result<(), Refusal>
        requires { Ready self.old }
        ensures { Takes (λ n s. take_words n (all_words (lines_left lines.entry)) s) self.old self.new result }
    {
        for line in lines {
            self.take_line(line)?;
        }
        Ok(())
    }

    // Behind the last word of a text of `len` bytes: no clause is open, and there are as many as the p line says.
    fn close(&mut self, len: usize, p: Numbers) -> Result<(), Refusal>
        requires { Ready self.old }
        ensures { (n : ℕ) (s : Progress) (c d : _) → Keeps n s self.old → p ≡ numbers_of c d → Reads (closing len n d (next s)) self.new result }
    {
        if self.current.variables() != 0 {
            return Err(Refusal::Truncated(len));
        }
        if self.count != p.clauses {
            return Err(Refusal::ClauseCountDiffers(p.fourth));
        }
        self.kept.push(u8::from(Kind::FormulaEnd));
        Ok(())
    }
}

// The numbers of the p line, the first of the lines of a text of `len` bytes: it has one variable or more, at most 48.
fn read_p_line(lines: &mut Lines, len: usize) -> Result<Numbers, Refusal>
    ensures { Opens len (lines_left lines.old) (lines_left lines.new) result }
{
    let Some(first) = lines.next() else {
        return Err(Refusal::BadOpening(len));
    };
    let Some(p) = read_opening(first) else {
        return Err(Refusal::BadOpening(first.at));
    };
    if p.variables == 0 || MAX_VARIABLES < p.variables {
        return Err(Refusal::BadVariableCount(p.third));
    }
    Ok(p)
}

// S15: the act read: the formula of a text, encoded without repeats into the first bytes of the buffer.
pub fn read(text: &[u8], buffer: &mut [u8]) -> Result<usize, Refusal>
    ensures { to_encoded text.now buffer.old ≡ record { answer = converted_values result; buffer = buffer.new } }
{
    if buffer.len() < MAX_BYTES {
        return Err(Refusal::ShortBuffer(0));
    }
    let mut lines = Lines::new(text);
    let p = read_p_line(&mut lines, text.len())?;
    let mut reader = Reader::new(p.variables);
    reader.take_lines(lines)?;
    reader.close(text.len(), p)?;
    let bytes = reader.kept.as_slice();
    buffer[..bytes.len()].copy_from_slice(bytes);
    Ok(bytes.len())
}
