// The act write: the formula of an input as text (S16).
ghost use Rattle.std.specs.Prelude.{◌≡◌, List, ◌-◌, ◌≤◌};
ghost use Rattle.limits.specs.Limits.{max_variables};
ghost use Rattle.masks.specs.Mask.{with};
ghost use Rattle.formula.specs.Format.{Literal};
ghost use Rattle.formula.specs.Decoding.{readable};
ghost use Rattle.formula.specs.InnerDecode.{decode};
ghost use Rattle.writing.specs.Placed.{Puts, RoomIn};
ghost use Rattle.dimacs.specs.Written.{opening_line, text_of};
ghost use Rattle.dimacs.specs.Convert.{converted_values, to_text};
ghost use Rattle.dimacs.specs.InnerWriter.{sign_bytes, literal_text, literal_once, ClauseAt, ClausesAt, AfterClause, Lined, Readable};

use formula::{Kind, Refusal};
use limits::{MAX_CLAUSES, MAX_VARIABLES};
use writing::Writer;

// Room for any text that is written: the longest p line, and for each clause four bytes for each variable, 0 and the line feed.
const TEXT_ROOM: usize = 12 + MAX_CLAUSES * (4 * MAX_VARIABLES + 2);

// A minus before a literal that is negative.
fn put_sign(w: &mut Writer, sign: bool)
    requires { RoomIn (sign_bytes sign) w.old }
    ensures { Puts (sign_bytes sign) w.old w.new }
{
    if !sign {
        w.put_byte(b'-');
    }
}

// The literal of variable k, from 1, and a blank.
fn put_literal(w: &mut Writer, sign: bool, k: u8)
    requires { RoomIn (literal_text sign k) w.old }
    ensures { Puts (literal_text sign k) w.old w.new }
{
    put_sign(w, sign);
    w.put_decimal(u64::from(k));
    w.put_byte(b' ');
}

// The literal, unless the line has its variable: the variables that the line has then.
fn put_once(w: &mut Writer, sign: bool, k: u8, seen: u64) -> u64
    requires { (1 ≤ k) × (k ≤ max_variables) × RoomIn (literal_once seen sign (k - 1)) w.old }
    ensures { Puts (literal_once seen sign (k - 1)) w.old w.new × (result ≡ with seen (k - 1)) }
{
    let v = usize::from(k - 1);
    if masks::member(seen, v) {
        return seen;
    }
    put_literal(w, sign, k);
    masks::with(seen, v)
}

// The line of the clause that starts there: where the next one starts.
fn put_clause(w: &mut Writer, input: &[u8], from: usize) -> usize
    requires { ClauseAt input.now from w.old }
    ensures { AfterClause input.now from w.old w.new result }
{
    let mut seen = 0;
    let mut i = from;
    while let Some(Kind::Literal(sign)) = Kind::of(input[i]) {
        seen = put_once(w, sign, input[i + 1], seen);
        i += 2;
    }
    w.put_word(b"0\n");
    i + 1
}

// The lines of so many clauses, behind the record of kind 1.
fn put_clauses(w: &mut Writer, input: &[u8], count: usize)
    requires { ClausesAt input.now count w.old }
    ensures { Lined input.now count w.old w.new }
{
    let mut from = 2;
    for _ in 0..count {
        from = put_clause(w, input, from);
    }
}

// The p line.
fn put_opening(w: &mut Writer, n: usize, m: usize)
    requires { RoomIn (opening_line n m) w.old }
    ensures { Puts (opening_line n m) w.old w.new }
{
    w.put_word(b"p cnf ");
    w.put_numbers(n as u64, m as u64);
}

// The text of a readable input, of n variables and m clauses.
fn put_text(w: &mut Writer, input: &[u8], n: usize, m: usize)
    requires { Readable input.now n m w.old }
    ensures { (cs : List (List Literal)) → decode input.now ≡ readable n cs → Puts (text_of n cs) w.old w.new }
{
    put_opening(w, n, m);
    put_clauses(w, input, m);
}

// S16: the act write: the text of an input's formula into the first bytes of the buffer.
pub fn write(input: &[u8], buffer: &mut [u8]) -> Result<usize, Refusal>
    ensures { to_text input.now buffer.old ≡ record { answer = converted_values result; buffer = buffer.new } }
{
    if buffer.len() < TEXT_ROOM {
        return Err(Refusal::ShortBuffer(0));
    }
    let f = formula::decode(input)?;
    let mut w = Writer::new(buffer, 0);
    put_text(&mut w, input, f.variables, f.clauses.len());
    Ok(w.behind())
}
