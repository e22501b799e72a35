// The lines that the program `cases` prints.
use crate::answers::{Answer, Says};
use crate::totals::Totals;
use std::{fmt, io};

// What an answer says, in words.
impl fmt::Display for Says {
    fn fmt<W: fmt::Write>(&self, f: &mut fmt::Formatter<W>) -> fmt::Result {
        let words = match self {
            Says::No => "no",
            Says::Yes => "yes",
            Says::Refused => "refused",
            Says::Accepted => "accepted",
            Says::Model => "model",
            Says::Spent => "spent",
            Says::Ended => "ended",
            Says::NotCompared => "not compared",
            Says::Models => "models",
            Says::OtherModels => "other models",
            Says::Written => "written",
            Says::Filled => "filled",
            Says::Counted => "counted",
            Says::Unknown(_) => "unknown",
        };
        write!(f, "{words}")
    }
}

// What an answer says, and its numbers.
impl fmt::Display for Answer {
    fn fmt<W: fmt::Write>(&self, f: &mut fmt::Formatter<W>) -> fmt::Result {
        let Answer {
            says,
            number,
            place,
            variables,
            clauses,
        } = self;
        write!(f, "{says} {number} {place} {variables} {clauses}")
    }
}

// A vector that gives another answer, buffer or checkpoint than it expects.
pub fn difference(rt: &impl Print, vector: u64, wanted: Answer, got: Answer) -> io::Result<()> {
    println!(rt; "vector {vector}: expected {wanted}, got {got}")
}

// A vector that has no answer, and gives another checkpoint than it expects.
pub fn other_checkpoint(rt: &impl Print, vector: u64) -> io::Result<()> {
    println!(rt; "vector {vector}: another checkpoint")
}

// A vector whose calls have other steps between two models than their trails say, or another number of models.
pub fn other_waits(rt: &impl Print, vector: u64) -> io::Result<()> {
    println!(rt; "vector {vector}: other waits")
}

// A vector whose printed text is another from a byte on, counted from 0.
pub fn other_text(
    rt: &impl Print,
    vector: u64,
    at: usize,
    wanted: &[u8],
    got: &[u8],
) -> io::Result<()> {
    println!(rt; "vector {vector}: another text from byte {at} on, expected:")?;
    rt.write_all(wanted)?;
    println!(rt; "got:")?;
    rt.write_all(got)
}

// One of the vector's numbers.
pub fn numbers(rt: &impl Print, name: &[u8], wanted: u64, got: u64) -> io::Result<()> {
    rt.write_all(b"  ")?;
    rt.write_all(name)?;
    println!(rt; ": expected {wanted}, got {got}")
}

// The first wrong byte of the vector's buffer or checkpoint, from 0.
pub fn wrong_byte(rt: &impl Print, at: usize, wanted: u8, got: u8) -> io::Result<()> {
    println!(rt; "  byte {at}: expected {wanted}, got {got}")
}

// A file whose vector at an offset runs past its end.
pub fn broken(rt: &impl Print, name: &[u8], at: usize) -> io::Result<()> {
    rt.write_all(name)?;
    println!(rt; ": broken at {at}")
}

// How many vectors, or calls, were run.
pub fn summary(rt: &impl Print, name: &[u8], unit: &[u8], t: Totals) -> io::Result<()> {
    rt.write_all(name)?;
    print!(rt; ": {} ", t.vectors)?;
    rt.write_all(unit)?;
    println!(rt; ", {} differences", t.differences)
}
