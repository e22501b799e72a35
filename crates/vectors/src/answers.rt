// Answers as the corpus writes them.
ghost use Rattle.std.specs.Prelude.{◌≤◌, ◌≡◌, eqb, length};
ghost use Rattle.std.proofs.Common.{rules};
ghost use Rattle.std.specs.Cmp.Rules.{comparing};
ghost use Rattle.formula.specs.Refusals.{table_row};
ghost use Rattle.vectors.specs.Answers.{says_of, byte_of, plain, refused_answer, expected};

use crate::corpus::two_bytes;
use formula::Refusal;

// What an answer says, in the order of the bytes that the corpus has for it; the last one holds any other number, and no act says it.
#[derive(Clone, Copy)]
pub enum Says {
    No,
    Yes,
    Refused,
    Accepted,
    Model,
    Spent,
    Ended,
    NotCompared,
    Models,
    OtherModels,
    Written,
    Filled,
    Counted,
    Unknown(u64),
}

impl Says {
    // Its number: the byte that the corpus has for it, or the one that is held.
    fn number(self) -> u64
        ensures { result ≡ byte_of self }
    {
        match self {
            Says::No => 0,
            Says::Yes => 1,
            Says::Refused => 2,
            Says::Accepted => 3,
            Says::Model => 4,
            Says::Spent => 5,
            Says::Ended => 6,
            Says::NotCompared => 7,
            Says::Models => 8,
            Says::OtherModels => 9,
            Says::Written => 10,
            Says::Filled => 11,
            Says::Counted => 12,
            Says::Unknown(number) => number,
        }
    }
}

// By their numbers, so that two unknown ones are told apart.
impl PartialEq for Says {
    ghost eq = { λ a b. eqb (byte_of a) (byte_of b) };

    ghost laws = { Prim.search (comparing, rules) };

    fn eq(&self, other: &Says) -> bool {
        self.number() == other.number()
    }
}

impl Eq for Says {
    ghost laws = { Prim.search (comparing, rules) };
}

// By its byte, which is its number.
impl From<u8> for Says {
    ghost from_gives = { λ b says. (says ≡ says_of b) × (byte_of says ≡ b) };

    fn from(b: u8) -> Says {
        match b {
            0 => Says::No,
            1 => Says::Yes,
            2 => Says::Refused,
            3 => Says::Accepted,
            4 => Says::Model,
            5 => Says::Spent,
            6 => Says::Ended,
            7 => Says::NotCompared,
            8 => Says::Models,
            9 => Says::OtherModels,
            10 => Says::Written,
            11 => Says::Filled,
            12 => Says::Counted,
            _ => Says::Unknown(u64::from(b)),
        }
    }
}

// What an answer says; the refusal's number and place, else zeros; and the numbers of variables and of clauses if accepted or counted, else
// zeros.
#[derive(Clone, Copy, PartialEq, Eq)]
pub struct Answer {
    pub says: Says,
    pub number: u64,
    pub place: u64,
    pub variables: u64,
    pub clauses: u64,
}

impl Answer {
    // An answer that says only what it says.
    pub fn bare(says: Says) -> Self
        ensures { result ≡ plain says 0 0 }
    {
        Answer {
            says,
            number: 0,
            place: 0,
            variables: 0,
            clauses: 0,
        }
    }

    // A refusal.
    pub fn refused(refusal: Refusal) -> Self
        ensures { result ≡ refused_answer (table_row refusal).number (table_row refusal).place }
    {
        Answer {
            number: refusal.number(),
            place: refusal.place() as u64,
            ..Answer::bare(Says::Refused)
        }
    }

    // The expected answer, with which a vector's fields begin.
    pub fn expected(fields: &[u8]) -> Self
        requires { 6 ≤ length fields.now }
        ensures { result ≡ expected fields.now }
    {
        Answer {
            says: Says::from(fields[0]),
            number: u64::from(fields[1]),
            place: u64::from(two_bytes(fields, 2)),
            variables: u64::from(fields[4]),
            clauses: u64::from(fields[5]),
        }
    }
}
