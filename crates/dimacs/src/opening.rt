// The p line (S15.2).
ghost use Rattle.std.specs.Prelude.{◌≡◌};
ghost use Rattle.dimacs.specs.Text.{words, opening};
ghost use Rattle.dimacs.specs.InnerPiece.{piece_of};
ghost use Rattle.dimacs.specs.InnerScan.{opening_held};

use crate::piece::Piece;
use crate::scan::{Words, number};

// The numbers of a p line, at most the cap, and the offsets of its third and fourth words, which write them.
#[derive(Clone, Copy)]
pub struct Numbers {
    pub variables: usize,
    pub third: usize,
    pub clauses: usize,
    pub fourth: usize,
}

// The numbers of a line of four words, p, cnf and two runs of digits.
pub fn read_opening(line: Piece) -> Option<Numbers>
    ensures { result ≡ opening_held (opening (words (piece_of line.entry))) }
{
    let mut words = Words::new(line);
    if words.next()?.bytes != b"p".as_slice() {
        return None;
    }
    if words.next()?.bytes != b"cnf".as_slice() {
        return None;
    }
    let third = words.next()?;
    let fourth = words.next()?;
    if words.next().is_some() {
        return None;
    }
    Some(Numbers {
        variables: number(third.bytes)?,
        third: third.at,
        clauses: number(fourth.bytes)?,
        fourth: fourth.at,
    })
}
