// A list of clauses that is copied with the formula that holds it.
ghost use Rattle.std.specs.Prelude.{◌≡◌, ◌+◌, ◌<◌, ◌≤◌, [], ◌∷◌, ◌++◌, length};
ghost use Rattle.limits.specs.Limits.{max_clauses};

use crate::Clause;
use limits::MAX_CLAUSES;
use std::marker::Model;
use std::ops::DerefSlice;

// At most 96 clauses, in order. The places behind them hold clauses without literals: so the clauses tell the whole value, as Copy needs.
#[derive(Clone, Copy)]
pub struct ClauseList {
    cells: [Clause; MAX_CLAUSES],
    len: usize,
}

impl Model for ClauseList {
    ghost use Rattle.std.specs.Prelude.{◌≡◌, ◌≤◌, length, take};
    ghost use Rattle.std.proofs.Common.{sym};
    ghost use Rattle.arrayvec.specs.ArrayVec.{ArrayVec as Items};
    ghost use Rattle.limits.specs.Limits.{max_clauses};
    ghost use Rattle.lists.specs.Padded.{padded};
    ghost use Rattle.lists.proofs.StoreLaws.{held_length};
    ghost use Rattle.formula.specs.declared.Clause.{Clause};

    ghost Value = { Items Clause };

    ghost view = { λ l. record { items = take l.len l.cells } };

    ghost invariant = { λ l. (l.len ≤ max_clauses)
        × (l.cells ≡ padded max_clauses (record { positive = 0; negative = 0 }) (take l.len l.cells)) };

    ghost inverse = { λ v. record { cells = padded max_clauses (record { positive = 0; negative = 0 }) v.items; len = length v.items } };

    ghost inverse_ok = { λ l h i. record {
      cells = sym h.1 i;
      len = (held_length max_clauses _ l.cells l.len h.0 h.1).1 i;
    } };
}

impl ClauseList {
    // A list without clauses.
    pub fn new() -> Self
        ensures { result.items ≡ [] }
    {
        ClauseList {
            cells: [Clause::empty(); MAX_CLAUSES],
            len: 0,
        }
    }

    // The number of clauses.
    #[inline]
    pub fn len(&self) -> usize
        ensures value { result ≡ length self.now.items }
        ensures fits { result ≤ max_clauses }
    {
        self.len
    }

    // Appends a clause. There must be room.
    #[inline]
    pub fn push(&mut self, c: Clause)
        requires { length self.old.items < max_clauses }
        ensures items { self.new.items ≡ self.old.items ++ c ∷ [] }
        ensures len { length self.new.items ≡ length self.old.items + 1 }
    {
        self.cells[self.len] = c;
        self.len += 1;
    }

    // The clauses.
    #[inline]
    pub fn as_slice(&self) -> &[Clause]
        ensures value { result.now ≡ self.now.items }
        ensures fits { length result.now ≤ max_clauses }
    {
        &self.cells[..self.len]
    }
}

impl DerefSlice for ClauseList {
    type Elem = Clause;

    ghost deref_gives = { λ l xs. (xs ≡ l.items) × (length xs ≤ max_clauses) };

    #[inline]
    fn deref(&self) -> &[Clause] {
        self.as_slice()
    }
}
