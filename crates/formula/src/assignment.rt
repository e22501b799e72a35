// A partial assignment: the variables that have a value.
ghost use Rattle.std.specs.Prelude.{◌≡◌, ◌<◌};
ghost use Rattle.formula.specs.InnerAssignment.{assigned, set_to, unassigned, satisfied_under};

use crate::Clause;

// The assigned variables, by their values.
#[derive(Clone, Copy)]
pub struct Assignment {
    pub trues: u64,
    pub falses: u64,
}

impl Assignment {
    // Nothing is assigned.
    pub fn none() -> Self
        ensures { result ≡ unassigned }
    {
        Assignment {
            trues: 0,
            falses: 0,
        }
    }

    // The assignment in which v has the value as well.
    pub fn with(self, v: usize, value: bool) -> Self
        requires { v < 64 }
        ensures { result ≡ set_to self v value }
    {
        if value {
            Assignment {
                trues: masks::with(self.trues, v),
                ..self
            }
        } else {
            Assignment {
                falses: masks::with(self.falses, v),
                ..self
            }
        }
    }

    // The assigned variables.
    pub fn variables(self) -> u64
        ensures { result ≡ assigned self }
    {
        self.trues | self.falses
    }

    // An assigned variable satisfies the clause.
    pub fn satisfies(self, c: Clause) -> bool
        ensures { result ≡ satisfied_under self c }
    {
        ((c.positive & self.trues) | (c.negative & self.falses)) != 0
    }
}
