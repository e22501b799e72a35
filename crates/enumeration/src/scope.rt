// What a walk goes over: a formula, the variables that it assigns, and what is assigned before it begins.
ghost use Rattle.std.specs.Prelude.{◌≡◌};
ghost use Rattle.enumeration.specs.InnerScope.{scope_under, visible_in};

use formula::{Assignment, Formula};

// The variables to assign, how many they are, and what is assigned before.
#[derive(Clone, Copy)]
pub struct Scope {
    pub mask: u64,
    pub size: usize,
    pub before: Assignment,
}

// What a walk goes over.
#[derive(Clone, Copy)]
pub struct Task {
    pub formula: Formula,
    pub scope: Scope,
}

impl Task {
    // S23.1: the variables that the clauses of the formula name and that are not assigned before are to be assigned.
    pub fn new(formula: Formula, before: Assignment) -> Self
        ensures { result ≡ record { formula = formula; scope = scope_under formula before } }
    {
        let mask = masks::minus(matched::named(&formula), before.variables());
        Task {
            formula,
            scope: Scope {
                mask,
                size: masks::size(mask) as usize,
                before,
            },
        }
    }

    // S23.3: the variables whose values a model shows: those to assign and those assigned before.
    pub fn visible(&self) -> u64
        ensures { result ≡ visible_in self.now.scope }
    {
        self.scope.mask | self.scope.before.variables()
    }
}
