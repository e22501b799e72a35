// The choice of the next variable: pure literals, trials, and which values are open (S6).
//
// It is made over a formula in masks and the assigned variables. A clause is gone if an assigned variable satisfies it; what is left of
// another are its unassigned variables. Few clauses are open where a choice is made, so what is left of those is copied first, into an
// array for each side, and all else goes over the arrays: stripping a pure literal drops the clauses that name it, in place, and what it
// leaves is counted for all variables at once, to try the busiest first.
#![tactic(auto)]

ghost use Rattle.std.specs.Prelude.{◌≡◌, true, ℕ};
ghost use Rattle.formula.specs.InnerFits.{FormulaFits};
ghost use Rattle.splitting.specs.Choosing.{both_open};
ghost use Rattle.splitting.specs.InnerChoose.{node, survey_of, matching_at, Small, stripping_at, greatest, all_satisfied, free_choice, mask_choice};

mod clauses;
mod counts;

use clauses::{Clauses, Survey};
use formula::{Assignment, ByteList, Formula};
use limits::MAX_VARIABLES;
use matching::Matching;

// The chosen variable, which of its values are open, and the expansions of the trials made in choosing it.
#[derive(Clone, Copy)]
pub struct Choice {
    pub variable: usize,
    pub false_open: bool,
    pub true_open: bool,
    pub expansions: u64,
}

// Stripping at a node: the assignment with the noted variables, each the way that it is named, and these in order.
#[derive(Clone, Copy)]
pub struct Stripping {
    pub assignment: Assignment,
    pub order: ByteList<MAX_VARIABLES>,
}

impl Choice {
    // A variable of which both values are open.
    fn both_open(v: usize, expansions: u64) -> Self
        ensures { result ≡ both_open v expansions }
    {
        Choice {
            variable: v,
            false_open: true,
            true_open: true,
            expansions,
        }
    }
}

// Every clause is satisfied, so that none is left at the node.
pub fn all_satisfied(f: &Formula, a: Assignment) -> bool
    ensures { result ≡ all_satisfied f.now a }
{
    f.clauses.iter().all(|c| a.satisfies(*c))
}

// Matches what is left of the formula's open clauses, from nothing.
pub fn match_open(f: &Formula, a: Assignment) -> Matching
    requires { FormulaFits f.now }
    ensures { result ≡ matching_at f.now a }
{
    let mut clauses = Clauses::none();
    clauses.take_open(f, a);
    clauses.match_with(Assignment::none())
}

// What the formula's open clauses name.
fn survey_open(f: &Formula, a: Assignment) -> Survey
    ensures { result ≡ survey_of (node f.now a) }
{
    let mut s = Survey::none();
    for c in f.clauses.iter() {
        if !a.satisfies(*c) {
            s = s.with(clauses::left(a, *c));
        }
    }
    s
}

// S6.2: strips at a node, and tells the order of noting. (The choice has `reduce`, which drops clauses in place and needs no order.)
pub fn strip(f: &Formula, a: Assignment) -> Stripping
    requires { FormulaFits f.now }
    ensures { result ≡ stripping_at f.now a }
{
    let mut s = Stripping {
        assignment: a,
        order: ByteList::new(),
    };
    for _ in 0..f.variables {
        let names = survey_open(f, s.assignment);
        let pure = names.positive ^ names.negative;
        if pure == 0 {
            return s;
        }
        let v = masks::lowest(pure);
        s.assignment = s.assignment.with(v, masks::member(names.positive, v));
        s.order.push(v as u8);
    }
    s
}

// The greatest member, 0 if there is none.
fn highest(mask: u64) -> usize
    ensures { result ≡ greatest mask }
{
    63usize.saturating_sub(mask.leading_zeros() as usize)
}

// The choice where some clause is open, whichever variables are to be assigned.
fn choose_open(f: &Formula, a: Assignment) -> Choice
    requires { Small f.now × ((survey_of (node f.now a)).any ≡ true) }
    ensures { (scope : ℕ) → result ≡ mask_choice f.now scope a }
{
    let mut clauses = Clauses::none();
    clauses.take_open(f, a);
    let names = clauses.survey();
    let r = clauses.reduce(f.variables);
    if r.survey.any {
        clauses.compact(r.assignment);
        let counts = clauses.count_names();
        return clauses.first_passing(counts);
    }
    let others = masks::minus(names.positive | names.negative, r.noted);
    let v = if others == 0 { r.last } else { highest(others) };
    clauses.last_listed(v)
}

// The choice where no clause is left: the lowest variable without a value.
pub fn choose_free(scope: u64, a: Assignment) -> Choice
    ensures { result ≡ free_choice scope a }
{
    Choice::both_open(masks::lowest(masks::minus(scope, a.variables())), 0)
}

// The choice at the node of the assignment; `scope` has the variables to assign.
pub fn choose(f: &Formula, scope: u64, a: Assignment) -> Choice
    requires { FormulaFits f.now }
    ensures { result ≡ mask_choice f.now scope a }
{
    if all_satisfied(f, a) {
        return choose_free(scope, a);
    }
    choose_open(f, a)
}
