// What is left of a node's clauses: its survey, stripping, matching, trials.
ghost use Rattle.std.specs.Prelude.{◌≡◌, true, ℕ, ◌+◌, ◌<◌, ◌≤◌, [], ◌∷◌, ◌++◌, map, length};
ghost use Rattle.limits.specs.Limits.{max_clauses};
ghost use Rattle.lists.specs.Over.{over};
ghost use Rattle.masks.specs.Mask.{bit};
ghost use Rattle.formula.specs.InnerAssignment.{unassigned, left_under};
ghost use Rattle.formula.specs.InnerFits.{clause_variables};
ghost use Rattle.splitting.specs.InnerWords.{Words};

use crate::Choice;
use crate::counts::Counts;
use formula::{Assignment, Clause, Formula};
use limits::MAX_CLAUSES;
use matching::Matching;

// The variables that clauses name as true and as false, and whether there is a clause.
#[derive(Clone, Copy)]
pub struct Survey {
    pub positive: u64,
    pub negative: u64,
    pub any: bool,
}

// What stripping leaves: the assignment with the noted variables, those and the last of them, and the clauses' survey.
#[derive(Clone, Copy)]
pub struct Reduced {
    pub assignment: Assignment,
    pub noted: u64,
    pub last: usize,
    pub survey: Survey,
}

// Both matchings succeeded, and the expansions.
#[derive(Clone, Copy)]
struct Trial {
    passes: bool,
    cost: u64,
}

// What is left of clauses, an array for each side: so the masks of one side lie together for the survey.
#[derive(Clone, Copy)]
pub struct Clauses {
    positives: [u64; MAX_CLAUSES],
    negatives: [u64; MAX_CLAUSES],
    count: usize,
    ghost few: { count ≤ max_clauses },
    ghost words: { Words positives × Words negatives },
}

// What is left of a clause.
pub fn left(a: Assignment, c: Clause) -> Clause
    ensures { result ≡ left_under a c }
{
    Clause {
        positive: masks::minus(c.positive, a.variables()),
        negative: masks::minus(c.negative, a.variables()),
    }
}

impl Survey {
    ghost use Rattle.splitting.specs.InnerChoose.{surveys, survey_of};

    // There is no clause.
    pub fn none() -> Self
        ensures { result ≡ survey_of [] }
    {
        Survey {
            positive: 0,
            negative: 0,
            any: false,
        }
    }

    // One clause more.
    pub fn with(self, c: Clause) -> Self
        ensures { result ≡ surveys self c }
    {
        Survey {
            positive: self.positive | c.positive,
            negative: self.negative | c.negative,
            any: true,
        }
    }
}

impl Clauses {
    ghost use Rattle.splitting.specs.Choosing.{by_count};
    ghost use Rattle.splitting.specs.InnerChoose.{node, unnamed, survey_of, some_empty, matching_at, clause_in, clauses_in, clauses_of, formula_in, formula_at, reduce_from, tried, passing, occurrences_in, count_at, max_count, listed_last};

    // No clauses.
    pub fn none() -> Self
        ensures { clauses_of result ≡ [] }
    {
        Clauses {
            positives: [0; MAX_CLAUSES],
            negatives: [0; MAX_CLAUSES],
            count: 0,
        }
    }

    // Takes what is left of the formula's open clauses, in place of what it has.
    pub fn take_open(&mut self, f: &Formula, a: Assignment)
        ensures { formula_in self.new ≡ formula_at f.now a }
    {
        let mut count = 0;
        for c in f.clauses.iter() {
            if !a.satisfies(*c) {
                self.put(count, left(a, *c));
                count += 1;
            }
        }
        self.count = count;
    }

    // The i-th clause.
    fn clause(&self, i: usize) -> Clause
        requires { i < max_clauses }
        ensures { result ≡ clause_in self.now.positives self.now.negatives i }
    {
        Clause {
            positive: self.positives[i],
            negative: self.negatives[i],
        }
    }

    // Writes c as the i-th clause.
    fn put(&mut self, i: usize, c: Clause)
        requires { i < max_clauses }
        ensures written { clauses_in self.new.positives self.new.negatives (i + 1) ≡ clauses_in self.old.positives self.old.negatives i ++ (c ∷ []) }
        ensures kept { (j : ℕ) → i < j → clause_in self.new.positives self.new.negatives j ≡ clause_in self.old.positives self.old.negatives j }
        ensures count { self.new.count ≡ self.old.count }
    {
        self.positives[i] = c.positive;
        self.negatives[i] = c.negative;
    }

    // Keeps what is left of the open clauses, in place.
    pub fn compact(&mut self, a: Assignment)
        ensures { formula_in self.new ≡ formula_at (formula_in self.old) a }
    {
        let mut kept = 0;
        for i in 0..self.count {
            let c = self.clause(i);
            if !a.satisfies(c) {
                self.put(kept, left(a, c));
                kept += 1;
            }
        }
        self.count = kept;
    }

    // The number of the first clause that names v, or of all clauses.
    fn first_named(&self, v: usize) -> usize
        requires { v < 64 }
        ensures passed { (result ≤ self.now.count) × (unnamed (clauses_of self.now) v result ≡ clauses_in self.now.positives self.now.negatives result) }
        ensures named { result < self.now.count → bit (clause_variables (clause_in self.now.positives self.now.negatives result)) v ≡ true }
    {
        for i in 0..self.count {
            if masks::member(self.clause(i).variables(), v) {
                return i;
            }
        }
        self.count
    }

    // Keeps the clauses that do not name v, in place. Those before the first that names it need no store.
    fn drop_named(&mut self, v: usize)
        requires { v < 64 }
        ensures { clauses_of self.new ≡ unnamed (clauses_of self.old) v self.old.count }
    {
        let mut kept = self.first_named(v);
        for i in kept..self.count {
            let c = self.clause(i);
            if !masks::member(c.variables(), v) {
                self.put(kept, c);
                kept += 1;
            }
        }
        self.count = kept;
    }

    // What the clauses name.
    pub fn survey(&self) -> Survey
        ensures { result ≡ survey_of (clauses_of self.now) }
    {
        let mut s = Survey::none();
        for i in 0..self.count {
            s = s.with(self.clause(i));
        }
        s
    }

    // Some clause of the node names nothing.
    fn has_empty(&self, a: Assignment) -> bool
        ensures { result ≡ some_empty (node (formula_in self.now) a) }
    {
        for i in 0..self.count {
            let c = self.clause(i);
            if !a.satisfies(c) && left(a, c).variables() == 0 {
                return true;
            }
        }
        false
    }

    // Writes the variables that each clause of the node names, and gives the number of clauses.
    fn gather(&self, a: Assignment, sets: &mut [u64; MAX_CLAUSES]) -> usize
        ensures number { result ≡ length (node (formula_in self.now) a) }
        ensures variables { sets.new ≡ over (map clause_variables (node (formula_in self.now) a)) sets.old }
    {
        let mut written = 0;
        for i in 0..self.count {
            let c = self.clause(i);
            if !a.satisfies(c) {
                sets[written] = left(a, c).variables();
                written += 1;
            }
        }
        written
    }

    // Matches the clauses of the node, from nothing.
    pub fn match_with(&self, a: Assignment) -> Matching
        ensures { result ≡ matching_at (formula_in self.now) a }
    {
        let mut sets = [0; MAX_CLAUSES];
        let written = self.gather(a, &mut sets);
        matching::match_sets(&sets, written)
    }

    // Strips pure literals, the lowest first, until there is none, from a copy. No variable is noted twice, so that as many turns as
    // variables are enough.
    pub fn reduce(&self, variables: usize) -> Reduced
        ensures { result ≡ reduce_from variables (formula_in self.now) unassigned 0 0 }
    {
        let mut copy = *self;
        let mut r = Reduced {
            assignment: Assignment::none(),
            noted: 0,
            last: 0,
            survey: copy.survey(),
        };
        for _ in 0..variables {
            let pure = r.survey.positive ^ r.survey.negative;
            if pure == 0 {
                return r;
            }
            let v = masks::lowest(pure);
            copy.drop_named(v);
            r = Reduced {
                assignment: r.assignment.with(v, masks::member(r.survey.positive, v)),
                noted: masks::with(r.noted, v),
                last: v,
                survey: copy.survey(),
            };
        }
        r
    }

    // S6.3: a trial of v: the clauses are matched with v false and, unless this fails, also with v true.
    fn try_variable(&self, v: usize) -> Trial
        requires { v < 64 }
        ensures { result ≡ tried (formula_in self.now) unassigned v }
    {
        let when_false = self.match_with(Assignment::none().with(v, false));
        if when_false.found.is_err() {
            return Trial {
                passes: false,
                cost: when_false.expansions,
            };
        }
        let when_true = self.match_with(Assignment::none().with(v, true));
        Trial {
            passes: when_true.found.is_ok(),
            cost: when_false.expansions + when_true.expansions,
        }
    }

    // How many of the clauses name each variable, either way.
    pub fn count_names(&self) -> Counts
        ensures { (v : ℕ) → count_at result v ≡ occurrences_in (clauses_of self.now) v }
    {
        let mut counts = Counts::none();
        for i in 0..self.count {
            counts = counts.with(self.clause(i).variables());
        }
        counts
    }

    // Tries the counted variables, the busiest first and of equally busy ones the lowest, until one passes.
    pub fn first_passing(&self, counts: Counts) -> Choice
        ensures { result ≡ passing (formula_in self.now) unassigned (by_count (count_at counts) 64 max_count) 0 }
    {
        let mut rest = counts.counted();
        let mut cost = 0;
        while rest != 0 {
            let v = counts.busiest(rest);
            let t = self.try_variable(v);
            cost += t.cost;
            if t.passes {
                return Choice::both_open(v, cost);
            }
            rest = masks::without(rest, v);
        }
        Choice::both_open(0, cost)
    }

    // The last listed variable, with the values that empty no clause open.
    pub fn last_listed(&self, v: usize) -> Choice
        requires { v < 64 }
        ensures { result ≡ listed_last (formula_in self.now) unassigned v }
    {
        Choice {
            variable: v,
            false_open: !self.has_empty(Assignment::none().with(v, false)),
            true_open: !self.has_empty(Assignment::none().with(v, true)),
            expansions: 0,
        }
    }
}
