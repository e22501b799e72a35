// Matching clauses to variables by breadth-first augmenting search, over masks (S5, S22).
//
// It knows no signs and no bytes: a clause is the mask of its variables, and clauses and variables count from 0.
#![tactic(auto)]

ghost use Rattle.std.specs.Prelude.{◌≡◌, suc, ◌<◌, ◌≤◌, length, take, All};
ghost use Rattle.std.specs.Option.{ForSome};
ghost use Rattle.limits.specs.Limits.{max_clauses};
ghost use Rattle.masks.specs.Mask.{size};
ghost use Rattle.matching.specs.Search.{outcome};
ghost use Rattle.matching.specs.Result.{Clauses, packed};
ghost use Rattle.matching.specs.Deficiency.{most};

use limits::MAX_CLAUSES;

// The clauses that a failed search took off its queue: how many they are, and for each clause 1 if it is one of them, else 0.
#[derive(Clone, Copy)]
pub struct Violator {
    pub size: usize,
    pub marks: [u8; MAX_CLAUSES],
}

// How many expansions were made, and what was found: the variables of the clauses, zeros behind them, or the violator.
#[derive(Clone, Copy)]
pub struct Matching {
    pub expansions: u64,
    pub found: Result<[u8; MAX_CLAUSES], Violator>,
}

// A matching of the first clauses: the variable of each of them, zeros behind, and the clause of each variable that is matched.
#[derive(Clone, Copy)]
struct Pairs {
    table: [u8; MAX_CLAUSES],
    owners: [Option<u8>; 64],
    ghost owned: { All (λ owner. ForSome owner (λ clause. clause < max_clauses)) owners },
}

// The clauses that joined a search's queue, and for each seen variable the clause that it remembers.
#[derive(Clone, Copy)]
struct Queue {
    clauses: [u8; MAX_CLAUSES],
    links: [u8; 64],
    ghost long: { length clauses ≡ max_clauses },
    ghost low: { All (λ clause. clause < max_clauses) clauses },
}

// Where a search stands: the seen variables, how many clauses are taken off the queue and how many joined it, and the unmatched
// variable that was found. Each clause but the first joined with a variable of its own, so that the queue has room.
#[derive(Clone, Copy)]
struct Front {
    seen: u64,
    head: usize,
    tail: usize,
    free: Option<usize>,
    ghost counted: { tail ≤ suc (size seen) },
    ghost variable: { ForSome free (λ v. v < 64) },
}

impl Front {
    ghost use Rattle.std.specs.Prelude.{false};
    ghost use Rattle.masks.specs.Mask.{bit, members};
    ghost use Rattle.matching.specs.Search.{see, scan, expand};
    ghost use Rattle.matching.specs.Inner.{owner_in, search_of, Apart};

    // The clause goes through its unseen variable v.
    fn see(mut self, pairs: &Pairs, clause: u8, v: usize, queue: &mut Queue) -> Self
        requires { (v < 64) × (bit self.seen v ≡ false) }
        ensures { search_of result queue.new ≡ see (owner_in pairs.now) clause v (search_of self queue.old) }
    {
        queue.links[v] = clause;
        self.seen = masks::with(self.seen, v);
        self.free = match pairs.owners[v] {
            None => Some(v),
            Some(owner) => {
                queue.clauses[self.tail] = owner;
                self.tail += 1;
                None
            }
        };
        self
    }

    // The clause goes through its unseen variables upward, until one is unmatched.
    fn scan(self, pairs: &Pairs, clause: u8, unseen: u64, queue: &mut Queue) -> Self
        requires { (self.free ≡ None) × Apart unseen self.seen }
        ensures { search_of result queue.new ≡ scan (owner_in pairs.now) clause (members unseen 64) (search_of self queue.old) }
    {
        let mut front = self;
        let mut rest = unseen;
        while rest != 0 {
            let v = masks::lowest(rest);
            rest = masks::without(rest, v);
            front = front.see(pairs, clause, v, queue);
            if front.free.is_some() {
                return front;
            }
        }
        front
    }

    // The front clause is taken off the queue and goes through its variables: one expansion.
    fn expand(mut self, sets: &[u64; MAX_CLAUSES], pairs: &Pairs, queue: &mut Queue) -> Self
        requires { (self.free ≡ None) × (self.head < self.tail) }
        ensures { search_of result queue.new ≡ expand sets.now (owner_in pairs.now) (search_of self queue.old) }
    {
        let clause = queue.clauses[self.head];
        let unseen = masks::minus(sets[usize::from(clause)], self.seen);
        self.head += 1;
        self.scan(pairs, clause, unseen, queue)
    }
}

impl Queue {
    ghost use Rattle.matching.specs.Search.{search_from, begin, search_bound, marks};
    ghost use Rattle.matching.specs.Inner.{owner_in, search_of};

    // Nothing has joined.
    fn new() -> Self {
        Queue {
            clauses: [0; MAX_CLAUSES],
            links: [0; 64],
        }
    }

    // The clause alone is in the queue, and no variable is seen yet.
    fn begin(&mut self, clause: u8) -> Front
        requires { clause < max_clauses }
        ensures { search_of result self.new ≡ begin clause }
    {
        self.clauses[0] = clause;
        self.links = [0; 64];
        Front {
            seen: 0,
            head: 0,
            tail: 1,
            free: None,
        }
    }

    // The search for one clause: until an augmenting path is found or the queue is empty.
    fn find_path(&mut self, sets: &[u64; MAX_CLAUSES], pairs: &Pairs, clause: u8) -> Front
        requires { clause < max_clauses }
        ensures { search_of result self.new ≡ search_from search_bound sets.now (owner_in pairs.now) (begin clause) }
    {
        let mut front = self.begin(clause);
        while front.head < front.tail {
            front = front.expand(sets, pairs, self);
            if front.free.is_some() {
                return front;
            }
        }
        front
    }

    // The first n clauses of the queue as a violator.
    fn violator(&self, n: usize) -> Violator
        requires { n ≤ max_clauses }
        ensures { result ≡ record { size = n; marks = marks max_clauses (take n self.now.clauses) } }
    {
        let mut marks = [0; MAX_CLAUSES];
        for clause in &self.clauses[..n] {
            marks[usize::from(*clause)] = 1;
        }
        Violator { size: n, marks }
    }
}

impl Pairs {
    ghost use Rattle.std.specs.Prelude.{[]};
    ghost use Rattle.matching.specs.Search.{rematch};
    ghost use Rattle.matching.specs.Inner.{numbers_in, Tables, Augments, Stored, Augmented};

    // No clause is matched.
    fn new() -> Self
        ensures { Stored [] result.table (numbers_in result) }
    {
        Pairs {
            table: [0; MAX_CLAUSES],
            owners: [None; 64],
        }
    }

    // S5.4: re-matches along the path from v back to the clause, so that the first clauses and this one are matched, a link a turn.
    fn rematch(&mut self, links: &[u8; 64], clause: usize, v: usize)
        requires { Augments clause self.old.table (numbers_in self.old) links.now v }
        ensures { Stored (rematch links.now (take clause self.old.table) v) self.new.table (numbers_in self.new) }
    {
        let mut u = v;
        loop {
            let c = usize::from(links[u]);
            let old = usize::from(self.table[c]);
            self.table[c] = u as u8;
            self.owners[u] = Some(c as u8);
            if c == clause {
                return;
            }
            u = old;
        }
    }

    // The next clause is matched too, unless its search fails.
    fn augment(&mut self, sets: &[u64; MAX_CLAUSES], clause: usize, queue: &mut Queue) -> Front
        requires { Tables sets.now clause self.old.table (numbers_in self.old) × (clause < max_clauses) }
        ensures { Augmented sets.now (take clause self.old.table) result queue.new.clauses self.new.table (numbers_in self.new) }
    {
        let front = queue.find_path(sets, self, clause as u8);
        if let Some(v) = front.free {
            self.rematch(&queue.links, clause, v);
        }
        front
    }
}

// Matches the first `count` clauses in order, each by its search, until all are matched or a search fails.
pub fn match_sets(sets: &[u64; MAX_CLAUSES], count: usize) -> Matching
    requires { Clauses sets.now count }
    ensures { result ≡ packed count (outcome (take count sets.now)) }
{
    let mut pairs = Pairs::new();
    let mut queue = Queue::new();
    let mut expansions: u64 = 0;
    for clause in 0..count {
        let front = pairs.augment(sets, clause, &mut queue);
        expansions += front.head as u64;
        if front.free.is_none() {
            return Matching {
                expansions,
                found: Err(queue.violator(front.head)),
            };
        }
    }
    Matching {
        expansions,
        found: Ok(pairs.table),
    }
}

// S22.1: the most of the first `count` clauses that can be matched together. A clause whose search succeeds is kept; one whose search
// fails is left aside, and the next one takes its place.
pub fn match_most(sets: &[u64; MAX_CLAUSES], count: usize) -> usize
    requires { Clauses sets.now count }
    ensures { result ≡ most (take count sets.now) }
{
    let mut kept = [0; MAX_CLAUSES];
    let mut pairs = Pairs::new();
    let mut queue = Queue::new();
    let mut k: usize = 0;
    for i in 0..count {
        kept[k] = sets[i];
        if pairs.augment(&kept, k, &mut queue).free.is_some() {
            k += 1;
        }
    }
    k
}
