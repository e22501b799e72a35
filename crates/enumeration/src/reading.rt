// S7.4: the test of a checkpoint, for refusal 11: its trail is assigned again, then its mode's place is taken.
ghost use Rattle.std.specs.Prelude.{◌≡◌, ◌-◌, ◌≤◌, true, cond, eqb, Some, None};
ghost use Rattle.formula.specs.InnerFits.{FormulaFits};
ghost use Rattle.splitting.specs.Terms.{opened};
ghost use Rattle.walk.specs.Checkpoints.{byte_number, byte_value, undone_mode};
ghost use Rattle.walk.specs.InnerStack.{push, Tree};
ghost use Rattle.walk.specs.InnerTest.{formed, read, fits, accepts};
ghost use Rattle.enumeration.specs.InnerState.{stack_in, Follows, Holds, Valid};
ghost use Rattle.enumeration.specs.InnerRead.{HasTree, Node, Replayed, PlaceTaken};
ghost use Rattle.enumeration.specs.Values.{checkpoint_values};

use crate::checkpoint::{Checkpoint, number_of};
use crate::scope::Task;
use crate::state::{Place, State, mark};
use crate::steps::Picked;
use splitting::Choice;

// The value is open to the chosen variable.
fn is_open(c: Choice, value: bool) -> bool
    ensures { result ≡ opened c value }
{
    if value { c.true_open } else { c.false_open }
}

// The state, if nothing is assigned.
fn at_root(s: State) -> Option<State>
    ensures { result ≡ cond (eqb s.length 0) (Some s) None }
{
    (s.length == 0).then_some(s)
}

impl Task {
    // The state with a byte's variable assigned again, if it is the chosen one and its value open.
    fn replay_byte(&self, mut s: State, b: u8) -> Option<State>
        requires { FormulaFits self.now.formula × Valid self.now.formula self.now.scope s × (1 ≤ byte_number b) }
        ensures { (K : Tree) → Follows self.now.formula self.now.scope K → Holds K s → Replayed K (push (byte_number b - 1) (byte_value b) (stack_in s)) result }
    {
        if s.length == self.scope.size {
            return None;
        }
        let Picked { choice, free } = self.pick(&s);
        let value = 128 <= b;
        if number_of(b) != choice.variable + 1 || !is_open(choice, value) {
            return None;
        }
        s.note(choice.true_open, free);
        s.push(choice.variable, value);
        Some(s)
    }

    // The state with the checkpoint's variables assigned again, if a walk assigns them.
    fn replay(&self, c: Checkpoint) -> Option<State>
        requires { FormulaFits self.now.formula × HasTree self.now.formula self.now.scope × (formed (checkpoint_values c) ≡ true) }
        ensures { (K : Tree) → Follows self.now.formula self.now.scope K → Replayed K (read (checkpoint_values c)) result }
    {
        let mut s = self.root();
        for b in &c.bytes[..usize::from(c.length)] {
            s = self.replay_byte(s, *b)?;
        }
        Some(s)
    }

    // S7.4: the state at a node where a value of the chosen variable was undone, if a walk comes there.
    fn take_undone(&self, s: State, value: bool) -> Option<State>
        requires { FormulaFits self.now.formula × Valid self.now.formula self.now.scope s }
        ensures { (K : Tree) → Follows self.now.formula self.now.scope K → Node K (stack_in s) s → PlaceTaken K (undone_mode value) (stack_in s) (fits K (undone_mode value) (stack_in s)) result }
    {
        if s.length == self.scope.size {
            return None;
        }
        let c = splitting::choose(&self.formula, self.scope.mask, s.assignment);
        if value {
            if s.length == 0 || !c.true_open {
                return None;
            }
            return Some(State {
                place: Place::UndoneTrue,
                ..s
            });
        }
        if !c.false_open || (s.length == 0 && !c.true_open) {
            return None;
        }
        Some(State {
            place: Place::UndoneFalse,
            variable: c.variable,
            open_true: mark(s.open_true, s.length, c.true_open),
            ..s
        })
    }

    // S7.4: the state of a checkpoint's mode at the node of its trail, if a walk comes there.
    fn take_place(&self, s: State, mode: u8) -> Option<State>
        requires { FormulaFits self.now.formula × Valid self.now.formula self.now.scope s }
        ensures { (K : Tree) → Follows self.now.formula self.now.scope K → Node K (stack_in s) s → PlaceTaken K mode (stack_in s) (fits K mode (stack_in s)) result }
    {
        match mode {
            0 => at_root(s),
            1 => {
                if s.length == self.scope.size {
                    Some(State {
                        place: Place::Full,
                        ..s
                    })
                } else if s.length != 0 {
                    Some(s)
                } else {
                    None
                }
            }
            2 => self.take_undone(s, false),
            3 => self.take_undone(s, true),
            _ => at_root(State {
                place: Place::Over,
                ..s
            }),
        }
    }

    // S7.4: the state that a checkpoint stands for, if the walk has such a checkpoint.
    pub(crate) fn read_checkpoint(&self, c: Checkpoint) -> Option<State>
        requires { FormulaFits self.now.formula × HasTree self.now.formula self.now.scope }
        ensures { (K : Tree) → Follows self.now.formula self.now.scope K → PlaceTaken K c.mode (read (checkpoint_values c)) (accepts K (checkpoint_values c)) result }
    {
        if !c.is_well_formed() {
            return None;
        }
        let s = self.replay(c)?;
        self.take_place(s, c.mode)
    }
}
