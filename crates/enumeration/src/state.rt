// Where a walk stands, and how a step changes it.
ghost use Rattle.std.specs.Prelude.{◌≡◌, ◌-◌, ◌<◌, ◌≤◌, get_or};
ghost use Rattle.limits.specs.Limits.{max_variables};
ghost use Rattle.walk.specs.InnerStack.{empty, Tree};
ghost use Rattle.walk.specs.InnerTest.{mode_of, shown};
ghost use Rattle.enumeration.specs.InnerState.{position_in, Holds, Numbered, turning, pushing, popping, marked_as};
ghost use Rattle.enumeration.specs.InnerRead.{Node, noted};
ghost use Rattle.enumeration.specs.Values.{checkpoint_values};

use crate::checkpoint::{Checkpoint, byte_of, number_of};
use crate::scope::Task;
use formula::Assignment;
use limits::MAX_VARIABLES;

// The places of a walk: a variable is assigned next, or the model handed out; the model was handed out; false was undone; true was
// undone; the end is behind.
#[derive(Clone, Copy)]
pub enum Place {
    Down,
    Full,
    UndoneFalse,
    UndoneTrue,
    Over,
}

// Where a walk stands. The trail is a checkpoint's: `length` bytes, then zeros. `open_true` has, for each depth at which false stands or
// was undone last, whether true is open there; `variable` is the one undone last. `clear` has, of the depths up to the trail's end, those
// at which it is known that no clause is left.
//
// A step writes the one byte of the trail that it changes in place, since to copy the bytes just after a byte was written is slow.
#[derive(Clone, Copy)]
pub struct State {
    pub place: Place,
    pub variable: usize,
    pub length: usize,
    pub bytes: [u8; MAX_VARIABLES],
    pub assignment: Assignment,
    pub open_true: u64,
    pub clear: u64,
}

// The mask with or without v.
pub fn mark(mask: u64, v: usize, value: bool) -> u64
    requires { v < 64 }
    ensures { result ≡ marked_as mask v value }
{
    if value {
        masks::with(mask, v)
    } else {
        masks::without(mask, v)
    }
}

impl Task {
    // The state at the first node: what is assigned before, and no variable of the trail.
    pub fn root(&self) -> State
        ensures { (K : Tree) → K.size ≤ max_variables → K.before ≡ self.now.scope.before → Node K empty result }
    {
        State {
            place: Place::Down,
            variable: 0,
            length: 0,
            bytes: [0u8; MAX_VARIABLES],
            assignment: self.scope.before,
            open_true: 0,
            clear: 0,
        }
    }
}

impl State {
    // Whether false was undone and true is open after it.
    pub(crate) fn turns(&self) -> bool
        requires { self.now.length < 64 }
        ensures { result ≡ turning self.now }
    {
        matches!(self.place, Place::UndoneFalse) && masks::member(self.open_true, self.length)
    }

    // Notes whether true is open at the state's depth, and whether no clause is left there.
    pub(crate) fn note(&mut self, true_open: bool, free: bool)
        requires { self.old.length < max_variables }
        ensures { self.new ≡ noted self.old true_open free }
    {
        self.place = Place::Down;
        self.open_true = mark(self.open_true, self.length, true_open);
        self.clear = mark(self.clear, self.length, free);
    }

    // Assigns v as well.
    pub(crate) fn push(&mut self, v: usize, value: bool)
        requires { (v < max_variables) × (self.old.length < max_variables) }
        ensures { self.new ≡ pushing self.old v value }
    {
        let at = self.length;
        self.place = Place::Down;
        self.variable = v;
        self.length = at + 1;
        self.bytes[at] = byte_of(v, value);
        self.assignment = self.assignment.with(v, value);
        self.clear = mark(self.clear, at + 1, masks::member(self.clear, at));
    }

    // Undoes the last assigned variable.
    pub(crate) fn pop(&mut self)
        requires { (0 < self.old.length) × (self.old.length ≤ max_variables) × Numbered (get_or self.old.bytes (self.old.length - 1) 0) }
        ensures { self.new ≡ popping self.old }
    {
        let at = self.length - 1;
        let b = self.bytes[at];
        let v = number_of(b) - 1;
        if 128 <= b {
            self.place = Place::UndoneTrue;
            self.assignment.trues = masks::without(self.assignment.trues, v);
        } else {
            self.place = Place::UndoneFalse;
            self.assignment.falses = masks::without(self.assignment.falses, v);
        }
        self.variable = v;
        self.length = at;
        self.bytes[at] = 0;
    }

    // S7.3: the mode of the state's checkpoint.
    fn mode(self) -> u8
        ensures { (K : Tree) → Holds K self → result ≡ mode_of (position_in self) }
    {
        match self.place {
            Place::Down if self.length == 0 => 0,
            Place::Down | Place::Full => 1,
            Place::UndoneFalse => 2,
            Place::UndoneTrue => 3,
            Place::Over => 4,
        }
    }

    // The checkpoint of the state.
    pub fn checkpoint(self) -> Checkpoint
        requires { self.length ≤ max_variables }
        ensures { (K : Tree) → Holds K self → checkpoint_values result ≡ shown (position_in self) }
    {
        let bytes = self.bytes;
        Checkpoint {
            mode: self.mode(),
            length: self.length as u8,
            bytes,
        }
    }
}
