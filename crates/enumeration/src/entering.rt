// The one way into a walk: from which state a call goes on, or its refusal, once the input was read and accepted.
ghost use Rattle.std.specs.Prelude.{List, ℕ};
ghost use Rattle.assumptions.specs.declared.Assumption.{Assumption};
ghost use Rattle.enumeration.specs.InnerEnter.{WalkedAs, Enters};
ghost use Rattle.enumeration.specs.Values.{checkpoint_values};

use crate::checkpoint::Checkpoint;
use crate::scope::Task;
use crate::state::State;
use formula::Refusal;

impl Task {
    // The state of a checkpoint in the walk of an accepted input, or 11.
    pub fn enter(&self, c: Checkpoint) -> Result<State, Refusal>
        requires { (s : List ℕ) × (us : List Assumption) × WalkedAs s us self.now.formula self.now.scope }
        ensures { (s : List ℕ) (us : List Assumption) → WalkedAs s us self.now.formula self.now.scope
            → Enters s us self.now.formula self.now.scope (checkpoint_values c) result }
    {
        self.read_checkpoint(c).ok_or(Refusal::ForeignCheckpoint(0))
    }
}
