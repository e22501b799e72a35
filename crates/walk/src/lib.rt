// Theory only: the plain walk over a task, its machine, checkpoints, and the walk call on bytes.
#![tactic(auto)]
