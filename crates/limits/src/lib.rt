// The limits of a formula: the most variables and the most clauses (S1.2).
//
// The arrays and bounds of the other crates that rest on them are written by these names.
#![tactic(auto)]

// The most variables that a formula has (request: switches).
pub const MAX_VARIABLES: usize = 48;

// The most clauses (request: rules).
pub const MAX_CLAUSES: usize = 96;
