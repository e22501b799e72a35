// Theory only: the cases at the edges that are proved, as one table.
//
// The table is in specs/MarkedCases.antt.
#![tactic(auto)]
