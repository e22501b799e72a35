// Test vectors as they stand in the files of a corpus, and the comparison of an answer with the expected one.
//
// The program `cases` runs them; how the files are written stands there. Here are the vectors of check, which need nothing but the reader.
#![tactic(auto)]

pub mod answers;
pub mod checking;
pub mod comparing;
pub mod corpus;
pub mod report;
pub mod totals;
