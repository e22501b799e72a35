// DIMACS CNF text: read into an encoded formula, and written from one (S15, S16).
#![tactic(auto)]

mod opening;
mod piece;
mod reader;
mod scan;
mod writer;

pub use reader::read;
pub use writer::write;
