// The sheet as a CIF file (document 02, No. 1).
// length: how long the file is. file: the writer.
#![tactic(auto)]

pub mod file;
mod length;
