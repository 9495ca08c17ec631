// The line of document 01, "A line, a number": its parts, and its number.
#![tactic(auto)]

pub mod line;
