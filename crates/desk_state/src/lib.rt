// What the desk holds (document 01).
// line: an unfinished line. sheet: items and count. desk: lines and sheets.
#![tactic(auto)]

pub mod desk;
pub mod line;
pub mod sheet;
