// The two questions to the desk in lent memory. report: the rows of a sheet. who: who typed an item.
#![tactic(auto)]

pub mod report;
pub mod who;
