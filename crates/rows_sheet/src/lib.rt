// The alert rows of documents 01, "The twelve rows", and 02, No. 11 and 12: all rows of a sheet.
#![tactic(auto)]

pub mod sheet_rows;
