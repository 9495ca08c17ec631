// Rows 13 to 25 and the profiles in every report of a sound desk (document 02, No. 11 and 12). No code.
#![tactic(auto)]
