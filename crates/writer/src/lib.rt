// Question files written (document 02, "Paper 5. Question authors write files"): the record is looked at, then the output's length, and then the file is written.
#![tactic(auto)]

pub mod calls;
mod files;
mod outlines;
