// What a clerk types and reads: a line to a command, an answer to bytes, and one call for a line.
#![tactic(auto)]

pub mod choice;
pub mod command;
pub mod desk;
pub mod line;
pub mod office;
pub mod page;
pub mod print;
pub mod reader;
