//! The command line of the program round the shell.
//!
//! Knows: which subcommands and options there are, in which ranges, and the help for each, that of scripts too.
//! Must not know: what a node is, how a task is done, or where the words come from.
//! Promises the programs above that the task is the one that the words ask for, and that words are refused just where
//! they have a fault, ask for help, or where memory runs out.
#![tactic(auto)]

mod help;
mod task;

pub use task::{Task, choose};
