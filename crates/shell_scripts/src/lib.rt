//! A shell for the node: it reads a script and writes what its lines came to.
//!
//! Knows: the grammar of scripts, and the text of every answer, record, row, leaf and refusal.
//! Must not know: how the node keeps its records, its log or its messages; what it reads from and writes to; the command
//! line.
//! Promises the programs above that what is written is the text of the script that was read: a line's text is that
//! of the node's own answer to it, nothing else is written, and the exit status says how the script ended.
#![tactic(auto)]

mod answers;
mod components;
mod failures;
mod label;
mod leaves;
mod line;
mod line_result;
mod logged;
mod looked;
mod looking;
mod looks;
mod names;
mod operations;
mod outcome;
mod parsing;
mod pieces;
mod printed;
mod row_list;
mod rows;
mod script;
mod script_run;
mod shell;
mod shown;
mod stopping;
mod told;
mod words;

pub use answers::value_piece;
pub use label::{Label, Labels};
pub use line::{Call, Component, Device, Kind, LeafCall, Line, Look, Part, Written};
pub use line_result::LineResult;
pub use logged::print_record;
pub use looked::{print_out_so, print_told_so};
pub use looks::Looks;
pub use pieces::{Piece, print, put};
pub use printed::print_refusal;
pub use rows::{print_row, print_table};
pub use script::{cut_at, first_fault, is_fault, request};
pub use script_run::{DONE, FAILED, FAULT, refusal_of, refuse, run, run_line, run_on};
pub use shell::{Shell, event_called, op_of};
pub use stopping::Stopping;
pub use told::print_told;
pub use words::{number_of, written};

// What a crate above names of those below.
pub use node_world;
pub use row_ranges;
