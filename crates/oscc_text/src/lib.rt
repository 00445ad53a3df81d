//! The C of a code: what a C compiler makes a program of, with the runtime beside it, that does what the machine does with the code.
//!
//! `c_text` takes a code and gives its C: a function for each unit, with one row of C for each instruction, over the slots and the operand
//! stack of the unit; and tables of the sites. Its promise is the definition `c_of` in `specs/Program.antt`, in which `row` of
//! `specs/Rows.antt` is the table of what stands for each instruction. That a C compiler gives those rows the meaning of the machine is no
//! clause's: who wants to believe it reads that table beside `os_code::Instr`, and the runtime's page `runtime/osrt.h`.
#![tactic(auto)]

mod lists;
mod names;
mod pieces;
mod program;
mod regions;
mod rows;
mod sites;
mod targets;
mod units;

pub use program::c_text;
