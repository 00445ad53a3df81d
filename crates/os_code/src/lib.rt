//! The code of the machine: what a code is, when it is valid, and what the machine does with it.
//!
//! `Instr` is the table of instructions; units, sites and instructions make a `Code`. A `Code` is valid (`specs/IsValid`):
//! everything that it names is in range, and the operand stack has one height at each instruction. `specs/Machine` says
//! what one step does and what a run is, `specs/Tasks` what an activation's end is, `specs/Control` what `main` makes.
//! `Code::new` takes valid parts and finds out what the chains of calls need of operands and slots, and which form begins at
//! each place: the instruction that stands there, or up to five that a loop over the code may take in one turn (`Form`).
//! `end_of_region` finds where the region of a unit ends.
//!
//! Valid codes are never stuck, and a run with a budget b ends within (b + 1) * (code length + 1) steps: the laws stand
//! in `laws`, with those for whoever makes a code or goes on with a run.
#![tactic(auto)]

mod code;
mod form;
mod forms;
mod instr;
pub mod laws;
mod needs;
mod parts;
mod region;
mod site;
mod unit;

pub use c_int::{Binary, Unary};
pub use code::Code;
pub use form::Form;
pub use instr::Instr;
pub use parts::Parts;
pub use region::end_of_region;
pub use site::{Site, SiteItem};
pub use unit::CodeUnit;
