//! The answers of the command, request by request: from a job and its files to output, report and status.
//!
//! `answer_run` reads the files of a run, runs its program over its input and hands over what comes of it, or tells why there is
//! no run; `make_run` is that way up to the sinks, a line a stop. `answer_exec` does the same with the object of a code in the place
//! of the program's text, and `answer_compile` writes the object of a program's code. `answer_explain` makes the run of a program as
//! `answer_run` does, and writes one line that tells why one of its activations is starved. `answer_trace` makes it over one table, and
//! writes which activations each worker ran. `answer_replay` runs a program by what such a trace says, or tells what is wrong with it.
//! `answer_gen` makes the input itself and runs a kernel over it, by the same `run_program`.
//!
//! What a request is meant to give is one relation, `IsOutcome`, of the bytes that were read, the request, and output, report and
//! status. What a call leaves is one record, `AnswersRequest`: the status and its cause, what the sinks took, and what was opened
//! and read in which order. `laws` has what follows from the two, for every program, input, file and sink.
#![tactic(auto)]

mod compile_answer;
mod exec_answer;
mod explain_answer;
mod gen_answer;
mod gen_text;
pub mod laws;
mod make_exec;
mod make_explain;
mod make_object;
mod make_replay;
mod make_run;
mod make_trace;
mod replay_answer;
mod run_answer;
mod trace_answer;

pub use compile_answer::answer_compile;
pub use exec_answer::answer_exec;
pub use explain_answer::answer_explain;
pub use gen_answer::answer_gen;
pub use replay_answer::answer_replay;
pub use run_answer::answer_run;
pub use trace_answer::answer_trace;
