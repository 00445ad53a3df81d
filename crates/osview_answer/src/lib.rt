//! The answers of `osview`: from the files of a program and of an input to lines for who wrote the program.
//!
//! `answer_report` reads both files as `osrun run` does, runs the program over the input, and hands over what the run came to in
//! sentences: with the lines of tasks and the names of streams as they stand in the program's text. `answer_stream` hands over the
//! elements of one of its streams, a line each, `answer_steps` how many steps `main` and its tasks take, `answer_graph` a graph of the run,
//! and `answer_explain` why one of its activations never ran. Where a file is refused they tell the same as `osrun run`.
//!
//! What is told is a definition over the meaning of the program, `IsReportOf`, `AreElementsOf`, `AreStepsOf`, `IsGraphOf` and
//! `IsExplanationOf`; what a call leaves is `AnswersReport`, `AnswersStream`, `AnswersSteps`, `AnswersGraph` and `AnswersExplain`. The lines
//! themselves are put together in `osview_sentences`, `osview_stream`, `osview_steps` and `osview_graph`.
#![tactic(auto)]

mod answer;
mod explain_answer;
mod explain_job;
mod explain_telling;
mod explanation;
mod graph_answer;
mod graph_job;
mod graph_telling;
mod lines;
mod main_run;
mod names;
mod outcomes;
mod source;
mod steps_answer;
mod steps_telling;
mod stream_answer;
mod stream_job;
mod stream_telling;
mod telling;

pub use answer::answer_report;
pub use explain_answer::answer_explain;
pub use explain_job::ExplainJob;
pub use graph_answer::answer_graph;
pub use graph_job::GraphJob;
pub use osview_graph::GraphChoice;
pub use steps_answer::answer_steps;
pub use stream_answer::answer_stream;
pub use stream_job::StreamJob;
