use crate::argument::Argument;
use flow_core_laws::{BUDGET_LIMIT, LAST_ACTIVATION, WORKERS_LIMIT};
use osrun_core_jobs::{BLOCKS_LIMIT, SEED_LIMIT};

/// A command: the first word, which picks it, and what it takes.
#[derive(Clone, Copy)]
pub struct CommandForm<'a> {
    pub word: &'a str,
    /// In the order in which those without a long name stand in the words.
    pub arguments: &'a [Argument<'a>],
}

/// The name of the program's file.
pub const PROGRAM: Argument<'static> = Argument::Name { id: "PROGRAM" };

/// The name of the input's file.
pub const INPUT: Argument<'static> = Argument::Name { id: "INPUT" };

/// The name of the object's file.
pub const OBJECT: Argument<'static> = Argument::Name { id: "OBJECT" };

/// The name of the trace's file.
pub const TRACE_FILE: Argument<'static> = Argument::Name { id: "TRACE" };

/// How many workers make a run. The default is `DEFAULT_WORKERS` in decimal, as the law `words_have_defaults` says.
pub const WORKERS: Argument<'static> = Argument::Option {
    id: "workers",
    default: "4",
    least: 1,
    most: WORKERS_LIMIT as u64,
};

/// How many turns each task of a run may take. The default is `DEFAULT_BUDGET` in decimal.
pub const TASK_BUDGET: Argument<'static> = Argument::Option {
    id: "budget",
    default: "1000000",
    least: 0,
    most: BUDGET_LIMIT,
};

/// How many turns the control program of a run may take. The default is `DEFAULT_BUDGET` in decimal.
pub const CONTROL_BUDGET: Argument<'static> = Argument::Option {
    id: "control",
    default: "1000000",
    least: 0,
    most: BUDGET_LIMIT,
};

/// What the bytes are made from.
pub const SEED: Argument<'static> = Argument::Number {
    id: "SEED",
    least: 0,
    most: SEED_LIMIT as u64,
};

/// How many blocks of four bytes are made.
pub const BLOCKS: Argument<'static> = Argument::Number {
    id: "BLOCKS",
    least: 1,
    most: BLOCKS_LIMIT as u64,
};

/// The number of an activation, in the order in which the control program creates them.
pub const ACTIVATION: Argument<'static> = Argument::Number {
    id: "ACTIVATION",
    least: 0,
    most: LAST_ACTIVATION as u64,
};

/// Runs a program over an input.
pub const RUN: CommandForm<'static> = CommandForm {
    word: "run",
    arguments: &[PROGRAM, INPUT, WORKERS, TASK_BUDGET, CONTROL_BUDGET],
};

/// Makes bytes and runs a kernel over them.
pub const GEN: CommandForm<'static> = CommandForm {
    word: "gen",
    arguments: &[SEED, BLOCKS, WORKERS],
};

/// Writes the object of a program's code.
pub const COMPILE: CommandForm<'static> = CommandForm {
    word: "compile",
    arguments: &[PROGRAM],
};

/// Runs the code of an object over an input.
pub const EXEC: CommandForm<'static> = CommandForm {
    word: "exec",
    arguments: &[OBJECT, INPUT, WORKERS, TASK_BUDGET, CONTROL_BUDGET],
};

/// Tells why an activation of a run never runs.
pub const EXPLAIN: CommandForm<'static> = CommandForm {
    word: "explain",
    arguments: &[
        PROGRAM,
        INPUT,
        ACTIVATION,
        WORKERS,
        TASK_BUDGET,
        CONTROL_BUDGET,
    ],
};

/// Writes which activations each worker of a run runs.
pub const TRACE: CommandForm<'static> = CommandForm {
    word: "trace",
    arguments: &[PROGRAM, INPUT, WORKERS, TASK_BUDGET, CONTROL_BUDGET],
};

/// Runs a program over an input in the order that a trace tells.
pub const REPLAY: CommandForm<'static> = CommandForm {
    word: "replay",
    arguments: &[PROGRAM, INPUT, TRACE_FILE, TASK_BUDGET, CONTROL_BUDGET],
};
