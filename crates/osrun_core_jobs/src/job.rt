/// On which terms a program or a code is run.
#[derive(Clone, Copy, Debug)]
pub struct Terms {
    /// How many workers make the run, 1 to 64.
    pub workers: u32,
    /// How many turns each task may take, up to 1,000,000,000.
    pub task_budget: u64,
    /// How many turns the control program may take, up to 1,000,000,000.
    pub control_budget: u64,
}

/// A run of a program over an input. Both are names of files.
#[derive(Clone, Copy, Debug)]
pub struct Job<'w> {
    /// The name of the program's file.
    pub program: &'w str,
    /// The name of the input's file.
    pub input: &'w str,
    /// How many workers make the run, and how many turns it may take.
    pub terms: Terms,
}

/// A run of the kernel `lift` over bytes that are made from a seed.
#[derive(Clone, Copy, Debug)]
pub struct GenJob {
    /// What the bytes are made from, any 32 bits.
    pub seed: u32,
    /// How many blocks of four bytes are made, 1 to 65,536.
    pub blocks: u32,
    /// How many workers make the run, 1 to 64.
    pub workers: u32,
}

/// A program that is compiled, by the name of its file.
#[derive(Clone, Copy, Debug)]
pub struct CompileJob<'w> {
    /// The name of the program's file.
    pub program: &'w str,
}

/// A run of a code over an input. Both are names of files.
#[derive(Clone, Copy, Debug)]
pub struct ExecJob<'w> {
    /// The name of the object's file.
    pub object: &'w str,
    /// The name of the input's file.
    pub input: &'w str,
    /// How many workers make the run, and how many turns it may take.
    pub terms: Terms,
}

/// Why an activation of a run never runs. The run is that of a program over an input, by the names of their files.
#[derive(Clone, Copy, Debug)]
pub struct ExplainJob<'w> {
    /// The name of the program's file.
    pub program: &'w str,
    /// The name of the input's file.
    pub input: &'w str,
    /// The number of the activation, in the order in which the control program creates them, from 0 on and up to 65,535. There may
    /// be no such activation.
    pub activation: u32,
    /// How many workers make the run, and how many turns it may take.
    pub terms: Terms,
}

/// A run of a program over an input, in the order that a trace tells. All three are names of files.
#[derive(Clone, Copy, Debug)]
pub struct ReplayJob<'w> {
    /// The name of the program's file.
    pub program: &'w str,
    /// The name of the input's file.
    pub input: &'w str,
    /// The name of the trace's file.
    pub trace: &'w str,
    /// How many turns each task may take, up to 1,000,000,000.
    pub task_budget: u64,
    /// How many turns the control program may take, up to 1,000,000,000.
    pub control_budget: u64,
}

/// What the words ask for.
#[derive(Clone, Copy, Debug)]
pub enum Request<'w> {
    /// To run a program over an input.
    Run(Job<'w>),
    /// To make bytes, and to run a kernel over them.
    Gen(GenJob),
    /// To write the object of a program's code.
    Compile(CompileJob<'w>),
    /// To run the code of an object over an input.
    Exec(ExecJob<'w>),
    /// To tell why an activation never runs.
    Explain(ExplainJob<'w>),
    /// To run a program over an input, whole over one table, and to write which activations each worker ran, in which order.
    Trace(Job<'w>),
    /// To run a program over an input in the order that a trace tells.
    Replay(ReplayJob<'w>),
}
