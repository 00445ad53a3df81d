ghost use Rattle.std.specs.Prelude.{◌≡◌, ◌≤◌, [], length};
ghost use Rattle.os_ast.proofs.Unique.{leveled_once};
ghost use Rattle.os_ast.specs.Leveled.{IsLeveled};
ghost use Rattle.os_ast.specs.Marks.{HasPlaces};
ghost use Rattle.os_ast.specs.Spelling.{spell};
ghost use Rattle.os_ast.specs.Views.{program_tree};
ghost use Rattle.os_ast.specs.Violations.{violations, captured_by_tasks};
ghost use Rattle.os_ast.specs.Violations as rules;
ghost use Rattle.os_lexer.specs.Limits.{text_limit};

use os_ast::{Program, Resolved};
use os_io::List;

/// A program that violates no rule, with what its names mean.
#[derive(Drop)]
pub struct Checked {
    pub program: Program,
    /// What each name means that is used, or declares a parameter, or is a declarator's, in the order of the text.
    pub names: List<Resolved>,
    /// For each task, in the order of the text, the slots in `main` of the scalars that it captures. They are the first
    /// slots of the task, in this order.
    pub captured: List<List<u32>>,
    /// `osin`, `osout` and the streams that the program declares: 2 to 65,538.
    pub streams: u32,
    // The program was spelled by a text's tokens.
    pub ghost leveled: { IsLeveled (program_tree program) } by { leveled_once (program_tree program) },
    pub ghost few: { length (spell (program_tree program)) ≤ text_limit },
    pub ghost placed: { HasPlaces (program_tree program) },
    // It violates no rule.
    pub ghost lawful: { violations (program_tree program) ≡ [] },
    // The names, the captured scalars and the streams are its own.
    pub ghost named: { names ≡ rules.names (program_tree program) },
    pub ghost captures: { captured ≡ captured_by_tasks (program_tree program) },
    pub ghost counted: { streams ≡ rules.streams (program_tree program) },
}
