ghost use Rattle.std.specs.Prelude.{◌≡◌, ◌≤◌, length, map, IfOk, IfErr, OnOk};
ghost use Rattle.os_ast.specs.Leveled.{AreAll, IsItem, IsLeveled};
ghost use Rattle.os_ast.specs.Marks.{HasPlaces};
ghost use Rattle.os_ast.specs.Notes.Programs.{file, after_items, program_notes};
ghost use Rattle.os_ast.specs.Spelling.{spell};
ghost use Rattle.os_ast.specs.Views.{program_tree};
ghost use Rattle.os_lexer.specs.Limits.{text_limit};
ghost use Rattle.window_check_names.specs.Findings.{nothing_found, noted, judged_in};
ghost use Rattle.window_check.specs.Refusal.{IsAnswer};
ghost use Rattle.window_check_laws.specs.Room.{HasRoom, items_weight};
ghost use Rattle.window_check_names.specs.declared.found.Found.TheVariants as findings;

use crate::check_error::CheckError;
use crate::checked::Checked;
use crate::functions::{has_main, items};
use os_ast::{Program, Rule};
use os_io::Memory;
use std::alloc::Global;
use window_check_names::{Found, Judged, Scopes};

/// What a walk over a program finds, where nothing is in scope yet.
fn judge(alloc: Global, scopes: &mut Scopes, program: &Program) -> Result<Judged, Memory>
    requires leveled { AreAll IsItem (program_tree program.now) }
    requires room { HasRoom file (items_weight (program_tree program.now)) }
    requires begun { scopes.old ≡ file }
    ensures scopes { OnOk result (scopes.new ≡ after_items file (program_tree program.now)) }
    ensures judged { IfOk result (λ judged. judged ≡ judged_in (noted (findings.Judging nothing_found) (program_notes (program_tree program.now)))) }
{
    let mut found = Found::Judging(Judged::new(alloc));
    items(alloc, scopes, &mut found, &program.items)?;
    Ok(found.into_judged(alloc))
}

/// Judges a program by the rules for names and declarations, and finds what each name means.
///
/// A program that violates rules is refused by the least of its violations, by the place of the token and then by
/// the rule's code. The walk takes time linear in the program but for the look-up of names, and stack for the depth
/// of the program. The program is consumed in every case.
pub fn check(alloc: Global, program: Program) -> Result<Checked, CheckError>
    // The program is spelled by at most `text_limit` tokens, and each of its marks has its place among them.
    requires leveled { IsLeveled (program_tree program) }
    requires few { length (spell (program_tree program)) ≤ text_limit }
    requires placed { HasPlaces (program_tree program) }
    // What is accepted is the same program, and `Checked` says that it violates no rule.
    ensures accepted { IfOk result (λ checked. checked.program ≡ program) }
    // A program is refused only where it violates a rule, by its least violation.
    ensures refused { IfErr result (IsAnswer (program_tree program)) }
{
    let mut scopes = Scopes::new(alloc);
    let judged = judge(alloc, &mut scopes, &program)?;
    let (least, names, captured) = judged.into_parts();
    if let Some(violation) = least {
        return Err(CheckError::Fault {
            code: violation.rule.code(),
            line: violation.line,
        });
    }
    if !has_main(&program.items) {
        return Err(CheckError::Fault {
            code: Rule::NoMain.code(),
            line: 1,
        });
    }
    Ok(Checked {
        program,
        names,
        captured,
        streams: 2 + scopes.streams(),
    })
}
