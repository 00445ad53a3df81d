//! The control program of a program, and its tasks.

ghost use Rattle.std.specs.Prelude.{◌≡◌, ◌++◌, if◌then◌else◌, List, [], ◌∷◌, IfOk, IfSome, OnOk, false, map, None, Some};
ghost use Rattle.cddf_meaning.specs.Program.{main_at, main_behind, main_of};
ghost use Rattle.os_ast.specs.FreeNames.{task_names};
ghost use Rattle.os_ast.specs.Names.{main_id};
ghost use Rattle.os_ast.specs.ClauseMembers.{is_in, members};
ghost use Rattle.os_ast.specs.Trees as tree;
ghost use Rattle.os_ast.specs.Unsigned.{is_unsigned};
ghost use Rattle.os_ast.specs.Views.{clause_tree, declarator_tree, function_tree, item_tree, start_tree, stmt_tree, stmts_tree};
ghost use Rattle.cddf_meaning.specs.Tasks.{among, task_at, tasks_in, tasks_in_all, known_behind, known_declarator, known_flag};
ghost use Rattle.cddf_meaning.specs.Tasks.{known_in_main, known_item, known_start, others, typed_known, with_all_known, with_known};
ghost use Rattle.cddf_meaning_plain_tasks.specs.Sought.{task_of};

use crate::found_task::FoundTask;
use crate::items::item_ids;
use crate::naming::in_task;
use cddf_meaning::{KnownName, TypedName};
use cddf_meaning_plain_state::names::{item_id, item_unsigned};
use os_ast::{Declarator, Function, Head, Item, Start, Stmt, TaskSite, Ty};
use os_io::{List, Memory};
use os_lexer::names::{MAIN, OSIN, OSIN_LEN, OSOUT};
use std::alloc::Global;

/// The function `main`, and the items before it.
#[derive(Clone, Copy)]
pub struct Main<'p> {
    /// The items before it.
    pub file: &'p [Item],
    /// The function `main`.
    pub function: &'p Function,
}

/// The function `main`, where an item is that.
fn main_in(item: &Item) -> Option<&Function>
    ensures main { IfSome result (λ f. item_tree item.now ≡ tree.Function (function_tree f.now)) }
    ensures named { IfSome result (λ f. f.now.name.id ≡ main_id) }
    ensures other { result ≡ None → (before rest : List tree.ItemTree) →
        main_behind before (item_tree item.now ∷ rest) ≡ main_behind (before ++ item_tree item.now ∷ []) rest }
{
    match item {
        Item::Function(function) if function.name.id == MAIN => Some(function),
        Item::Constant(_) | Item::Function(_) => None,
    }
}

/// The first function `main`.
pub fn main_of(items: &[Item]) -> Option<Main<'_>>
    ensures main { IfSome result (λ m. main_of (map item_tree items.now) ≡ Some (main_at (map item_tree m.file.now) (function_tree m.function.now))) }
    ensures named { IfSome result (λ m. m.function.now.name.id ≡ main_id) }
    ensures none { result ≡ None → main_of (map item_tree items.now) ≡ None }
{
    for (place, item) in items.iter().enumerate() {
        if let Some(function) = main_in(item) {
            return Some(Main {
                file: &items[..place],
                function,
            });
        }
    }
    None
}

/// Removes a name from a list of names.
fn forget(ids: &mut Vec<u32>, id: u32)
    ensures { ids.new.items ≡ others id ids.old.items }
{
    ids.retain(|next| *next != id);
}

/// Takes the scalar of a name away, and adds its newest declaration, where that is a scalar.
fn with_known(ids: &mut Vec<u32>, known: KnownName) -> Result<(), Memory>
    ensures { OnOk result (ids.new.items ≡ with_known ids.old.items known) }
{
    forget(ids, known.id);
    if known.scalar {
        ids.push(known.id)?;
    }
    Ok(())
}

/// The scalars in scope, in the order of their declarations.
fn scalars(alloc: Global, known: &[KnownName]) -> Result<Vec<u32>, Memory>
    ensures { IfOk result (λ ids. ids.items ≡ with_all_known [] known.now) }
{
    let mut ids = Vec::new(alloc);
    for next in known {
        with_known(&mut ids, *next)?;
    }
    Ok(ids)
}

/// Whether a task takes this name from round it.
#[tactic(auto, using(crate::proofs::HasNames::task_has))]
fn captures(site: &TaskSite, id: u32) -> bool
    ensures { result ≡ is_in id (task_names (members (map clause_tree site.now.clauses)) (stmt_tree site.now.body)) }
{
    in_task(site, id)
}

/// Adds a scalar, where a task captures it.
fn capture(site: &TaskSite, id: u32, captured: &mut List<u32>) -> Result<(), Memory>
    ensures { OnOk result (captured.new ≡ captured.old ++ (if is_in id (task_names (members (map clause_tree site.now.clauses)) (stmt_tree site.now.body))
        then id
        ∷ [] else [])) }
{
    if captures(site, id) {
        captured.push(id)?;
    }
    Ok(())
}

/// The names of the scalars that a task captures.
fn captured(alloc: Global, site: &TaskSite, known: &[KnownName]) -> Result<List<u32>, Memory>
    ensures { IfOk result (λ ids. ids ≡ among (task_names (members (map clause_tree site.now.clauses)) (stmt_tree site.now.body))
        (with_all_known [] known.now)) }
{
    let scalars = scalars(alloc, known)?;
    let mut captured = List::new(alloc);
    for id in scalars.as_slice() {
        capture(site, *id, &mut captured)?;
    }
    Ok(captured)
}

/// Whether the newest declaration of a name is of the type `unsigned`.
fn is_unsigned(known: &[KnownName], id: u32) -> bool
    ensures { result ≡ known_flag false known.now id }
{
    let mut unsigned = false;
    for next in known {
        if next.id == id {
            unsigned = next.unsigned;
        }
    }
    unsigned
}

/// Names with the types that they have in scope.
fn typed(alloc: Global, ids: &[u32], known: &[KnownName]) -> Result<List<TypedName>, Memory>
    ensures { IfOk result (λ names. names ≡ map (typed_known known.now) ids.now) }
{
    let mut names = List::new(alloc);
    for id in ids {
        names.push(TypedName {
            id: *id,
            unsigned: is_unsigned(known, *id),
        })?;
    }
    Ok(names)
}

/// Adds what declarators of a type declare.
fn declare(ty: Ty, declarators: &List<Declarator>, known: &mut Vec<KnownName>) -> Result<(), Memory>
    ensures { OnOk result (known.new.items ≡ known.old.items ++ map (known_declarator (is_unsigned ty)) (map declarator_tree declarators.now)) }
{
    for declarator in declarators.as_slice() {
        known.push(KnownName {
            id: declarator.name.id,
            scalar: !declarator.stream && declarator.size.is_none(),
            unsigned: ty.is_unsigned(),
        })?;
    }
    Ok(())
}

/// Adds what stands before the first `;` of a `for`.
fn declare_start(start: &Start, known: &mut Vec<KnownName>) -> Result<(), Memory>
    ensures { OnOk result (known.new.items ≡ known.old.items ++ known_start (start_tree start.now)) }
{
    match start {
        Start::Declare(ty, declarators) => declare(*ty, declarators, known),
        Start::Empty | Start::Change(_) => Ok(()),
    }
}

/// The task of a pragma, by the names that are in scope round it.
#[tactic(auto, using(crate::proofs::HasNames::clauses_ids))]
fn found<'p>(
    alloc: Global,
    site: &'p TaskSite,
    known: &[KnownName],
) -> Result<FoundTask<'p>, Memory>
    ensures { IfOk result (λ f. task_of f ≡ task_at known.now site.now.mark (map clause_tree site.now.clauses) (stmt_tree site.now.body)) }
{
    let captured = captured(alloc, site, known)?;
    let items = item_ids(alloc, &site.clauses)?;
    let captured = typed(alloc, captured.as_slice(), known)?;
    let items = typed(alloc, items.as_slice(), known)?;
    Ok(FoundTask {
        site,
        captured,
        items,
    })
}

/// Adds the task of a pragma to those that were found before it.
fn add_task<'p>(
    alloc: Global,
    site: &'p TaskSite,
    known: &[KnownName],
    tasks: &mut Vec<FoundTask<'p>>,
) -> Result<(), Memory>
    ensures { OnOk result (map task_of tasks.new.items ≡ map task_of tasks.old.items
        ++ task_at known.now site.now.mark (map clause_tree site.now.clauses) (stmt_tree site.now.body) ∷ []) }
{
    let task = found(alloc, site, known)?;
    tasks.push(task)?;
    Ok(())
}

/// Adds the tasks in a statement, and what it declares in the scope in which it stands.
#[cycle(tasks)]
fn tasks_in<'p>(
    alloc: Global,
    stmt: &'p Stmt,
    known: &mut Vec<KnownName>,
    tasks: &mut Vec<FoundTask<'p>>,
) -> Result<(), Memory>
    ensures tasks { OnOk result (map task_of tasks.new.items ≡ map task_of tasks.old.items ++ tasks_in known.old.items (stmt_tree stmt.now)) }
    ensures known { OnOk result (known.new.items ≡ known.old.items ++ known_behind (stmt_tree stmt.now)) }
{
    match stmt {
        Stmt::Block(stmts) => tasks_in_block(alloc, stmts, known, tasks),
        Stmt::Declare(ty, declarators) => declare(*ty, declarators, known),
        Stmt::If(_, first, second) => {
            tasks_in(alloc, first, known, tasks)?;
            match second {
                None => Ok(()),
                Some(second) => tasks_in(alloc, second, known, tasks),
            }
        }
        Stmt::While(_, body) => tasks_in(alloc, body, known, tasks),
        Stmt::For(head, body) => tasks_in_for(alloc, head, body, known, tasks),
        Stmt::Task(site) => add_task(alloc, site, known.as_slice(), tasks),
        _ => Ok(()),
    }
}

/// Adds the tasks in a `for`. What it declares is gone behind it.
#[cycle(tasks)]
fn tasks_in_for<'p>(
    alloc: Global,
    head: &Head,
    body: &'p Stmt,
    known: &mut Vec<KnownName>,
    tasks: &mut Vec<FoundTask<'p>>,
) -> Result<(), Memory>
    ensures tasks { OnOk result (map task_of tasks.new.items ≡ map task_of tasks.old.items
        ++ tasks_in (known.old.items ++ known_start (start_tree head.now.start)) (stmt_tree body.now)) }
    ensures known { OnOk result (known.new.items ≡ known.old.items) }
{
    let outer = known.len();
    declare_start(&head.start, known)?;
    tasks_in(alloc, body, known, tasks)?;
    known.truncate(outer);
    Ok(())
}

/// Adds the tasks in a block. What it declares is gone behind it.
#[cycle(tasks)]
fn tasks_in_block<'p>(
    alloc: Global,
    stmts: &'p List<Stmt>,
    known: &mut Vec<KnownName>,
    tasks: &mut Vec<FoundTask<'p>>,
) -> Result<(), Memory>
    ensures tasks { OnOk result (map task_of tasks.new.items ≡ map task_of tasks.old.items ++ tasks_in_all known.old.items (stmts_tree stmts.now)) }
    ensures known { OnOk result (known.new.items ≡ known.old.items) }
{
    let outer = known.len();
    for stmt in stmts.as_slice() {
        tasks_in(alloc, stmt, known, tasks)?;
    }
    known.truncate(outer);
    Ok(())
}

/// What is in scope round the body of `main`.
fn known_in_main(alloc: Global, main: &Main<'_>) -> Result<Vec<KnownName>, Memory>
    ensures { IfOk result (λ known. known.items ≡ known_in_main (map item_tree main.now.file.now) (function_tree main.now.function.now)) }
{
    let mut known = known_in_file(alloc, main.file)?;
    known.push(KnownName {
        id: OSIN,
        scalar: false,
        unsigned: false,
    })?;
    known.push(KnownName {
        id: OSOUT,
        scalar: false,
        unsigned: false,
    })?;
    known.push(KnownName {
        id: OSIN_LEN,
        scalar: true,
        unsigned: false,
    })?;
    for param in main.function.params.list() {
        known.push(KnownName {
            id: param.name.id,
            scalar: true,
            unsigned: param.ty.is_unsigned(),
        })?;
    }
    Ok(known)
}

fn known_in_file(alloc: Global, file: &[Item]) -> Result<Vec<KnownName>, Memory>
    ensures { IfOk result (λ known. known.items ≡ map known_item (map item_tree file.now)) }
{
    let mut known = Vec::new(alloc);
    for item in file {
        known.push(KnownName {
            id: item_id(item),
            scalar: false,
            unsigned: item_unsigned(item),
        })?;
    }
    Ok(known)
}

/// The tasks of the control program, in the order of the text. Their numbers are their places.
pub fn tasks<'p>(alloc: Global, main: &Main<'p>) -> Result<Vec<FoundTask<'p>>, Memory>
    ensures { IfOk result (λ tasks. map task_of tasks.items ≡ tasks_in_all
        (known_in_main (map item_tree main.now.file.now) (function_tree main.now.function.now)) (stmts_tree main.now.function.now.body)) }
{
    let mut known = known_in_main(alloc, main)?;
    let mut tasks = Vec::new(alloc);
    tasks_in_block(alloc, &main.function.body, &mut known, &mut tasks)?;
    Ok(tasks)
}
