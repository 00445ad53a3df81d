//! Laws that show what the definitions mean. They take nothing and do nothing.

ghost use Rattle.os_ast.specs.Captured.{captured, slots_of};
ghost use Rattle.os_ast.specs.Leveled.{AreStmts, IsLeveled, IsStmt};
ghost use Rattle.os_ast.specs.Limits.{all_streams_limit, slots_limit};
ghost use Rattle.os_ast.specs.Marks.{HasPlaces};
ghost use Rattle.os_ast.specs.Meanings.{meaning_in, resolved};
ghost use Rattle.os_ast.specs.Means.{Means};
ghost use Rattle.os_ast.specs.Names.{Scope, lookup, entity_of, flag_of};
ghost use Rattle.os_ast.specs.Notes.Clauses.{captured_in, in_task_body};
ghost use Rattle.os_ast.specs.Notes.Declarators.{after_declarator};
ghost use Rattle.os_ast.specs.Notes.Kinds.{Note, Used};
ghost use Rattle.os_ast.specs.Notes.Programs.{after_items, file, in_body, owner_of, param_list, program_notes};
ghost use Rattle.os_ast.specs.Notes.Statements.{after_stmt, after_stmts, stmt_notes, stmts_notes};
ghost use Rattle.os_ast.specs.ClauseMembers.{ClauseMember, private_ids, is_in};
ghost use Rattle.os_ast.specs.Spelling.{spell};
ghost use Rattle.os_ast.specs.Stacked.{Stacked, main_extent};
ghost use Rattle.os_ast.specs.Trees as tree;
ghost use Rattle.os_ast.specs.Trees.{ProgramTree};
ghost use Rattle.os_ast.specs.Violations.{names, streams, violations};
ghost use Rattle.os_ast.specs.declared.expr.Name.{Name};
ghost use Rattle.os_ast.specs.declared.names.Entity.{Entity};
ghost use Rattle.os_ast.specs.declared.names.Entry.{Entry};
ghost use Rattle.os_ast.specs.declared.names.Resolved.{Resolved};
ghost use Rattle.os_ast.specs.declared.names.Use.{Use};
ghost use Rattle.os_ast.specs.declared.names.What.{What};
ghost use Rattle.os_lexer.specs.Limits.{text_limit};
ghost use Rattle.os_lexer.specs.declared.token.Token.{Token};
ghost use Rattle.std.specs.Prelude.{◌≡◌, ◌≤◌, ◌||◌, ◌+◌, ◌++◌, ◌∷◌, [], ℕ, Bool, List, Contains, length, map};
ghost use Rattle.window_check_laws.specs.CapturedByUse.{Ascends, slots_named, used_slots};
ghost use Rattle.window_check_laws.specs.Globals.{AreApart, IsWithin, count_functions};
ghost use Rattle.window_check_laws.specs.Known.{Stands, size_in};
ghost use Rattle.window_check_laws.specs.NameTokens.{program_places};
ghost use Rattle.window_check_laws.specs.Order.{InOrder};
ghost use Rattle.window_check_laws.specs.Sums.{HasSizes, extent_in, slots_round, stmt_slots, stmts_slots};
ghost use Rattle.window_check_laws.specs.Told.{AreLawful, Tells};
ghost use Rattle.window_check_laws.specs.UnitSlots.{program_slots};

use os_ast::laws::meaning_by_tokens;

/// The names of a program, as the checks give them, stand in the order of their places, each place once.
#[tactic(auto, using(crate::proofs::Ordered::names_in_order))]
pub fn names_in_order()
    ensures { (p : ProgramTree) → HasPlaces p → InOrder (names p) }
{}

/// A program that a list of tokens means has each mark at its place, as `check` asks.
pub fn marks_have_places()
    ensures { (tokens : List Token) (p : ProgramTree) → Means tokens p → HasPlaces p }
{
    meaning_by_tokens();
}

/// What a task captures, told by what stands in its body: the scalars of `main` that its names mean there, each in its
/// own scope, and those that its `firstprivate` clauses name. Their slots ascend, so that each is there once.
pub fn captured_scalars_are_used()
    ensures members { (s : Scope) (ps : List ClauseMember) (a : tree.StmtTree) (x : ℕ) →
        is_in x (slots_of (captured s.entries ps a))
        ≡ (is_in x (slots_named s.entries (private_ids ps)) || is_in x (used_slots (stmt_notes (in_task_body s ps a) a))) }
    ensures ascending { (es : List Entry) (ps : List ClauseMember) (a : tree.StmtTree) (top : ℕ) →
        Stacked main_extent top es → Ascends 0 (slots_of (captured es ps a)) }
{}

/// The names of a program tell of all that stands in it, and of each part; a part of a lawful program is lawful.
pub fn names_tell()
    ensures all { (p : ProgramTree) → Tells (names p) (program_notes p) }
    ensures first { (rs : List Resolved) (xs ys : List Note) → Tells rs (xs ++ ys) → Tells rs xs }
    ensures rest { (rs : List Resolved) (xs ys : List Note) → Tells rs (xs ++ ys) → Tells rs ys }
    ensures lawful { (p : ProgramTree) → violations p ≡ [] → AreLawful (program_notes p) }
    ensures lawful_first { (xs ys : List Note) → AreLawful (xs ++ ys) → AreLawful xs }
    ensures lawful_rest { (xs ys : List Note) → AreLawful (xs ++ ys) → AreLawful ys }
{}

/// A used name of a lawful program is declared in scope, the list says at its place what its declaration means there and
/// whether it is of the type `unsigned`, and it says no other meaning and no other type.
pub fn used_names_are_told()
    ensures declared { (s : Scope) (n : Name) (u : Use) → AreLawful (Used s n u ∷ []) → (e : Entity) × (entity_of (lookup s.entries n.id) ≡ Some e) }
    ensures told { (rs : List Resolved) (s : Scope) (n : Name) (u : Use) (e : Entity) → entity_of (lookup s.entries n.id) ≡ Some e →
        Tells rs (Used s n u ∷ []) → Contains rs (resolved n.mark.place (meaning_in s.owner s.captured e) (flag_of (lookup s.entries n.id))) }
    ensures one { (rs : List Resolved) (p : ℕ) (v w : What) (a b : Bool) → InOrder rs →
        Contains rs (resolved p v a) → Contains rs (resolved p w b) → v ≡ w }
    ensures one_type { (rs : List Resolved) (p : ℕ) (v w : What) (a b : Bool) → InOrder rs →
        Contains rs (resolved p v a) → Contains rs (resolved p w b) → a ≡ b }
{}

/// A statement that is no declaration leaves in scope what was there, and the slots of what is in scope lie above one
/// another, in functions, tasks and `main`.
pub fn slots_are_stacked()
    ensures stays { (a : tree.StmtTree) (s : Scope) → IsStmt a → (after_stmt s a).entries ≡ s.entries }
    ensures declarator { (s : Scope) (d : tree.DeclaratorTree) → Stacked (extent_in s.owner) s.slots s.entries →
        Stacked (extent_in s.owner) (after_declarator s d).slots (after_declarator s d).entries }
    ensures statement { (a : tree.StmtTree) (s : Scope) → IsStmt a → Stacked (extent_in s.owner) s.slots s.entries →
        Stacked (extent_in s.owner) (after_stmt s a).slots (after_stmt s a).entries }
    ensures statements { (ss : tree.Stmts) (s : Scope) → AreStmts ss → Stacked (extent_in s.owner) s.slots s.entries →
        Stacked (extent_in s.owner) (after_stmts s ss).slots (after_stmts s ss).entries }
{}

/// The slots of a body are the sums over its tree, without scopes: no array is left out that has a size, both branches
/// count, and a task takes none of those of `main`. They begin behind the parameters, in `main` behind `osin_len` too,
/// and in a task behind the captured scalars.
pub fn slots_are_summed()
    ensures function { (s : Scope) (f : tree.FunctionTree) →
        (in_body s f).slots ≡ slots_round (owner_of f.name.id) + length (param_list f.params) }
    ensures task { (s : Scope) (ps : List ClauseMember) (a : tree.StmtTree) →
        (in_task_body s ps a).slots ≡ length (captured_in s.owner (slots_of (captured s.entries ps a))) }
    ensures statement { (size : tree.ExprTree → ℕ) (s : Scope) (a : tree.StmtTree) → HasSizes size (stmt_notes s a) →
        (after_stmt s a).slots ≡ s.slots + stmt_slots s.owner size a }
    ensures statements { (size : tree.ExprTree → ℕ) (s : Scope) (ss : tree.Stmts) → HasSizes size (stmts_notes s ss) →
        (after_stmts s ss).slots ≡ s.slots + stmts_slots s.owner size ss }
{}

/// The local arrays of a lawful program, and of each part of it, have the sizes that the numbers and the constants of its
/// items give them.
pub fn arrays_have_sizes()
    ensures all { (p : ProgramTree) → IsLeveled p → violations p ≡ [] → HasSizes (size_in p) (program_notes p) }
    ensures first { (size : tree.ExprTree → ℕ) (xs ys : List Note) → HasSizes size (xs ++ ys) → HasSizes size xs }
    ensures rest { (size : tree.ExprTree → ℕ) (xs ys : List Note) → HasSizes size (xs ++ ys) → HasSizes size ys }
{}

/// Functions are numbered in the order of the text, and no two constants or functions of a lawful program have one name,
/// so that each may be found by its name.
pub fn functions_are_numbered()
    ensures all { (s : Scope) (is : List tree.ItemTree) → (after_items s is).functions ≡ s.functions + count_functions is }
    ensures inside { (s : Scope) (f : tree.FunctionTree) → (in_body s f).functions ≡ s.functions }
    ensures apart { (p : ProgramTree) → violations p ≡ [] → AreApart [] p }
{}

/// A lawful program has at most 65,536 streams of its own, and at most 1,048,576 elements of local arrays. Its units
/// have at most 2,097,152 slots in all, where it is spelled by a text's tokens.
pub fn limits_are_kept()
    ensures within { (p : ProgramTree) → violations p ≡ [] → IsWithin (after_items file p) }
    ensures streams { (p : ProgramTree) → violations p ≡ [] → streams p ≤ all_streams_limit }
    ensures slots { (p : ProgramTree) → HasPlaces p → violations p ≡ [] → length (spell p) ≤ text_limit → program_slots p ≤ slots_limit }
{}

/// Every name token of a lawful program that is used or declares a variable has its entry in the names, and no other
/// token has one: constants and functions have none where they are declared.
pub fn names_are_the_name_tokens()
    ensures { (p : ProgramTree) → violations p ≡ [] → map (λ r. r.place) (names p) ≡ program_places p }
{}

/// Whatever stands in a lawful program stands where a constant or a function in scope is the item of its name, and a
/// function one that stands before; where a stream is one of the program's, and slots lie above one another. The name of
/// an array's size is that of a constant of the program.
pub fn names_are_known()
    ensures { (p : ProgramTree) (n : Note) → IsLeveled p → violations p ≡ [] → Contains (program_notes p) n → Stands p n }
{}
