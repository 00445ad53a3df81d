//! Laws that show what the definitions of `specs/` mean. They take nothing and do nothing.

ghost use Rattle.std.specs.Prelude.{◌≡◌, ◌≢◌, ◌++◌, [], List, ℕ, map};
ghost use Rattle.os_ast.specs.Beginnings.{BeginsWith, CanBeginExpr, CanBeginStmt, CanBeginItem};
ghost use Rattle.os_ast.specs.Kept.{Keeps};
ghost use Rattle.os_ast.specs.Leveled.{IsExpr, IsStmt, IsLeveled};
ghost use Rattle.os_ast.specs.Marks.{HasMark, IsMarkOf};
ghost use Rattle.os_ast.specs.Means.{Means};
ghost use Rattle.os_ast.specs.Names.{Scope};
ghost use Rattle.os_ast.specs.Notes.Statements.{after_stmt, after_stmts};
ghost use Rattle.os_ast.specs.Spelling.{Symbol, expr, stmt, item, symbols, spell};
ghost use Rattle.os_ast.specs.Trees as tree;
ghost use Rattle.os_ast.specs.declared.expr.Binary.{Binary};
ghost use Rattle.os_ast.specs.declared.expr.Level.{Level};
ghost use Rattle.os_ast.specs.declared.expr.Mark.{Mark};
ghost use Rattle.os_lexer.specs.declared.token.Token.{Token};

/// What a part is spelled with begins with a token that can begin such a part, so nothing is spelled by
/// no token: no expression, statement, declaration, constant or function.
pub fn parts_begin()
    ensures expressions { (e : tree.ExprTree) (rest : List Symbol) → BeginsWith CanBeginExpr (expr e rest) }
    ensures statements { (s : tree.StmtTree) (rest : List Symbol) → BeginsWith CanBeginStmt (stmt s rest) }
    ensures items { (i : tree.ItemTree) (rest : List Symbol) → BeginsWith CanBeginItem (item i rest) }
{}

/// A part is spelled in the same way whatever follows it.
pub fn parts_stand_alone()
    ensures expressions { (e : tree.ExprTree) (rest : List Symbol) → expr e rest ≡ expr e [] ++ rest }
    ensures statements { (s : tree.StmtTree) (rest : List Symbol) → stmt s rest ≡ stmt s [] ++ rest }
    ensures items { (i : tree.ItemTree) (rest : List Symbol) → item i rest ≡ item i [] ++ rest }
{}

/// Parentheses are nodes: `(a)` isn't spelled as `a`.
pub fn parentheses_are_spelled()
    ensures { (e : tree.ExprTree) → expr (tree.Paren e) [] ≢ expr e [] }
{}

/// Operators of one level make one chain: neither `(a - b) - c` nor `a - (b - c)` is a tree of
/// `a - b - c`, where `-` stands for the operators of any level.
pub fn chains_are_flat()
    ensures left { (l : Level) (a : tree.ExprTree) (inner outer : tree.Links) →
        IsExpr (tree.Chain l (tree.Chain l a inner) outer) → ⊥ }
    ensures right { (l : Level) (a b : tree.ExprTree) (op : Binary) (m : Mark) (inner outer : tree.Links) →
        IsExpr (tree.Chain l a (tree.link op m (tree.Chain l b inner) outer)) → ⊥ }
{}

/// An `else` belongs to the nearest `if`: where the first branch is an `if` without `else`, there is
/// no `else` behind it.
pub fn else_is_the_nearest()
    ensures { (c d : tree.ExprTree) (a b : tree.StmtTree) → IsStmt (tree.IfElse c (tree.If d a) b) → ⊥ }
{}

/// What a list of tokens means, token by token: the kinds are the spelling, and each mark that the tree
/// keeps has its place in the list and that token's line. No more is asked of a leveled program.
pub fn meaning_by_tokens()
    ensures kinds { (tokens : List Token) (p : tree.ProgramTree) → Means tokens p → spell p ≡ map (λ t. t.kind) tokens }
    ensures marks { (tokens : List Token) (p : tree.ProgramTree) (place : ℕ) (mark : Mark) →
        Means tokens p → HasMark (symbols p) place mark → IsMarkOf tokens place mark }
    ensures only { (tokens : List Token) (p : tree.ProgramTree) → IsLeveled p →
        spell p ≡ map (λ t. t.kind) tokens →
        ((place : ℕ) (mark : Mark) → HasMark (symbols p) place mark → IsMarkOf tokens place mark) →
        Means tokens p }
{}

/// Statements take no declaration out of scope, and change none. A block takes its own with it.
#[tactic(auto, using(crate::proofs::Kept::keeps))]
pub fn declarations_stay()
    ensures statements { (s : Scope) (a : tree.StmtTree) → Keeps s.entries (after_stmt s a).entries }
    ensures lists { (s : Scope) (ss : tree.Stmts) → Keeps s.entries (after_stmts s ss).entries }
    ensures blocks { (s : Scope) (ss : tree.Stmts) → (after_stmt s (tree.Block ss)).entries ≡ s.entries }
{}

/// A program is leveled in one way at most, so that this can be taken from wherever it is only known to be so.
pub fn leveled_in_one_way()
    ensures { (p : tree.ProgramTree) → IsProp (IsLeveled p) }
{}
