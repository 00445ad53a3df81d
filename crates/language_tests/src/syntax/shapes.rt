//! What texts are read as. The shapes were written by hand, from the grammar.
//!
//! In a table a row is a line: a text, in which `¶` is a line feed, and behind an arrow what it is read as. A line behind slashes tells of
//! the rows below it.

use super::shown::{Source, show};
use super::token;
use os_ast::{Expr, Item, Level, Link, Mark, Program, Stmt};
use os_lexer::{Key, Kind, Punct, Token, lex};
use os_parser::parse;
use std::alloc::Global;
use std::process::Abort;
use std::test::Fail;

/// What stands before and behind each text of a table, and before and behind what it is read as.
type Around = [&'static str; 4];

/// What tokens are read as.
fn tree_of(alloc: Global, source: Source<'_>) -> Result<String, Fail> {
    if source.tokens.len() > 262_144 {
        return Err(Fail::from("there are too many tokens"));
    }
    let program = parse(alloc, source.tokens)?;
    show(alloc, source, &program)
}

/// What a text is read as.
fn shown(alloc: Global, text: &str) -> Result<String, Fail> {
    if text.len() > 262_144 {
        return Err(Fail::from("the text is too long"));
    }
    let tokens = lex(alloc, text.as_bytes())?;
    let source = Source {
        text: text.as_bytes(),
        tokens: &tokens,
    };
    tree_of(alloc, source)
}

/// What stands between a head and a tail.
fn between<'a>(whole: &'a str, head: &str, tail: &str) -> Option<&'a str> {
    whole.strip_prefix(head)?.strip_suffix(tail)
}

/// A text is read as its row says.
fn is_read(rt: &impl Abort, alloc: Global, around: &Around, row: &str) -> Result<(), Fail> {
    let [head, tail, shown_head, shown_tail] = *around;
    let Some((text, want)) = row.split_once(" =>") else {
        return Err(Fail::from("a row with an arrow"));
    };
    let whole = format!(in alloc; "{head}{text}{tail}")?;
    let found = shown(alloc, &whole.replace(alloc, "¶", "\n")?)?;
    let part = between(&found, shown_head, shown_tail);
    assert!(rt;
        part == Some(want.strip_prefix(" ").unwrap_or("")),
        "{found}"
    );
    Ok(())
}

/// Each text is read as its row says.
fn all_read(rt: &impl Abort, alloc: Global, around: &Around, rows: &str) -> Result<(), Fail> {
    for row in rows.lines() {
        if !row.starts_with("//") {
            is_read(rt, alloc, around, row)?;
        }
    }
    Ok(())
}

const EXPRESSIONS: &str = "// what stands by itself
1 => 1
2147483647 => 2147483647
0x10 => 16
a => a
a[b[1]] => (at a (at b 1))
(a) => (paren a)
((a)) => (paren (paren a))
g() => (call g)
g(a) => (call g a)
g(a, (b), c ? d : e, h(1)) => (call g a (paren b) (choice c d e) (call h 1))
// unaries
-1 => (Minus 1)
! - ~ + a => (Not (Minus (Invert (Plus a))))
-a * b => (Product (Minus a) Multiply b)
a * -b => (Product a Multiply (Minus b))
-(a * b) => (Minus (paren (Product a Multiply b)))
!a[1] => (Not (at a 1))
~g() => (Invert (call g))
a - -b => (Sum a Subtract (Minus b))
// operators of one level make one chain
a - b - c => (Sum a Subtract b Subtract c)
a || b || c => (Or a Or b Or c)
a && b && c => (And a And b And c)
a | b | c => (BitOr a BitOr b BitOr c)
a ^ b ^ c => (BitXor a BitXor b BitXor c)
a & b & c => (BitAnd a BitAnd b BitAnd c)
a == b != c => (Equal a Equal b Unequal c)
a < b <= c > d >= e => (Order a Less b LessEqual c Greater d GreaterEqual e)
a << b >> c => (Shift a ShiftLeft b ShiftRight c)
a + b - c + d => (Sum a Add b Subtract c Add d)
a * b / c % d => (Product a Multiply b Divide c Remainder d)
(a - b) - c => (Sum (paren (Sum a Subtract b)) Subtract c)
a - (b - c) => (Sum a Subtract (paren (Sum b Subtract c)))
// the levels, from the least to the greatest and back
a - b * c - d => (Sum a Subtract (Product b Multiply c) Subtract d)
a || b && c | d ^ e & g == h < i << j + k * l => (Or a Or (And b And (BitOr c BitOr (BitXor d BitXor (BitAnd e BitAnd (Equal g Equal (Order h Less \
     (Shift i ShiftLeft (Sum j Add (Product k Multiply l))))))))))
l % k - j >> i >= h != g & e ^ d | c && b || a => (Or (And (BitOr (BitXor (BitAnd (Equal (Order (Shift (Sum (Product l Remainder k) Subtract j) \
     ShiftRight i) GreaterEqual h) Unequal g) BitAnd e) BitXor d) BitOr c) And b) Or a)
// choices
a ? b : c => (choice a b c)
a ? b : c ? d : e => (choice a b (choice c d e))
a ? b ? c : d : e => (choice a (choice b c d) e)
(a ? b : c) ? d : e => (choice (paren (choice a b c)) d e)
a || b ? c : d => (choice (Or a Or b) c d)
a ? b + c : d - e => (choice a (Sum b Add c) (Sum d Subtract e))";

#[test]
fn expressions_are_grouped_by_their_levels(rt: HostRuntime) -> Result<(), Fail> {
    let around = ["int f() { return ", "; }", "(function f _ (return ", "))"];
    all_read(&rt, rt.alloc(), &around, EXPRESSIONS)
}

const STATEMENTS: &str = "; => ;
{ } => (block)
{ ; { a = 1; } } => (block ; (block (set a Plain 1)))
// declarations
int a; => (declare a,)
{ int a = 1; int b; } => (block (declare a = 1,) (declare b,))
int a[1]; => (declare a [1],)
int a __attribute__((stream)); => (declare a stream,)
int a, b = 1 + c, d[b], e __attribute__((stream)), g[3] __attribute__((stream)), h; => (declare a, b = (Sum 1 Add c), d [b], e stream, g [3] stream, \
     h,)
// changes
a = b; => (set a Plain b)
a[1] = b[2]; => (set (at a 1) Plain (at b 2))
a = b ? c : d; => (set a Plain (choice b c d))
a += 1; => (set a With(Add) 1)
a -= 1; => (set a With(Subtract) 1)
a *= 1; => (set a With(Multiply) 1)
a /= 1; => (set a With(Divide) 1)
a %= 1; => (set a With(Remainder) 1)
a <<= 1; => (set a With(ShiftLeft) 1)
a >>= 1; => (set a With(ShiftRight) 1)
a &= 1; => (set a With(BitAnd) 1)
a ^= 1; => (set a With(BitXor) 1)
a[b] |= 1; => (set (at a b) With(BitOr) 1)
a++; => (after a Up)
a[1]--; => (after (at a 1) Down)
++a; => (before Up a)
--a[b]; => (before Down (at a b))
// calls
g(); => (call g)
g(a, 1 - 2); => (call g a (Sum 1 Subtract 2))
// branches, and the `else` of the nearest one
if (a) ; => (if a ;)
if (a) ; else b = 1; => (if a ; else (set b Plain 1))
if (a) ; else if (b) ; else ; => (if a ; else (if b ; else ;))
if (a) if (b) ; else ; => (if a (if b ; else ;))
if (a) if (b) ; else ; else ; => (if a (if b ; else ;) else ;)
if (a) { if (b) ; } else ; => (if a (block (if b ;)) else ;)
if (a) while (b) if (c) ; else ; => (if a (while b (if c ; else ;)))
if (a) for (;;) if (c) ; else ; => (if a (for _ _ _ (if c ; else ;)))
if (a)¶#pragma omp task¶if (c) ; else ; => (if a (task (if c ; else ;)))
// loops
while (a) ; => (while a ;)
while (a < 1) { break; continue; } => (while (Order a Less 1) (block break continue))
for (;;) ; => (for _ _ _ ;)
for (a = 0;;) ; => (for (set a Plain 0) _ _ ;)
for (; a;) ; => (for _ a _ ;)
for (;; a++) ; => (for _ _ (after a Up) ;)
for (--a; b;) ; => (for (before Down a) b _ ;)
for (a++;; b -= 1) ; => (for (after a Up) _ (set b With(Subtract) 1) ;)
for (; a; --b) ; => (for _ a (before Down b) ;)
for (a[1] = 0; a[1] < 2; a[1]++) g(a[1]); => (for (set (at a 1) Plain 0) (Order (at a 1) Less 2) (after (at a 1) Up) (call g (at a 1)))
for (int a;;) ; => (for (declare a,) _ _ ;)
for (int a = 0; b;) ; => (for (declare a = 0,) b _ ;)
for (int a;; a++) ; => (for (declare a,) _ (after a Up) ;)
for (int a = 0, b, c = 1 + 2; a ? b : c; ++a) { } => (for (declare a = 0, b, c = (Sum 1 Add 2),) (choice a b c) (before Up a) (block))
return a; => (return a)
// tasks
¶#pragma omp task¶; => (task ;)
¶#pragma omp task¶{ a = 1; } => (task (block (set a Plain 1)))
¶#pragma omp task¶if (a) ; => (task (if a ;))
¶#pragma omp task¶#pragma omp task¶; => (task (task ;))
¶#pragma omp task¶#pragma omp taskwait¶ => (task (taskwait))
¶#pragma omp task input(a) output(b) firstprivate(c)¶; => (task (input a,) (output b,) (firstprivate c) ;)
¶#pragma omp task output(b), firstprivate(c) , input(a) input(d)¶; => (task (output b,) , (firstprivate c) , (input a,) (input d,) ;)
¶#pragma omp task input(a, b >> c, d >> e[1], a[2] >> b, c[d] >> e[1 + 2])¶; => (task (input a, b >> c, d >> e [1], (at a 2) >> b, (at c d) >> e \
     [(Sum 1 Add 2)],) ;)
¶#pragma omp task output(a, b << c, d << e[1], a[2] << b, c[d] << e[1 << 2])¶; => (task (output a, b << c, d << e [1], (at a 2) << b, (at c d) << e \
     [(Shift 1 ShiftLeft 2)],) ;)
¶#pragma omp task firstprivate(a, b, c)¶; => (task (firstprivate a b c) ;)
// words of pragmas are names elsewhere
¶#pragma omp task input(input >> task[1])¶omp = output; => (task (input input >> task [1],) (set omp Plain output))
// ticks and taskwaits
¶#pragma omp tick(a >> 1)¶ => (tick a >> 1)
¶#pragma omp tick(a[2] >> b ? 1 : c)¶ => (tick (at a 2) >> (choice b 1 c))
¶#pragma omp tick(a >> b >> 1)¶ => (tick a >> (Shift b ShiftRight 1))
¶#pragma omp taskwait¶ => (taskwait)";

#[test]
fn statements_have_their_parts(rt: HostRuntime) -> Result<(), Fail> {
    let around = ["int f() { ", " }", "(function f _ ", ")"];
    all_read(&rt, rt.alloc(), &around, STATEMENTS)
}

const PROGRAMS: &str = " =>
 // nothing¶ =>
const int a = 5; => (constant a 5)
const int a = -2147483647; => (constant a - 2147483647)
int f() { } => (function f _)
int f(void) { ; ; } => (function f void ; ;)
int f(int a) { return a; } => (function f (params a) (return a))
int f(int a, int b, int c) { } => (function f (params a b c))
int f(int a) { if (a) if (a) ; else return 1; return 2; } => (function f (params a) (if a (if a ; else (return 1))) (return 2))
const int a = 1; int f(int b) { return b; } const int c = -0; int main(void) { f(a); } => (constant a 1)(function f (params b) (return b))(constant c \
     - 0)(function main void (call f a))
// types stand where they are declared
const unsigned a = -1; const int b = 2u;¶unsigned int f(unsigned c, int d, unsigned int e) {¶unsigned g = c, h[3U]; for (unsigned int i = 4u; i < 5; \
     i++) ; return a + 0x80000000;¶}¶unsigned j() { unsigned int k; }¶int main(void) { int l = j(); }¶ => (constant unsigned a - 1)(constant b \
     2u)(function unsigned int f (params unsigned c d unsigned int e) (declare unsigned g = c, h [3u],) (for (declare unsigned int i = 4u,) (Order i \
     Less 5) (after i Up) ;) (return (Sum a Add 2147483648u)))(function unsigned j _ (declare unsigned int k,))(function main void (declare l = (call \
     j),))";

#[test]
fn programs_have_their_items(rt: HostRuntime) -> Result<(), Fail> {
    all_read(&rt, rt.alloc(), &[""; 4], PROGRAMS)
}

static TOKENS: [Token; 14] = [
    token!(Kind::Key(Key::Int)),
    token!(Kind::Name(13)),
    token!(Kind::Punct(Punct::OpenParen)),
    token!(Kind::Key(Key::Void)),
    token!(Kind::Punct(Punct::CloseParen)),
    token!(Kind::Punct(Punct::OpenBrace)),
    token!(Kind::Key(Key::Return)),
    token!(Kind::Number(1)),
    token!(Kind::Punct(Punct::Minus)),
    token!(Kind::Number(2)),
    token!(Kind::Punct(Punct::Minus)),
    token!(Kind::Number(3)),
    token!(Kind::Punct(Punct::Semicolon)),
    token!(Kind::Punct(Punct::CloseBrace)),
];

/// The value of the `return` that is all of a program's one function, with its mark.
fn returned(program: &Program) -> Option<(Mark, &Expr)> {
    let [Item::Function(function)] = program.items.as_slice() else {
        return None;
    };
    match function.body.as_slice() {
        [Stmt::Return(mark, value)] => Some((*mark, value)),
        _ => None,
    }
}

/// The first part of a sum, and its two links.
fn parts_of(value: &Expr) -> Option<(&Expr, &Link, &Link)> {
    let Expr::Chain(Level::Sum, first, links) = value else {
        return None;
    };
    match links.as_slice() {
        [second, third] => Some((first, second, third)),
        _ => None,
    }
}

fn is_number(value: &Expr, number: u32) -> bool {
    matches!(value, Expr::Number(found) if *found == number)
}

fn is_link(link: &Link, place: u32, number: u32) -> bool {
    link.mark == Mark { place, line: 1 } && is_number(&link.right, number)
}

/// Whether a program returns `1 - 2 - 3` with the marks of its `return` and its operators.
fn has_marks(program: &Program) -> bool {
    let Some((mark, value)) = returned(program) else {
        return false;
    };
    let Some((first, second, third)) = parts_of(value) else {
        return false;
    };
    mark == Mark { place: 6, line: 1 }
        && is_number(first, 1)
        && is_link(second, 8, 2)
        && is_link(third, 10, 3)
}

/// An operator's mark is its place among the tokens, and its line.
#[test]
fn links_have_the_marks_of_their_operators(rt: HostRuntime) -> Result<(), Fail> {
    let program = parse(rt.alloc(), &TOKENS)?;
    assert!(rt; has_marks(&program));
    Ok(())
}
