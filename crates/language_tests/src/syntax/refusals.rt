//! Texts that are no programs: for each production, tokens that can't stand at each of its places. Before each text stands
//! how many of its tokens are before the refused one; a recogniser of the grammar by another method found these.
//!
//! In a table a row is a line, in which `¶` is a line feed. A line behind slashes names the production that is broken.

use super::{read, read_tokens};
use os_lexer::{Token, lex};
use std::alloc::Global;
use std::process::Abort;
use std::test::Fail;

/// Texts outside functions that begin no program. Each stands behind the number of the token that is refused.
const ITEMS: &str = "// an item
0 1
0 ;
0 f() { }
0 void f() { }
0 { }
7 int f(void) { } ;
7 int f(void) { } }
0 ¶#pragma omp taskwait¶
0 return 1;
2 int a;
2 int a = 1;
// a constant
1 const
1 const N = 1;
2 const int
2 const int = 1;
2 const int 1 = 1;
3 const int N;
3 const int N 1;
3 const int N[1];
4 const int N = ;
4 const int N = +1;
5 const int N = - - 1;
4 const int N = M;
4 const int N = (1);
5 const int N = -;
5 const int N = 1
5 const int N = 1 + 2;
5 const int N = 1, M = 2;
// a function
1 int
1 int 1() { }
1 int if() { }
2 int f
2 int f;
2 int f[1] { }
2 int f { }
3 int f(
3 int f(;
4 int f()
4 int f();
4 int f() ;
4 int f() return 1;
5 int f() {
6 int f() { ;
6 int f() { } }
// parameters
4 int f(int) { }
4 int f(int 1) { }
3 int f(a) { }
3 int f(1) { }
3 int f(,) { }
5 int f(int a { }
6 int f(int a,) { }
6 int f(int a, b) { }
5 int f(int a int b) { }
5 int f(int a[1]) { }
5 int f(int a = 1) { }
3 int f(const int a) { }
4 int f(void a) { }
4 int f(void, int a) { }
4 int f(void void) { }
6 int f(int a, void) { }
7 int f(int a, int) { }";

/// What may not stand in the body of a function.
const BODIES: &str = "// a block
2 {
1 }
3 { ;
3 { } }
0 ( ; )
// a declaration
1 int;
1 int 1;
1 int int a;
2 int a
2 int a b;
3 int a,;
3 int a,, b;
3 int a, int b;
1 int ,a;
0 const int a = 1;
1 int (a);
// a declarator
3 int a[;
3 int a[];
4 int a[1;
4 int a[1) ;
4 int a[1, 2];
5 int a[1][2];
5 int a[1] = 1;
3 int a =;
3 int a = ,b;
4 int a = 1 2;
2 int a += 1;
4 int a = b = 1;
3 int a = { 1 };
2 int a++;
2 int a();
// the stream attribute
3 int a __attribute__;
4 int a __attribute__(stream);
5 int a __attribute__(());
5 int a __attribute__((1));
5 int a __attribute__((a));
7 int a __attribute__((stream);
7 int a __attribute__((stream) b);
6 int a __attribute__((stream, stream));
8 int a __attribute__((stream)) __attribute__((stream));
8 int a __attribute__((stream)) = 1;
8 int a __attribute__((stream))[2];
11 int a[2] __attribute__((stream)) = 1;
4 int a = 1 __attribute__((stream));
1 int __attribute__((stream)) a;
// a statement
0 )
0 1;
0 (a);
0 -a;
0 + + a;
0 !a;
0 else ;
0 void;
0 * a = 1;
0 ? ;
0 , ;
0 do ; while (1);
0 goto a;
1 a : ;
// a call
2 f(;
3 f(1;
3 f(1
4 f(1)
4 f(1,);
2 f(,1);
2 f(,);
4 f(1,, 2);
3 f(1 2);
2 f(int a);
3 f() = 1;
3 f()++;
3 f()();
3 f()[1];
3 f() + 1;
3 f(1];
// an `if`
1 if ;
1 if a ;
2 if () ;
3 if (a ;
4 if (a)
3 if (a] ;
3 if (a = 1) ;
3 if (a++) ;
2 if (int a) ;
3 if (a; ) ;
4 if (a) int b;
4 if (a) else ;
6 if (a) ; else
6 if (a) ; else int b;
6 if (a) ; ; else ;
7 if (a) ; else ; else ;
// a `while`
1 while ;
1 while a ;
2 while () ;
3 while (a ;
4 while (a)
3 while (a = 1) ;
3 while (a, b) ;
4 while (a) int b;
5 while (a) ; else ;
// a `for`
1 for ;
2 for () ;
3 for (;) ;
3 for (a) ;
1 for ;;) ;
4 for (;;
5 for (;;)
4 for (;;;) ;
5 for (;;) int a;
6 for (;;) ; else ;
// the start of a `for`
3 for (a;;) ;
2 for (1;;) ;
3 for (a + 1;;) ;
3 for (g();;) ;
5 for (a = 1, b = 2;;) ;
5 for (a = 1) ;
3 for (int) ;
3 for (int;;) ;
4 for (int a) ;
5 for (int a,;;) ;
5 for (int a, int b;;) ;
5 for (int a = ;;) ;
4 for (int a[2];;) ;
4 for (int a __attribute__((stream));;) ;
2 for (const int a = 1;;) ;
2 for ({ };;) ;
2 for (return 1;;) ;
// the test of a `for`
4 for (; a = 1;) ;
4 for (; a++;) ;
3 for (; int a;) ;
4 for (; a, b;) ;
4 for (; a) ;
4 for (; ;
3 for (; );
// the step of a `for`
5 for (;; a) ;
4 for (;; 1) ;
5 for (;; g()) ;
4 for (;; int a) ;
6 for (;; a++, b++) ;
6 for (;; a++;) ;
6 for (;; a++ ;
6 for (;; a = ) ;
// `break` and `continue`
1 break
1 break 1;
1 break a;
1 break break;
1 continue
1 continue 1;
1 continue )
// a `return`
1 return;
1 return
2 return 1
2 return 1 }
2 return a = 1;
1 return int;
2 return 1, 2;
1 return return 1;
1 return ;1;
// a change
1 a;
4 a[1];
1 a + 1;
1 a == 1;
2 a = ;
3 a = 1
2 a = = 1;
3 a = b = 1;
3 a = 1, b = 2;
1 a <= 1;
1 a ! 1;
1 a + = 1;
1 a b;
1 a 1;
2 a++
2 a++ 1;
2 a++ ++;
2 a += ;
3 a += b += 1;
1 ++;
1 ++1;
1 ++(a);
2 ++f();
1 ++ ++a;
2 ++a++;
2 ++a = 1;
2 ++a
1 --;
1 --1;
0 1 = a;
0 1++;
0 (a) = 1;
0 -a = 1;
// a target
2 a[ = 1;
2 a[] = 1;
3 a[1 = 1;
3 a[1) = 1;
4 a[1][2] = 1;
3 a[1, 2] = 1;
2 a[int] = 1;
3 a[b = 1] = 1;
4 a(1) = 1;
3 ++a[;
5 ++a[1][2];
// a task
4 ¶#pragma omp task¶
4 ¶#pragma omp task¶int a;
3 ¶#pragma omp task ;¶
3 ¶#pragma omp task 1¶;
3 ¶#pragma omp task { }¶
3 ¶#pragma omp task task¶;
3 ¶#pragma omp task private(a)¶;
3 ¶#pragma omp task , input(a)¶;
8 ¶#pragma omp task input(a),¶;
8 ¶#pragma omp task input(a),, input(b)¶;
7 ¶#pragma omp task input(a); input(b)¶;
3 ¶#pragma omp task ()¶;
// an input
4 ¶#pragma omp task input¶;
4 ¶#pragma omp task input a¶;
5 ¶#pragma omp task input(¶;
5 ¶#pragma omp task input()¶;
5 ¶#pragma omp task input(1)¶;
6 ¶#pragma omp task input(a¶;
7 ¶#pragma omp task input(a,)¶;
5 ¶#pragma omp task input(,a)¶;
6 ¶#pragma omp task input(a b)¶;
9 ¶#pragma omp task input(a[1])¶;
9 ¶#pragma omp task input(a[1] b)¶;
5 ¶#pragma omp task input(>> a)¶;
7 ¶#pragma omp task input(a >>)¶;
7 ¶#pragma omp task input(a >> 1)¶;
7 ¶#pragma omp task input(a >> (b))¶;
9 ¶#pragma omp task input(a >> b[])¶;
10 ¶#pragma omp task input(a >> b[1)¶;
11 ¶#pragma omp task input(a >> b[1][2])¶;
8 ¶#pragma omp task input(a >> b >> c)¶;
6 ¶#pragma omp task input(a << b)¶;
6 ¶#pragma omp task input(a > b)¶;
5 ¶#pragma omp task input((a))¶;
// an output
4 ¶#pragma omp task output¶;
5 ¶#pragma omp task output()¶;
5 ¶#pragma omp task output(1)¶;
9 ¶#pragma omp task output(a[1])¶;
7 ¶#pragma omp task output(a <<)¶;
7 ¶#pragma omp task output(a << 1)¶;
8 ¶#pragma omp task output(a << b << c)¶;
6 ¶#pragma omp task output(a >> b)¶;
8 ¶#pragma omp task output(a, b >> c)¶;
// what is first private
4 ¶#pragma omp task firstprivate¶;
4 ¶#pragma omp task firstprivate a¶;
5 ¶#pragma omp task firstprivate()¶;
5 ¶#pragma omp task firstprivate(1)¶;
6 ¶#pragma omp task firstprivate(a¶;
7 ¶#pragma omp task firstprivate(a,)¶;
6 ¶#pragma omp task firstprivate(a b)¶;
6 ¶#pragma omp task firstprivate(a[1])¶;
6 ¶#pragma omp task firstprivate(a >> b)¶;
// a tick
3 ¶#pragma omp tick¶
3 ¶#pragma omp tick a >> 1¶
4 ¶#pragma omp tick()¶
4 ¶#pragma omp tick(1 >> 1)¶
4 ¶#pragma omp tick(>> 1)¶
5 ¶#pragma omp tick(a)¶
5 ¶#pragma omp tick(a 1)¶
5 ¶#pragma omp tick(a << 1)¶
6 ¶#pragma omp tick(a >>)¶
7 ¶#pragma omp tick(a >> b = 1)¶
7 ¶#pragma omp tick(a >> 1¶)
7 ¶#pragma omp tick(a >> 1, b >> 1)¶
8 ¶#pragma omp tick(a >> 1);¶
8 ¶#pragma omp tick(a >> 1) input(a)¶
// another pragma
1 ¶#pragma¶
2 ¶#pragma omp¶
1 ¶#pragma once¶
1 ¶#pragma task¶;
2 ¶#pragma omp parallel¶;
2 ¶#pragma omp omp task¶;
2 ¶#pragma omp input(a)¶;
3 ¶#pragma omp taskwait;¶
3 ¶#pragma omp taskwait taskwait¶
3 ¶#pragma omp taskwait()¶";

/// Texts behind a `return` that are no expression. Each stands behind the number of the token that is refused.
const VALUES: &str = "// a choice
2 a ?
3 a ? b
4 a ? b :
2 a ? : b
0 ? a : b
1 a : b
3 a ? b , c
5 a ? b : c :
3 a ? b = 1 : c
7 a ? b : c ? d
// a chain
2 a +
3 a + +
0 * a
2 a * / b
2 a - * b
2 a + = b
1 a = b
1 a += b
1 a , b
3 a ; b
// a unary
1 -
1 !
1 ~
1 +
2 - !
1 a !
1 a ~ b
2 a - ;
0 ++a
0 --a
1 a++
1 a--
0 & a b
0 &a
0 *a
// what stands by itself
0 )
1 ()
2 (a
1 a)
2 (a]
2 (a, b)
2 (a = 1)
2 (a;)
3 (a)(b)
3 (a) b
1 (int) a
1 1 2
1 a b
1 1(2)
1 1[2]
3 (a)[1]
2 a[
2 a[]
3 a[1
3 a[1)
4 a[1][2]
4 a[1](2)
3 f()[1]
0 int
0 sizeof a
0 { 1 }
0 ,
0 ]
0 return 1
// a call as a value
2 f(
3 f(a
4 f(a,
4 f(a,)
2 f(, a)
3 f(a b)
3 f(a;)
2 f(int a)
3 f()()
2 f(void)";

/// The operators that stand between two operands only.
const BETWEEN: &str = "|| && | ^ & == != < <= > >= << >> * / %";

/// A text between a head and a tail is refused at its place. The head stands with the number of its tokens.
fn is_refused(
    rt: &impl Abort,
    alloc: Global,
    (head, before): (&str, u32),
    (text, place): (&str, u32),
    tail: &str,
) {
    let whole = format!(in alloc; "{head}{text}{tail}").expect(rt, "memory");
    let found = read(alloc, &whole);
    assert!(rt; found == Some(Err(place.saturating_add(before))), "{whole}");
}

/// The text of a row is refused at its place.
fn row_is_refused(rt: &impl Abort, alloc: Global, head: (&str, u32), row: &str, tail: &str) {
    let (place, text) = row.split_once(" ").expect(rt, "a place and a text");
    let place = place.parse::<u32>().expect(rt, "a place");
    let text = text.replace(alloc, "¶", "\n").expect(rt, "memory");
    is_refused(rt, alloc, head, (&text, place), tail);
}

/// The text of each row is refused at its place.
fn are_refused(rt: &impl Abort, alloc: Global, head: (&str, u32), rows: &str, tail: &str) {
    for row in rows.lines() {
        if !row.starts_with("//") {
            row_is_refused(rt, alloc, head, row, tail);
        }
    }
}

/// An operator between a head and a tail is refused, at 0, or what follows it, at 1.
fn operators_are_refused(
    rt: &impl Abort,
    alloc: Global,
    head: (&str, u32),
    place: u32,
    tail: &str,
) {
    for operator in BETWEEN.split(" ") {
        is_refused(rt, alloc, head, (operator, place), tail);
    }
}

#[test]
fn a_wrong_token_is_refused(rt: HostRuntime) {
    are_refused(&rt, rt.alloc(), ("", 0), ITEMS, "");
    are_refused(&rt, rt.alloc(), ("int f() { ", 5), BODIES, " }");
    are_refused(&rt, rt.alloc(), ("int f() { return ", 6), VALUES, "; }");
    operators_are_refused(&rt, rt.alloc(), ("int f() { return a ", 7), 1, "; }");
    operators_are_refused(&rt, rt.alloc(), ("int f() { return ", 6), 0, " a; }");
}

/// One function with each production of statements and expressions.
const WHOLE: &str =
    "int f(int a, int b) {\n int c = 1, d[2], s[3] __attribute__((stream)), t __attribute__((stream));\n \
     { d[a] = c; c <<= 2; c++; --d[1]; g(a, d[0]); }\n if (a) while (b) if (c) ; else break; else continue;\n \
     for (int i = 0, j; i < 2; i++) for (c = 1; ; d[1] -= 1) ;\n\
     #pragma omp task input(s[1] >> w[2], t), output(t << w) firstprivate(a, c)\n\
     #pragma omp tick(s[0] >> a ? b : c)\n#pragma omp taskwait\n return a || -b * (c + 1) ? g() : d[2]; }";

/// Where the list ends before the last token, it is refused at its end.
fn are_awaited(rt: &impl Abort, alloc: Global, tokens: &[Token]) {
    assert!(rt; tokens.len() <= 262_144);
    assert!(rt; matches!(read_tokens(alloc, tokens), Some(Ok(_))));
    for count in 1..tokens.len() {
        let found = read_tokens(alloc, &tokens[..count]);
        assert!(rt; found == Some(Err(count as u32)), "{count} tokens");
    }
}

/// Each token of a function is awaited.
#[test]
fn a_missing_end_is_refused(rt: HostRuntime) -> Result<(), Fail> {
    assert!(rt; WHOLE.len() <= 262_144);
    let tokens = lex(rt.alloc(), WHOLE.as_bytes())?;
    are_awaited(&rt, rt.alloc(), &tokens);
    Ok(())
}
