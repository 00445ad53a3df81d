//! The tokens of texts.
//!
//! In a table a row is a line: a text, and behind an arrow what is wanted of it, each token with its slice and its line, or the error.
//! In a text `¶` is a line feed, and `°5c` a byte by its two digits.

use os_lexer::{Token, lex};
use std::alloc::Global;
use std::fmt::Write;
use std::process::Abort;

/// Adds what stands behind a `°`: the byte of two digits, and the rest.
fn push_coded(rt: &impl Abort, bytes: &mut Vec<u8>, piece: &[u8]) {
    let (digits, rest) = piece.split_at_checked(2).expect(rt, "two digits");
    let digits = str::from_utf8(digits).expect(rt, "two digits");
    let byte = u8::from_str_radix(digits, 16).expect(rt, "two digits");
    bytes.push(byte).expect(rt, "memory");
    bytes.extend_from_slice(rest).expect(rt, "memory");
}

/// Adds the bytes of a row's text, whose line feeds are there.
fn push_text(rt: &impl Abort, bytes: &mut Vec<u8>, text: &str) {
    let mut pieces = text.split("°");
    if let Some(first) = pieces.next() {
        bytes
            .extend_from_slice(first.as_bytes())
            .expect(rt, "memory");
    }
    for piece in pieces {
        push_coded(rt, bytes, piece.as_bytes());
    }
}

/// The bytes of a row's text.
fn bytes_of(rt: &impl Abort, alloc: Global, text: &str) -> Vec<u8> {
    let text = text.replace(alloc, "¶", "\n").expect(rt, "memory");
    let mut bytes = Vec::new(alloc);
    push_text(rt, &mut bytes, &text);
    bytes
}

/// Each token with its slice and its line.
fn write_tokens(rt: &impl Abort, out: &mut String, tokens: &[Token]) {
    for token in tokens {
        let Token {
            kind,
            start,
            end,
            line,
        } = *token;
        write!(out, " {kind:?}@{start}-{end}:{line}").expect(rt, "memory");
    }
}

/// The tokens of a text, or the error.
fn write_lexed(rt: &impl Abort, out: &mut String, alloc: Global, text: &[u8]) {
    assert!(rt; text.len() <= 262_144);
    match lex(alloc, text) {
        Ok(tokens) => write_tokens(rt, out, &tokens),
        Err(error) => write!(out, " {error:?}").expect(rt, "memory"),
    }
}

/// What the text of a row is taken apart into.
fn shown(rt: &impl Abort, alloc: Global, text: &str) -> String {
    let bytes = bytes_of(rt, alloc, text);
    let mut out = String::new(alloc);
    write_lexed(rt, &mut out, alloc, &bytes);
    out
}

/// The text of a row is cut into the tokens that the row says, or refused as it says.
fn holds(rt: &impl Abort, alloc: Global, row: &str) {
    let (text, wanted) = row.split_once(" =>").expect(rt, "a row with an arrow");
    let found = shown(rt, alloc, text);
    assert!(rt; found.as_str() == wanted, "{row}: {found}");
}

/// Each row of a table holds.
fn hold(rt: &impl Abort, alloc: Global, rows: &str) {
    for row in rows.lines() {
        holds(rt, alloc, row);
    }
}

const FAULTS_HAVE_THEIR_LINE: &str = "int main(void) { /* x => OpenComment { line: 1 }
int main(void) { return 2147483648; } => BigNumber { line: 1 }
int main(void) { return \"a\"; } => BadByte { line: 1 }
¶¶  @ => BadByte { line: 3 }
a¶/* b¶*/ /* c => OpenComment { line: 3 }
1¶¶0x100000000 => BigNumber { line: 3 }
°5c => BadByte { line: 1 }
a °5c b => BadByte { line: 1 }
°00 => BadByte { line: 1 }
/*°00°80*/ °80 => BadByte { line: 1 }
'a' => BadByte { line: 1 }
$ => BadByte { line: 1 }
` => BadByte { line: 1 }";

#[test]
fn faults_have_their_line(rt: HostRuntime) {
    hold(&rt, rt.alloc(), FAULTS_HAVE_THEIR_LINE);
}

const WHITE_SPACE_AND_JOINED_LINES: &str = " =>
 °09°0d¶°0b°0c =>
a°0db¶c°0bd°0ce => Name(12)@0-1:1 Name(13)@2-3:1 Name(14)@4-5:2 Name(15)@6-7:2 Name(16)@8-9:2
a°5c¶b => Name(12)@0-1:1 Name(13)@3-4:2
in°5c°0d¶t => Name(12)@0-2:1 Name(13)@5-6:2
+°5c¶= => Punct(Plus)@0-1:1 Punct(Set)@3-4:2
°5c°0d => BadByte { line: 1 }
a°0d¶b => Name(12)@0-1:1 Name(13)@3-4:2";

#[test]
fn white_space_and_joined_lines(rt: HostRuntime) {
    hold(&rt, rt.alloc(), WHITE_SPACE_AND_JOINED_LINES);
}

const COMMENTS: &str = "/*/ => OpenComment { line: 1 }
/**/ =>
/*/*/a => Name(12)@5-6:1
/***/a => Name(12)@5-6:1
/* // */a => Name(12)@8-9:1
// /* ¶a => Name(12)@7-8:2
//a°5c¶b¶c => Name(12)@7-8:3
//a°5c°0d¶b¶c => Name(12)@8-9:3
//a°5c ¶b => Name(12)@6-7:2
// =>
a//b => Name(12)@0-1:1
/°5c¶/ => Punct(Slash)@0-1:1 Punct(Slash)@3-4:2
/* °00°ff */1 => Number(1)@8-9:1
a/*¶*/b => Name(12)@0-1:1 Name(13)@6-7:2";

#[test]
fn comments(rt: HostRuntime) {
    hold(&rt, rt.alloc(), COMMENTS);
}

const WORDS: &str =
    "int intx xint if0 _if => Key(Int)@0-3:1 Name(13)@4-8:1 Name(14)@9-13:1 Name(15)@14-17:1 Name(16)@18-21:1
__attribute__ __attribute => Key(Attribute)@0-13:1 Name(13)@14-25:1
_Static_assert auto typedef => Key(Other)@0-14:1 Key(Other)@15-19:1 Key(Other)@20-27:1
omp task tick taskwait input output firstprivate stream main osin osout osin_len => Name(0)@0-3:1 Name(1)@4-8:1 Name(2)@9-13:1 Name(3)@14-22:1 \
     Name(4)@23-28:1 Name(5)@29-35:1 Name(6)@36-48:1 Name(7)@49-55:1 Name(8)@56-60:1 Name(9)@61-65:1 Name(10)@66-71:1 Name(11)@72-80:1
a b a osin b a1 A => Name(12)@0-1:1 Name(13)@2-3:1 Name(12)@4-5:1 Name(9)@6-10:1 Name(13)@11-12:1 Name(17)@13-15:1 Name(18)@16-17:1
unsigned unsigne unsigned_ unsigned0 _unsigned Unsigned unsignedint u U => Key(Unsigned)@0-8:1 Name(13)@9-16:1 Name(14)@17-26:1 Name(15)@27-36:1 \
     Name(16)@37-46:1 Name(17)@47-55:1 Name(18)@56-67:1 Name(19)@68-69:1 Name(20)@70-71:1
x int x => Name(12)@0-1:1 Key(Int)@2-5:1 Name(12)@6-7:1
+ a + a => Punct(Plus)@0-1:1 Name(13)@2-3:1 Punct(Plus)@4-5:1 Name(13)@6-7:1";

#[test]
fn words(rt: HostRuntime) {
    hold(&rt, rt.alloc(), WORDS);
}

const NUMBERS: &str =
    "0 1 10 2147483647 => Number(0)@0-1:1 Number(1)@2-3:1 Number(10)@4-6:1 Number(2147483647)@7-17:1
00 07 0777 017777777777 => Number(0)@0-2:1 Number(7)@3-5:1 Number(511)@6-10:1 Number(2147483647)@11-23:1
0x0 0XfF 0x7fffffff 0x0000000007fFfFfFf => Number(0)@0-3:1 Number(255)@4-8:1 Number(2147483647)@9-19:1 Number(2147483647)@20-39:1
08 => BadByte { line: 1 }
1a => BadByte { line: 1 }
0x => BadByte { line: 1 }
0xg => BadByte { line: 1 }
0X => BadByte { line: 1 }
09 => BadByte { line: 1 }
1_ => BadByte { line: 1 }
99999999999999999999999999999999 => BigNumber { line: 1 }
0b1 => BadByte { line: 1 }
1.5 => BadByte { line: 1 }
2147483648 => BigNumber { line: 1 }
4294967295 => BigNumber { line: 1 }
4294967296 => BigNumber { line: 1 }
0x100000000 => BigNumber { line: 1 }
040000000000 => BigNumber { line: 1 }
0xffffffffffffffffffffffff1 => BigNumber { line: 1 }";

#[test]
fn numbers(rt: HostRuntime) {
    hold(&rt, rt.alloc(), NUMBERS);
}

const WIDE_NUMBERS: &str =
    "0u 1U 2147483647u 2147483648u 4294967295U => Wide(0)@0-2:1 Wide(1)@3-5:1 Wide(2147483647)@6-17:1 Wide(2147483648)@18-29:1 Wide(4294967295)@30-41:1
00u 0777U 017777777777u 037777777777u => Wide(0)@0-3:1 Wide(511)@4-9:1 Wide(2147483647)@10-23:1 Wide(4294967295)@24-37:1
0x0u 0XfFU 0x7fffffffu 0xFfFfFfFfU => Wide(0)@0-4:1 Wide(255)@5-10:1 Wide(2147483647)@11-22:1 Wide(4294967295)@23-34:1
020000000000 037777777777 0x80000000 0Xffffffff 0x00000000fffffffe => Wide(2147483648)@0-12:1 Wide(4294967295)@13-25:1 Wide(2147483648)@26-36:1 \
     Wide(4294967295)@37-47:1 Wide(4294967294)@48-66:1
1u+2U-3 => Wide(1)@0-2:1 Punct(Plus)@2-3:1 Wide(2)@3-5:1 Punct(Minus)@5-6:1 Number(3)@6-7:1
1 u => Number(1)@0-1:1 Name(13)@2-3:1
4294967296u => BigNumber { line: 1 }
99999999999999999999999999999999U => BigNumber { line: 1 }
0x100000000u => BigNumber { line: 1 }
040000000000U => BigNumber { line: 1 }
¶4294967296u => BigNumber { line: 2 }
08u => BadByte { line: 1 }
09U => BadByte { line: 1 }
0xu => BadByte { line: 1 }
0XU => BadByte { line: 1 }
1uu => BadByte { line: 1 }
1uU => BadByte { line: 1 }
0x1uu => BadByte { line: 1 }
0uu => BadByte { line: 1 }
1L => BadByte { line: 1 }
1uL => BadByte { line: 1 }
1Lu => BadByte { line: 1 }
1ull => BadByte { line: 1 }
1u_ => BadByte { line: 1 }
1_u => BadByte { line: 1 }
1u2 => BadByte { line: 1 }
1au => BadByte { line: 1 }
0b1u => BadByte { line: 1 }";

#[test]
fn wide_numbers(rt: HostRuntime) {
    hold(&rt, rt.alloc(), WIDE_NUMBERS);
}

const MARKS_ARE_THE_LONGEST: &str =
    "<<= << <= < => Punct(ShiftLeftSet)@0-3:1 Punct(ShiftLeft)@4-6:1 Punct(LessEqual)@7-9:1 Punct(Less)@10-11:1
<<<=<<< => Punct(ShiftLeft)@0-2:1 Punct(LessEqual)@2-4:1 Punct(ShiftLeft)@4-6:1 Punct(Less)@6-7:1
+++++ => Punct(Up)@0-2:1 Punct(Up)@2-4:1 Punct(Plus)@4-5:1
a---b => Name(12)@0-1:1 Punct(Down)@1-3:1 Punct(Minus)@3-4:1 Name(15)@4-5:1
&&&||| => Punct(And)@0-2:1 Punct(BitAnd)@2-3:1 Punct(Or)@3-5:1 Punct(BitOr)@5-6:1
===== => Punct(Equal)@0-2:1 Punct(Equal)@2-4:1 Punct(Set)@4-5:1
!==~?:;,()[]{} => Punct(Unequal)@0-2:1 Punct(Set)@2-3:1 Punct(Invert)@3-4:1 Punct(Question)@4-5:1 Punct(Colon)@5-6:1 Punct(Semicolon)@6-7:1 \
     Punct(Comma)@7-8:1 Punct(OpenParen)@8-9:1 Punct(CloseParen)@9-10:1 Punct(OpenBracket)@10-11:1 Punct(CloseBracket)@11-12:1 \
     Punct(OpenBrace)@12-13:1 Punct(CloseBrace)@13-14:1
*=*%=%^=^|=|&=& => Punct(MultiplySet)@0-2:1 Punct(Star)@2-3:1 Punct(RemainderSet)@3-5:1 Punct(Percent)@5-6:1 Punct(BitXorSet)@6-8:1 \
     Punct(BitXor)@8-9:1 Punct(BitOrSet)@9-11:1 Punct(BitOr)@11-12:1 Punct(BitAndSet)@12-14:1 Punct(BitAnd)@14-15:1
/=/ / => Punct(DivideSet)@0-2:1 Punct(Slash)@2-3:1 Punct(Slash)@4-5:1
->>=> => Punct(Minus)@0-1:1 Punct(ShiftRightSet)@1-4:1 Punct(Greater)@4-5:1
-=-> => Punct(SubtractSet)@0-2:1 Punct(Minus)@2-3:1 Punct(Greater)@3-4:1
# => BadByte { line: 1 }";

#[test]
fn marks_are_the_longest(rt: HostRuntime) {
    hold(&rt, rt.alloc(), MARKS_ARE_THE_LONGEST);
}

const DIRECTIVES: &str =
    "#pragma omp task¶; => PragmaStart@0-7:1 Name(0)@8-11:1 Name(1)@12-16:1 PragmaEnd@16-17:1 Punct(Semicolon)@17-18:2
  #°09 pragma omp /* ¶ */ tick // x°5c¶ y¶z => PragmaStart@2-11:1 Name(0)@12-15:1 Name(2)@24-28:2 PragmaEnd@37-38:3 Name(16)@38-39:4
#pragma => PragmaStart@0-7:1 PragmaEnd@7-7:1
#pragma omp => PragmaStart@0-7:1 Name(0)@8-11:1 PragmaEnd@11-11:1
# pragma°5c¶ omp¶ => PragmaStart@0-8:1 Name(0)@11-14:2 PragmaEnd@14-15:2
#pragmaX => BadByte { line: 1 }
#pragma_ => BadByte { line: 1 }
#includes => BadByte { line: 1 }
#include <stdio.h>¶int => Key(Int)@19-22:2
#include \"a\" /*¶int => Key(Int)@16-19:2
#include°5c¶ #¶int => Key(Int)@13-16:3
#include =>
x #pragma => BadByte { line: 1 }
/* a */ #pragma => PragmaStart@8-15:1 PragmaEnd@15-15:1
x /* ¶ */ #pragma => Name(12)@0-1:1 PragmaStart@10-17:2 PragmaEnd@17-17:2
x °5c¶#pragma => Name(12)@0-1:1 PragmaStart@4-11:2 PragmaEnd@11-11:2
#pragma # => BadByte { line: 1 }
#pragma /*¶*/ # => BadByte { line: 2 }
#define => BadByte { line: 1 }
# °5c¶pragma => BadByte { line: 1 }
#/**/pragma => BadByte { line: 1 }
## => BadByte { line: 1 }
#pragma a°0d¶b => PragmaStart@0-7:1 Name(13)@8-9:1 PragmaEnd@10-11:1 Name(15)@11-12:2
#0pragma => BadByte { line: 1 }
int x;¶#pragma omp¶#pragma omp¶ => Key(Int)@0-3:1 Name(13)@4-5:1 Punct(Semicolon)@5-6:1 PragmaStart@7-14:2 Name(0)@15-18:2 PragmaEnd@18-19:2 \
     PragmaStart@19-26:3 Name(0)@27-30:3 PragmaEnd@30-31:3
#include a°5c°0d¶b¶#pragma => PragmaStart@15-22:3 PragmaEnd@22-22:3
//¶#pragma¶ => PragmaStart@3-10:2 PragmaEnd@10-11:2
°0c#include =>";

#[test]
fn directives(rt: HostRuntime) {
    hold(&rt, rt.alloc(), DIRECTIVES);
}
