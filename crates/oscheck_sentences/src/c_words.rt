//! What C has and this language hasn't: what is said where such a word or mark is refused.

use crate::clause_words::of_clause;
use crate::context::{
    before_paren, depth, ends_with, from_end, is_among_clauses, is_at_front, is_clause_behind_line,
    is_constant, is_cut, is_declaration, is_first_name, is_in_brackets, is_in_head, is_in_parens,
    is_name_in_parens, last,
};
use crate::words::{Row, find, has};
use os_lexer::names::{INPUT, MAIN, OMP, OUTPUT};
use os_lexer::{Key, Kind, Punct, Token};

/// What is said of a type in parentheses before an operand.
const CAST: &str =
    "there are no casts; leave it out, or write & 255 behind the value where a byte is wanted";

/// What is said of a word where a type stands.
const NO_TYPE: &str = "this word is no type; write int or unsigned";

/// What is said behind such a word.
const NO_TYPE_BEFORE: &str = "the word before it is no type; write int or unsigned in its place";

/// What is said behind a name in parentheses.
const NAMED_CAST: &str =
    "there are no casts; take the word in parentheses out, or put an operator behind it";

/// What is said of arrays with two dimensions.
const DIMENSIONS: &str =
    "an array has one dimension; write int t[16] in place of int t[4][4], and t[i * 4 + j] in place of t[i][j]";

/// What is said where a pragma goes on in the next line.
const SPLIT: &str =
    "a pragma ends with its line; put a backslash at the end of each line that goes on in the next one";

/// What is said of keywords of C that no program has. The lexer knows them, so each is refused where it stands.
static ROWS: [Row; 9] = [
    Row {
        words: &["char", "short", "long", "signed", "_Bool"],
        after: "there is no such type; write int",
    },
    Row {
        words: &["float", "double", "_Complex", "_Imaginary"],
        after: "there are no fractions; write int, and count in parts of one, as in 65536ths",
    },
    Row {
        words: &["struct", "union"],
        after: "there are no structures; write a variable for each member",
    },
    Row {
        words: &["enum"],
        after: "there is no enum; write const int NAME = NUMBER; for each of its names",
    },
    Row {
        words: &["typedef"],
        after: "there is no typedef; write the type itself",
    },
    Row {
        words: &[
            "static",
            "extern",
            "auto",
            "register",
            "inline",
            "volatile",
            "restrict",
            "_Noreturn",
            "_Thread_local",
            "_Atomic",
        ],
        after: "there is no such word before a declaration; leave it out, and hand on by a stream what an activation leaves for later ones",
    },
    Row {
        words: &["do"],
        after: "there is no do; write its body once, and behind it while with the same body",
    },
    Row {
        words: &["switch", "case", "default"],
        after: "there is no switch; write if and else if",
    },
    Row {
        words: &["goto"],
        after: "there is no goto; write a loop, with break or continue",
    },
];

/// Whether what stands next would be a type in parentheses.
fn is_cast(front: &[Token]) -> bool {
    ends_with(front, Kind::Punct(Punct::OpenParen)) && depth(front) > 0
}

/// Whether a word of C behind `unsigned` makes it another type.
fn is_width(word: &str) -> bool {
    has(&["char", "short", "long"], word)
}

/// What is said of a keyword of C that no program has.
fn of_word(word: &str) -> Option<&'static str> {
    if word == "sizeof" {
        return Some("there is no sizeof; a size is a number of elements");
    }
    find(&ROWS, word)
}

/// What is said of a keyword of C that no program has, in parentheses or not.
fn of_key(front: &[Token], word: &str) -> Option<&'static str> {
    let sentence = of_word(word)?;
    if is_cast(front) {
        Some(CAST)
    } else if is_width(word) && ends_with(front, Kind::Key(Key::Unsigned)) {
        Some("unsigned stands alone or before int, and has 32 bits; leave the word out")
    } else {
        Some(sentence)
    }
}

/// What is said of `int`, `unsigned` or `void`.
fn of_type(front: &[Token], key: Key) -> Option<&'static str> {
    if is_cast(front) {
        return Some(CAST);
    }
    if key == Key::Void && depth(front) == 0 && is_at_front(front) {
        return Some("a function has a value; write int, and return 0; at its end");
    }
    if key == Key::Unsigned && ends_with(front, Kind::Key(Key::Int)) {
        return Some("unsigned stands before int, or alone");
    }
    None
}

/// What is said of `const`.
fn of_const(front: &[Token]) -> &'static str {
    if is_cast(front) {
        CAST
    } else if depth(front) > 0 {
        "a constant stands outside functions; move it before main, or leave const out"
    } else if is_in_parens(front) {
        "a parameter is a copy, which may be changed; leave const out"
    } else {
        "const stands before the type; write const int NAME = NUMBER;"
    }
}

/// What is said of a mark in a constant of the program.
fn of_constant(front: &[Token], mark: Punct) -> Option<&'static str> {
    match mark {
        Punct::OpenBracket => {
            Some("no constant is an array; write a function that gives the element by its index")
        }
        Punct::OpenParen if matches!(last(front), Some(Kind::Name(_))) => {
            Some("no function is const; leave the word out")
        }
        Punct::Semicolon if matches!(last(front), Some(Kind::Name(_))) => {
            Some("a constant has its number where it is declared; write const int NAME = NUMBER;")
        }
        Punct::Comma => Some(
            "each constant is declared by itself; write const int for this one too",
        ),
        Punct::Star if matches!(last(front), Some(Kind::Key(_))) => of_mark(front, mark),
        _ => of_constant_value(front),
    }
}

/// What is said of a token in the number of a constant.
fn of_constant_value(front: &[Token]) -> Option<&'static str> {
    match last(front) {
        Some(Kind::Punct(Punct::Set | Punct::Minus) | Kind::Number(_) | Kind::Wide(_)) => {
            Some("a constant is one number, with a minus before it or none; work the number out")
        }
        _ => None,
    }
}

/// What is said of `=`.
fn of_set(front: &[Token]) -> Option<&'static str> {
    if is_declaration(front) && ends_with(front, Kind::Punct(Punct::CloseBracket)) {
        return Some("an array has no first values; assign to its elements, one after another");
    }
    of_assigning(front)
}

/// What is said of an operator that assigns, behind a variable or an element.
fn of_assigning(front: &[Token]) -> Option<&'static str> {
    match last(front) {
        Some(Kind::Name(_) | Kind::Punct(Punct::CloseBracket)) => {
            Some(
                "an assignment is a statement of its own, and has no value; assign before, and compare by ==",
            )
        }
        _ => None,
    }
}

/// What is said of a comma.
fn of_comma(front: &[Token]) -> Option<&'static str> {
    if is_in_brackets(front) {
        return Some(DIMENSIONS);
    }
    if is_in_head(front) {
        return Some(
            "a part of a for's head is one change; put the others before the loop or into its body",
        );
    }
    if depth(front) > 0 && !is_in_parens(front) && !is_declaration(front) {
        return Some("no comma stands between expressions; write a statement for each");
    }
    None
}

/// What is said of a semicolon in a function.
fn of_semicolon(front: &[Token]) -> Option<&'static str> {
    if ends_with(front, Kind::Key(Key::Return)) {
        Some("return has a value; write return 0;")
    } else {
        None
    }
}

/// What is said of a mark outside functions.
fn outside(front: &[Token], mark: Punct) -> Option<&'static str> {
    if is_constant(front) {
        return of_constant(front, mark);
    }
    match mark {
        Punct::OpenBracket if is_in_parens(front) => {
            Some("no parameter is an array; pass elements, each as a parameter of its own")
        }
        Punct::Semicolon if ends_with(front, Kind::Punct(Punct::CloseParen)) => {
            Some(
                "a function is declared by its body alone, above what calls it, and there is no recursion; put the body here",
            )
        }
        Punct::OpenBracket if is_declaration(front) && !is_in_parens(front) => {
            Some(
                "there are no arrays outside functions; declare it in the function or the task that uses it",
            )
        }
        Punct::Semicolon | Punct::Set | Punct::Comma
            if is_declaration(front) && !is_in_parens(front) => {
            Some(
                "there are no variables outside functions; declare it in main, or write const int NAME = NUMBER; tasks hand on by streams",
            )
        }
        Punct::Star | Punct::BitAnd => of_mark(front, mark),
        _ => None,
    }
}

/// What is said of a mark in a function.
fn of_mark(front: &[Token], mark: Punct) -> Option<&'static str> {
    match mark {
        Punct::Star if is_first_name(front) => {
            Some("there are no pointers, and no types but int and unsigned; write an array of int")
        }
        Punct::Star if ends_with(front, Kind::Punct(Punct::Star)) => {
            Some("there is no operator ** and no pointer; write a * a, or multiply in a loop")
        }
        Punct::OpenParen if is_name_in_parens(front) => Some(NAMED_CAST),
        Punct::OpenBracket if ends_with(front, Kind::Punct(Punct::CloseBracket)) => Some(
            DIMENSIONS,
        ),
        Punct::CloseBracket if ends_with(front, Kind::Punct(Punct::OpenBracket)) => {
            Some("an array has a size here, which is a number or a constant; write it")
        }
        Punct::Colon if is_first_name(front) => {
            Some("there are no labels, as there is no goto; write a loop, with break or continue")
        }
        Punct::ShiftLeft | Punct::ShiftRight if is_first_name(front) => {
            Some(
                "a stream is read and written by the items of a task alone; write #pragma omp task with input or output",
            )
        }
        Punct::ShiftLeft if is_in_clause(front, INPUT) => {
            Some("an input item is written STREAM >> NAME; turn the arrow round")
        }
        Punct::ShiftRight if is_in_clause(front, OUTPUT) => {
            Some("an output item is written STREAM << NAME; turn the arrow round")
        }
        Punct::Star | Punct::BitAnd => {
            Some(
                "there are no pointers; write an array, and elements of it by their index; functions take and give numbers alone",
            )
        }
        Punct::Greater if ends_with(front, Kind::Punct(Punct::Minus)) => {
            Some("there are no pointers and no structures; write a variable for each member")
        }
        Punct::Up | Punct::Down => {
            Some(
                "++ and -- are statements of their own, and have no value; change the variable before or behind",
            )
        }
        Punct::Set => of_set(front),
        Punct::AddSet
        | Punct::SubtractSet
        | Punct::MultiplySet
        | Punct::DivideSet
        | Punct::RemainderSet
        | Punct::BitAndSet
        | Punct::BitXorSet
        | Punct::BitOrSet
        | Punct::ShiftLeftSet
        | Punct::ShiftRightSet => of_assigning(front),
        Punct::OpenBrace if ends_with(front, Kind::Punct(Punct::Set)) => {
            Some("there are no lists of first values; assign to elements, one after another")
        }
        Punct::Comma => of_comma(front),
        Punct::Semicolon => of_semicolon(front),
        _ => None,
    }
}

/// Whether the innermost open parenthesis is that of a clause with a word.
fn is_in_clause(front: &[Token], word: u32) -> bool {
    match before_paren(front) {
        Some(before) => ends_with(before, Kind::Name(word)),
        None => false,
    }
}

/// Whether a name stands last where the type of a statement's variable would.
fn is_behind_type(front: &[Token]) -> bool {
    is_first_name(front)
        || (matches!(last(front), Some(Kind::Name(_)))
            && from_end(front, 2) == Some(Kind::Punct(Punct::OpenParen))
            && from_end(front, 3) == Some(Kind::Key(Key::For)))
}

/// What is said of a name in a function.
fn of_name(front: &[Token]) -> Option<&'static str> {
    if is_behind_type(front) {
        Some(NO_TYPE_BEFORE)
    } else if is_name_in_parens(front) {
        Some(NAMED_CAST)
    } else {
        of_pragma(front)
    }
}

/// What is said of a name outside functions.
fn of_outer_name(front: &[Token]) -> Option<&'static str> {
    match last(front) {
        Some(Kind::Key(Key::Const)) => Some(NO_TYPE),
        Some(Kind::Punct(Punct::OpenParen | Punct::Comma)) if is_in_parens(front) => Some(NO_TYPE),
        _ if is_at_front(front) => {
            Some(
                "this word is no type; a function begins with int or unsigned, and a constant with const",
            )
        }
        _ if is_constant(front) => of_constant_value(front),
        _ => None,
    }
}

/// Whether the parameters of `main` are open.
fn is_in_main(front: &[Token]) -> bool {
    depth(front) == 0
        && match before_paren(front) {
            Some(before) => ends_with(before, Kind::Name(MAIN)),
            None => false,
        }
}

/// What is said of a word of a pragma that is none.
fn of_pragma(front: &[Token]) -> Option<&'static str> {
    match last(front) {
        Some(Kind::PragmaStart | Kind::Name(OMP)) => {
            Some("there are no pragmas but omp task, omp tick and omp taskwait")
        }
        _ => None,
    }
}

/// What is said of the end of a pragma's line.
fn of_line_end(front: &[Token]) -> Option<&'static str> {
    if is_cut(front) { Some(SPLIT) } else { None }
}

/// What is said of a token by its kind.
fn of_kind(front: &[Token], kind: Kind, word: &str) -> Option<&'static str> {
    match kind {
        Kind::Key(Key::Other) => of_key(front, word),
        Kind::Key(Key::Const) => Some(of_const(front)),
        Kind::Key(key @ (Key::Int | Key::Unsigned | Key::Void)) => of_type(front, key),
        Kind::Punct(mark) if depth(front) == 0 => outside(front, mark),
        Kind::Punct(mark) => of_mark(front, mark),
        Kind::Name(_) if depth(front) == 0 => of_outer_name(front),
        Kind::Name(_) => of_name(front),
        Kind::Number(_) | Kind::Wide(_) if is_name_in_parens(front) => Some(NAMED_CAST),
        Kind::PragmaStart if depth(front) == 0 => {
            Some(
                "a pragma stands in main, and is omp task, omp tick or omp taskwait; move it there, or take it out",
            )
        }
        _ => None,
    }
}

/// What is said of the token at the place where tokens stop being the front of any program, where it is one that C has there and
/// this language hasn't. `front` is the tokens before it, and `word` how it is spelled, which the end of a line isn't.
pub fn missing(front: &[Token], kind: Kind, word: &str) -> Option<&'static str> {
    if kind == Kind::PragmaEnd {
        of_line_end(front)
    } else if is_among_clauses(front) {
        of_clause(word)
    } else if is_clause_behind_line(front) {
        Some(SPLIT)
    } else if is_in_main(front) {
        Some(
            "main has no parameters, as a program is handed no words; write int main(void), and read osin by tasks",
        )
    } else {
        of_kind(front, kind, word)
    }
}
