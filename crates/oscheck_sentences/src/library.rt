//! Names that C's library has, and what is said of them where they aren't declared.

use crate::words::{Row, find};

/// What is said of names of C's library that no declaration has.
static ROWS: [Row; 16] = [
    Row {
        words: &[
            "printf", "puts", "putchar", "fprintf", "fputc", "putc", "fputs", "fwrite", "perror",
            "scanf", "getchar", "fgetc", "getc", "fopen", "fclose", "fread", "read", "write",
            "stdin", "stdout", "stderr",
        ],
        after: " isn't here, as nothing of C's library is: a program reads osin and writes osout by its tasks",
    },
    Row {
        words: &["malloc", "calloc", "realloc", "free"],
        after: " isn't here, as nothing of C's library is: declare an array, whose size is a number or a constant",
    },
    Row {
        words: &["abs", "labs"],
        after: " isn't here, as nothing of C's library is: write x < 0 ? -x : x",
    },
    Row {
        words: &[
            "memcpy", "memmove", "memset", "memcmp", "strlen", "strcpy", "strcmp", "qsort",
        ],
        after: " isn't here, as nothing of C's library is: write a loop over the elements",
    },
    Row {
        words: &["assert", "abort"],
        after: " isn't here, as nothing of C's library is: test by if, and write to a stream what was found",
    },
    Row {
        words: &["exit"],
        after: " isn't here, as nothing of C's library is: return ends main or a function, and a task ends with its body",
    },
    Row {
        words: &["rand", "srand", "time", "clock"],
        after: " isn't here, as nothing of C's library is: what a program writes follows from its input alone",
    },
    Row {
        words: &[
            "pow", "sqrt", "sin", "cos", "tan", "exp", "log", "floor", "ceil", "round", "fabs",
        ],
        after: " isn't here, as nothing of C's library is and there are no fractions: write a function of whole numbers",
    },
    Row {
        words: &["true"],
        after: " isn't here: write 1",
    },
    Row {
        words: &["false"],
        after: " isn't here: write 0",
    },
    Row {
        words: &["NULL"],
        after: " isn't here, as there are no pointers: write a number",
    },
    Row {
        words: &["EOF", "feof"],
        after: " isn't here: osin_len says how many bytes the input has",
    },
    Row {
        words: &["INT_MAX", "INT32_MAX"],
        after: " isn't here: write 2147483647",
    },
    Row {
        words: &["INT_MIN", "INT32_MIN"],
        after: " isn't here: write -2147483647 - 1",
    },
    Row {
        words: &["UINT_MAX", "UINT32_MAX"],
        after: " isn't here: write 4294967295u",
    },
    Row {
        words: &["argc", "argv", "getenv"],
        after: " isn't here, as a program is handed no words: what it reads comes through osin",
    },
];

/// What is said of a name without a declaration that C's library has.
pub(crate) fn of_library(name: &str) -> Option<&'static str> {
    find(&ROWS, name)
}
