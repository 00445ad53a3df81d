//! Words of OpenMP that no clause of a task here has: what is written in their place.

use crate::words::{Row, find};

/// What is said of words that stand where a clause begins.
static ROWS: [Row; 7] = [
    Row {
        words: &["in"],
        after: "a clause that reads is written input(STREAM >> NAME)",
    },
    Row {
        words: &["out"],
        after: "a clause that writes is written output(STREAM << NAME)",
    },
    Row {
        words: &["inout"],
        after: "there is no clause for both; write input(STREAM >> NAME) and output(STREAM << OTHER), with two names",
    },
    Row {
        words: &["depend"],
        after: "a task waits for what it reads; write input(STREAM >> NAME) here, and output(STREAM << NAME) at the task that writes it",
    },
    Row {
        words: &["shared"],
        after: "nothing is shared; a task has copies of the scalars that it names, and hands on by output(STREAM << NAME)",
    },
    Row {
        words: &["private", "reduction", "in_reduction", "linear"],
        after: "there is no such clause; declare what is the task's own in its body, and add up through a stream",
    },
    Row {
        words: &[
            "default",
            "if",
            "final",
            "untied",
            "mergeable",
            "priority",
            "nowait",
            "affinity",
            "detach",
            "allocate",
            "num_threads",
            "schedule",
        ],
        after: "there is no such clause; leave it out",
    },
];

/// What is said of a word where a clause of a task begins.
pub(crate) fn of_clause(word: &str) -> Option<&'static str> {
    find(&ROWS, word)
}
