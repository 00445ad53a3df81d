//! What stands in a table of cases, which is a text: cases with `====` between them, and in each a program, then `----`, and then rows, at
//! first one of a run.
//!
//! `run 4 3 = ..; Done` is a run of the control program: the length of the input, the budget, and the activations with the end.
//! `body 0 9 3 6 = Done 6` is a body: which activation of the first run, the budget, the inputs, and the end with what it writes.

/// A number of a row, by its place among the words.
pub fn number(row: &str, place: usize) -> u32 {
    let mut words = row.split_whitespace().skip(place);
    match words.next() {
        Some(word) => word.parse::<u32>().unwrap_or(0),
        None => 0,
    }
}

/// What stands behind the sign of equality of a row.
pub fn shown(row: &str) -> &str {
    match row.split_once(" = ") {
        Some((_, shown)) => shown,
        None => "",
    }
}
