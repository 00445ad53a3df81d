//! A round over lines that answer as they are told.
ghost use Rattle.std.specs.Prelude.{◌≤◌};

use crate::told::{Answer, Told};
use std::process::Abort;
use std::test::Fail;
use steal_pool::{Look, look_round};

/// What the own line and two others answer, what a round over them gives, and how many of them are asked.
struct Case {
    answers: [Answer; 3],
    gives: Look,
    asked: u64,
}

const CASES: [Case; 7] = [
    Case {
        answers: [Answer::Number, Answer::Number, Answer::Number],
        gives: Look::Frame(1),
        asked: 1,
    },
    Case {
        answers: [Answer::Empty, Answer::Number, Answer::Number],
        gives: Look::Frame(2),
        asked: 2,
    },
    Case {
        answers: [Answer::Raced, Answer::Empty, Answer::Number],
        gives: Look::Frame(3),
        asked: 3,
    },
    Case {
        answers: [Answer::Empty, Answer::Empty, Answer::Empty],
        gives: Look::Empty,
        asked: 3,
    },
    Case {
        answers: [Answer::Empty, Answer::Raced, Answer::Empty],
        gives: Look::Raced,
        asked: 3,
    },
    Case {
        answers: [Answer::Empty, Answer::Empty, Answer::Raced],
        gives: Look::Raced,
        asked: 3,
    },
    Case {
        answers: [Answer::Raced, Answer::Raced, Answer::Raced],
        gives: Look::Raced,
        asked: 3,
    },
];

/// The first line with a number gives it, and no line behind it is asked; a lost race is told where none gives any.
#[test]
fn asks_lines_in_turn(rt: HostRuntime) -> Result<(), Fail> {
    for case in &CASES {
        gives_so(&rt, case);
    }
    Ok(())
}

/// Whether a round over the lines of a case gives what it says, and asks as many of them.
fn gives_so(rt: &impl Abort, case: &Case) {
    let mut own = line_of(case.answers[0], 1);
    let mut others = [line_of(case.answers[1], 2), line_of(case.answers[2], 3)];
    let look = look_round(&mut own, &mut others);
    assert!(rt; look == case.gives);
    let asked = was_asked(own, case.answers[0])
        + was_asked(others[0], case.answers[1])
        + was_asked(others[1], case.answers[2]);
    assert!(rt; asked == case.asked);
}

fn line_of(answer: Answer, number: u32) -> Told {
    Told {
        answer,
        number,
        finds: 0,
        races: 0,
    }
}

/// 1 where a line was asked, that answers so.
fn was_asked(line: Told, answer: Answer) -> u64
    ensures { result ≤ 1 }
{
    let counted = line.finds > 0 || line.races > 0;
    let gave = matches!(answer, Answer::Number) && matches!(line.answer, Answer::Given);
    u64::from(counted || gave)
}
