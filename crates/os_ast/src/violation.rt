use crate::rule::Rule;

/// A rule that a token violates: the token's place, the rule, and the token's line. Violations are ordered by these three, rules
/// by their codes.
#[derive(Clone, Copy, Debug, PartialEq, Eq, PartialOrd, Ord)]
pub struct Violation {
    pub place: u32,
    pub rule: Rule,
    pub line: u32,
}
