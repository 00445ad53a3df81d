//! The rules that a token violates.

ghost use Rattle.std.specs.Prelude.{◌≡◌, ◌++◌};
ghost use Rattle.os_ast.specs.Rules.{when};
ghost use Rattle.window_check_names.specs.BrokenRules.{all_rules, rule_list, least_rule, lesser_rule};

use os_ast::Rule;

/// The rule, where it is violated.
pub fn when(violated: bool, rule: Rule) -> Option<Rule>
    ensures { result ≡ least_rule (when violated rule) }
{
    if violated { Some(rule) } else { None }
}

/// The one of two rules that has the lesser code; where one is none, the other.
pub fn lesser(rule: Option<Rule>, other: Option<Rule>) -> Option<Rule>
    ensures { result ≡ lesser_rule rule other }
{
    match (rule, other) {
        (Some(rule), Some(other)) if other.code() < rule.code() => Some(other),
        (Some(rule), _) => Some(rule),
        (None, other) => other,
    }
}

/// The rules that a token violates, in the order of their codes: at most three.
#[derive(Clone, Copy)]
pub struct BrokenRules {
    first: Option<Rule>,
    second: Option<Rule>,
    third: Option<Rule>,
}

impl BrokenRules {
    /// The one rule of a token, where it is violated.
    pub fn one(rule: Option<Rule>) -> BrokenRules
        ensures { all_rules result ≡ rule_list rule }
    {
        BrokenRules {
            first: None,
            second: None,
            third: rule,
        }
    }

    /// Two rules of a token, each where it is violated.
    pub fn two(rule: Option<Rule>, other: Option<Rule>) -> BrokenRules
        ensures { all_rules result ≡ rule_list rule ++ rule_list other }
    {
        BrokenRules {
            first: None,
            second: rule,
            third: other,
        }
    }

    /// Three rules of a token, each where it is violated.
    pub fn three(first: Option<Rule>, second: Option<Rule>, third: Option<Rule>) -> BrokenRules
        ensures { all_rules result ≡ rule_list first ++ (rule_list second ++ rule_list third) }
    {
        BrokenRules {
            first,
            second,
            third,
        }
    }

    /// The rules in the order in which they were given, none where fewer are broken.
    pub(crate) fn parts(self) -> (Option<Rule>, Option<Rule>, Option<Rule>)
        ensures { rule_list result.0 ++ (rule_list result.1 ++ rule_list result.2) ≡ all_rules self }
    {
        (self.first, self.second, self.third)
    }

    /// The one with the least code.
    #[tactic(auto, using(crate::proofs::Noted::least_rules))]
    pub(crate) fn least(self) -> Option<Rule>
        ensures { result ≡ least_rule (all_rules self) }
    {
        lesser(self.first, lesser(self.second, self.third))
    }
}
