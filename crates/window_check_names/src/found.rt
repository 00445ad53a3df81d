ghost use Rattle.std.specs.Prelude.{◌≡◌, OnOk};
ghost use Rattle.window_check_names.specs.Findings.{nothing_found, before, lesser, pushed, all_task_rules, with_violation};
ghost use Rattle.window_check_names.specs.Findings.{with_violations, judged_with_violation, means, named, constant_found};
ghost use Rattle.window_check_names.specs.Findings.{started, started_in, slots_found, judged_in, violations_in};
ghost use Rattle.os_ast.specs.Rules.{when, takes_more};
ghost use Rattle.os_ast.specs.Violations.{violated, violations_at};
ghost use Rattle.window_check_names.specs.BrokenRules.{all_rules, rule_list, least_rule};
ghost use Rattle.os_ast.specs.declared.rule.Rule.TheVariants.{TaskLimit};

use crate::broken_rules::{BrokenRules, when};
use crate::captures::Captured;
use os_ast::{CAPTURED_LIMIT, ITEMS_LIMIT, Mark, Owner, Resolved, Rule, Violation, What};
use os_io::{List, Memory};
use std::alloc::Global;

/// What a walk over a part of a program finds.
#[derive(Drop)]
pub enum Found {
    /// The scalars of the control program that the part names.
    Listing(Captured),
    /// The least violation of the part, what its names mean, and what its tasks capture.
    Judging(Judged),
    /// All violations of the part.
    Collecting(List<Violation>),
}

/// A rule that a token violates.
fn violation(mark: Mark, rule: Rule) -> Violation
    ensures { result ≡ violated mark.place rule mark.line }
{
    Violation {
        place: mark.place,
        rule,
        line: mark.line,
    }
}

/// Adds a violation, where there is a rule.
fn add_rule(all: &mut List<Violation>, mark: Mark, rule: Option<Rule>) -> Result<(), Memory>
    ensures { OnOk result (all.new ≡ pushed all.old (violations_at mark (rule_list rule))) }
{
    match rule {
        Some(rule) => all.push(violation(mark, rule)),
        None => Ok(()),
    }
}

/// Adds a violation for each rule.
#[tactic(auto, using(crate::proofs::Noted::collecting))]
pub(crate) fn add_rules(
    all: &mut List<Violation>,
    mark: Mark,
    rules: BrokenRules,
) -> Result<(), Memory>
    ensures { OnOk result (all.new ≡ pushed all.old (violations_at mark (all_rules rules))) }
{
    let (first, second, third) = rules.parts();
    add_rule(all, mark, first)?;
    add_rule(all, mark, second)?;
    add_rule(all, mark, third)
}

/// The least violation so far, what each name means, and what each task captures.
#[derive(Drop)]
pub struct Judged {
    least: Option<Violation>,
    names: List<Resolved>,
    captured: List<List<u32>>,
}

/// Whether a violation comes before another: by place, then by code, then by line.
fn is_before(violation: Violation, other: Violation) -> bool
    ensures { result ≡ before violation other }
{
    violation.place < other.place
        || (violation.place == other.place
            && (violation.rule.code() < other.rule.code()
                || (violation.rule.code() == other.rule.code() && violation.line < other.line)))
}

/// The lesser of a violation and the least one so far.
fn lesser(least: Option<Violation>, violation: Violation) -> Violation
    ensures { result ≡ lesser least violation }
{
    match least {
        Some(least) if is_before(violation, least) => violation,
        Some(least) => least,
        None => violation,
    }
}

impl Judged {
    /// Nothing is found yet.
    pub fn new(alloc: Global) -> Judged
        ensures { result ≡ nothing_found }
    {
        Judged {
            least: None,
            names: List::new(alloc),
            captured: List::new(alloc),
        }
    }

    /// The least violation, the names, and what the tasks capture.
    pub fn into_parts(self) -> (Option<Violation>, List<Resolved>, List<List<u32>>)
        ensures least { result.0 ≡ self.least }
        ensures names { result.1 ≡ self.names }
        ensures captured { result.2 ≡ self.captured }
    {
        let Judged {
            least,
            names,
            captured,
        } = self;
        (least, names, captured)
    }

    /// Notes the rule that a token violates, where there is one.
    pub fn add_violation(&mut self, mark: Mark, rule: Option<Rule>)
        ensures { self.new ≡ judged_with_violation self.old mark rule }
    {
        if let Some(rule) = rule {
            self.least = Some(lesser(self.least, violation(mark, rule)));
        }
    }

    /// Notes what a name means, and whether that is of the type `unsigned`.
    pub(crate) fn name(&mut self, mark: Mark, what: What, unsigned: bool) -> Result<(), Memory>
        ensures { OnOk result (self.new ≡ named self.old mark what unsigned) }
    {
        self.names.push(Resolved {
            place: mark.place,
            what,
            unsigned,
        })
    }

    /// Notes a task that starts in `main` and captures these scalars, or one that starts elsewhere, where none may stand.
    fn task(
        &mut self,
        alloc: Global,
        owner: Owner,
        mark: Mark,
        items: usize,
        captured: &Captured,
    ) -> Result<(), Memory>
        ensures { OnOk result (self.new ≡ started_in self.old owner mark items captured.now) }
    {
        match owner {
            Owner::OfMain => {
                self.add_violation(mark, task_rule(items, captured.len()));
                let slots = captured.in_order(alloc)?;
                self.captured.push(slots)
            }
            Owner::OfFunction | Owner::OfTask => {
                self.add_violation(mark, Some(Rule::Misplaced));
                Ok(())
            }
        }
    }
}

impl Found {
    /// Notes the rule that a token violates, where there is one.
    pub fn add_violation(&mut self, mark: Mark, rule: Option<Rule>) -> Result<(), Memory>
        ensures { OnOk result (self.new ≡ with_violation self.old mark rule) }
    {
        match self {
            Found::Listing(_) => Ok(()),
            Found::Judging(judged) => {
                judged.add_violation(mark, rule);
                Ok(())
            }
            Found::Collecting(all) => add_rule(all, mark, rule),
        }
    }

    /// Notes the rules that a token violates.
    fn add_violations(&mut self, mark: Mark, rules: BrokenRules) -> Result<(), Memory>
        ensures { OnOk result (self.new ≡ with_violations self.old mark (all_rules rules)) }
    {
        match self {
            Found::Listing(_) => Ok(()),
            Found::Judging(judged) => {
                judged.add_violation(mark, rules.least());
                Ok(())
            }
            Found::Collecting(all) => add_rules(all, mark, rules),
        }
    }

    fn name(&mut self, mark: Mark, what: What, unsigned: bool) -> Result<(), Memory>
        ensures { OnOk result (self.new ≡ means self.old mark what unsigned) }
    {
        match self {
            Found::Listing(_) | Found::Collecting(_) => Ok(()),
            Found::Judging(judged) => judged.name(mark, what, unsigned),
        }
    }

    /// Notes that a name is declared: the rules that it violates, what it means, and whether it is of the type `unsigned`.
    pub fn declare(
        &mut self,
        mark: Mark,
        rules: BrokenRules,
        what: What,
        unsigned: bool,
    ) -> Result<(), Memory>
        ensures { OnOk result (self.new ≡ means (with_violations self.old mark (all_rules rules)) mark what unsigned) }
    {
        self.add_violations(mark, rules)?;
        self.name(mark, what, unsigned)
    }

    /// Notes that a name stands as a size: it is that of a constant where there is a value.
    pub(crate) fn constant(
        &mut self,
        mark: Mark,
        value: Option<i32>,
        unsigned: bool,
    ) -> Result<(), Memory>
        ensures { OnOk result (self.new ≡ constant_found self.old mark value unsigned) }
    {
        match value {
            None => Ok(()),
            Some(value) => self.name(mark, What::Constant(value), unsigned),
        }
    }

    /// Notes that a task begins in a body of this owner, how many items it has, and which scalars it captures.
    pub fn task(
        &mut self,
        alloc: Global,
        owner: Owner,
        mark: Mark,
        items: usize,
        captured: &Captured,
    ) -> Result<(), Memory>
        ensures { OnOk result (self.new ≡ started self.old owner mark items captured.now) }
    {
        match self {
            Found::Listing(_) => Ok(()),
            Found::Judging(judged) => judged.task(alloc, owner, mark, items, captured),
            Found::Collecting(all) => add_rules(
                all,
                mark,
                task_rules(owner, items, captured.len()),
            ),
        }
    }

    /// The scalars that were listed; none, where the walk did something else.
    pub fn into_listed(self, alloc: Global) -> Captured
        ensures { result ≡ slots_found self }
    {
        match self {
            Found::Listing(captured) => captured,
            Found::Judging(_) | Found::Collecting(_) => Captured::new(alloc),
        }
    }

    /// What was judged; nothing, where the walk did something else.
    pub fn into_judged(self, alloc: Global) -> Judged
        ensures { result ≡ judged_in self }
    {
        match self {
            Found::Listing(_) | Found::Collecting(_) => Judged::new(alloc),
            Found::Judging(judged) => judged,
        }
    }

    /// The violations that were collected; none, where the walk did something else.
    pub fn into_violations(self, alloc: Global) -> List<Violation>
        ensures { result ≡ violations_in self }
    {
        match self {
            Found::Listing(_) | Found::Judging(_) => List::new(alloc),
            Found::Collecting(all) => all,
        }
    }
}

/// A task has more items than it may have, or captures more scalars.
fn task_rule(items: usize, scalars: usize) -> Option<Rule>
    ensures { result ≡ least_rule (when (takes_more items scalars) TaskLimit) }
{
    when(
        ITEMS_LIMIT < items || CAPTURED_LIMIT < scalars,
        Rule::TaskLimit,
    )
}

/// All rules that the start of a task in a body of this owner violates.
#[tactic(auto, using(crate::proofs::Noted::collecting))]
fn task_rules(owner: Owner, items: usize, scalars: usize) -> BrokenRules
    ensures { all_rules result ≡ all_task_rules owner items scalars }
{
    match owner {
        Owner::OfMain => BrokenRules::one(task_rule(items, scalars)),
        Owner::OfFunction | Owner::OfTask => {
            BrokenRules::two(Some(Rule::Misplaced), task_rule(items, scalars))
        }
    }
}
