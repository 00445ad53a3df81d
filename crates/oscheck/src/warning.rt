//! What an accepted program is warned of.

ghost use Rattle.std.specs.Prelude.{◌≡◌, ◌<◌, ◌≤◌, ◌+◌, ◌↔◌, ℕ, IsTrue, Option, Some, IfOk, IfSome, IfNone, OnOk, length, string_bytes, take};
ghost use Rattle.std.specs.List.{slice_get};
ghost use Rattle.front_end.specs.Texts.{IsAccepted};
ghost use Rattle.os_ast.specs.Trees.{ProgramTree};
ghost use Rattle.os_ast.specs.Views.{program_tree};
ghost use Rattle.os_ast.specs.declared.names.What.{What};
ghost use Rattle.os_lexer.specs.Cover.{IsTokenCover};
ghost use Rattle.os_lexer.specs.Limits.{text_limit};
ghost use Rattle.oscheck.specs.Findings.{EachTold};
ghost use Rattle.oscheck.specs.Marks.{MarkPlaces, MarkTokens};
ghost use Rattle.oscheck.specs.Reports.{IsReportOn, accepted_notes, verdict};
ghost use Rattle.oscheck.specs.Warned.{AreWarned, Holds, IsFirst, IsIdle, IsOctalAt, IsWarningOf, all_warnings, kind_of};
ghost use Rattle.oscheck_reports.specs.declared.warning.Warning.{Warning as AnyWarning};
ghost use Rattle.oscheck_warnings.specs.Meanings.{meaning_at};

use crate::found::found_at;
use crate::judging::Named;
use crate::manner::{Extent, Manner, Strictness};
use crate::reports::more_notes;
use os_io::Memory;
use os_lexer::names::{INPUT, OUTPUT};
use os_lexer::{Kind, Token, lex};
use oscheck_places::Spot;
use oscheck_reports::{Check, Finding, Note, Report, Severity, Warning as WarningCheck};
use oscheck_sentences::{Word, word_of};
use oscheck_warnings::{
    Places, dead_stores, is_bare_task, is_empty_body, is_left_out, is_lone_name, is_octal,
    names_in_clauses, open_ended, repeated_names, wrong_bursts, wrong_sizes,
};
use std::alloc::Global;
use std::io;
use window_check::Checked;

/// What a token is warned of.
#[derive(Clone, Copy)]
enum Warning {
    /// A task without clauses begins with it.
    BareTask,
    /// It is a name that is declared, and nothing uses it.
    LoneName,
    /// It declares a stream that no task reads, or that no task writes.
    Stream(Lack),
    /// It is a scalar that a task changes, and nothing in the task reads it after that.
    DeadStore,
    /// It is a window in an output item whose burst is a constant other than its size.
    WrongBurst,
    /// It declares a window whose size is a constant that no window has.
    WrongSize,
    /// It is a function that can end without `return`.
    OpenEnd,
    /// It is `if`, `while` or `for`, and the body is `;` directly behind its parentheses.
    EmptyBody,
    /// It is a number whose digits are octal, with this value.
    Octal(u32),
}

impl Warning {
    /// Which check it is an instance of.
    fn kind(self) -> WarningCheck
        ensures { result ≡ kind_of self }
    {
        match self {
            Warning::BareTask => WarningCheck::BareTask,
            Warning::LoneName => WarningCheck::LoneName,
            Warning::Stream(_) => WarningCheck::IdleStream,
            Warning::DeadStore => WarningCheck::DeadStore,
            Warning::WrongBurst => WarningCheck::WrongBurst,
            Warning::WrongSize => WarningCheck::WrongSize,
            Warning::OpenEnd => WarningCheck::OpenEnd,
            Warning::EmptyBody => WarningCheck::EmptyBody,
            Warning::Octal(_) => WarningCheck::Octal,
        }
    }
}

/// What tasks don't do with a stream.
#[derive(Clone, Copy)]
enum Lack {
    /// No task reads it.
    Reads,
    /// No task writes it.
    Writes,
    /// No task reads it, and none writes it.
    Both,
}

impl Lack {
    /// How a sentence about the stream begins.
    fn told(self) -> &'static str {
        match self {
            Lack::Reads => "no task reads",
            Lack::Writes => "no task writes",
            Lack::Both => "no task reads or writes",
        }
    }
}

/// What the names of a program are used for.
#[derive(Drop)]
struct Uses {
    /// The names that are spelled once more, by the places at which they stand first.
    repeated: Vec<bool>,
    /// The names of the streams that tasks read, by the numbers of the names.
    read: Vec<bool>,
    /// The names of the streams that tasks write, by the numbers of the names.
    written: Vec<bool>,
    /// The places of the changes of scalars in tasks that nothing reads.
    dead: Places,
    /// The places of the windows in output items whose bursts trap.
    wrong: Places,
    /// The places of the windows whose sizes trap.
    sizes: Places,
    /// The places of the functions that can end without `return`.
    open_ended: Places,
}

/// What the names of a program are used for.
fn uses_of(alloc: Global, tokens: &[Token], checked: &Checked) -> Result<Uses, Memory>
    requires { length tokens.now ≤ text_limit }
    ensures tokens { IfOk result (MarkTokens tokens.now) }
    ensures places { IfOk result (MarkPlaces (program_tree checked.now.program) (meaning_at checked.now.names)) }
{
    let repeated = repeated_names(alloc, tokens)?;
    let read = names_in_clauses(alloc, tokens, INPUT)?;
    let written = names_in_clauses(alloc, tokens, OUTPUT)?;
    let dead = dead_stores(alloc, &checked.program, checked.names.as_slice())?;
    let wrong = wrong_bursts(alloc, &checked.program, checked.names.as_slice())?;
    let sizes = wrong_sizes(alloc, &checked.program, checked.names.as_slice())?;
    let open_ended = open_ended(alloc, &checked.program)?;
    Ok(Uses {
        repeated,
        read,
        written,
        dead,
        wrong,
        sizes,
        open_ended,
    })
}

/// Whether tasks don't read, or don't write, the stream that is declared at a place.
fn is_idle(tokens: &[Token], uses: &Uses, place: usize) -> bool
    requires within { place < length tokens.now }
    requires few { length tokens.now ≤ text_limit }
    requires marks { MarkTokens tokens.now uses.now }
    ensures { IsTrue result ↔ IsIdle tokens.now place }
{
    is_left_out(tokens, INPUT, &uses.read, place)
        || is_left_out(tokens, OUTPUT, &uses.written, place)
}

/// What tasks don't do with a stream that is declared at a place, and with which they don't do all.
fn lack_at(tokens: &[Token], uses: &Uses, place: usize) -> Lack
    requires within { place < length tokens.now }
    requires few { length tokens.now ≤ text_limit }
    requires marks { MarkTokens tokens.now uses.now }
{
    match (
        is_left_out(tokens, INPUT, &uses.read, place),
        is_left_out(tokens, OUTPUT, &uses.written, place),
    ) {
        (true, true) => Lack::Both,
        (true, false) => Lack::Reads,
        _ => Lack::Writes,
    }
}

/// The value of a number.
fn value_of(token: Token) -> u32 {
    match token.kind {
        Kind::Number(value) | Kind::Wide(value) => value,
        _ => 0,
    }
}

/// Whether a number stands at a place whose digits are octal.
fn is_octal_at(text: &[u8], tokens: &[Token], place: usize) -> bool
    ensures { IsTrue result ↔ IsOctalAt text.now tokens.now place }
{
    match tokens.get(place) {
        Some(token) => is_octal(text, *token),
        None => false,
    }
}

/// Whether there is this to warn of at a place.
fn holds(check: WarningCheck, text: &[u8], tokens: &[Token], uses: &Uses, place: usize) -> bool
    requires within { place < length tokens.now }
    requires few { length tokens.now ≤ text_limit }
    requires marks { MarkTokens tokens.now uses.now }
    ensures { (p : ProgramTree) (means : ℕ → Option What) → MarkPlaces p means uses.now
        → IsTrue result ↔ Holds text.now tokens.now p means check place }
{
    match check {
        WarningCheck::BareTask => is_bare_task(tokens, place),
        WarningCheck::LoneName => is_lone_name(tokens, &uses.repeated, place),
        WarningCheck::IdleStream => is_idle(tokens, uses, place),
        WarningCheck::DeadStore => uses.dead.has(place as u32),
        WarningCheck::WrongBurst => uses.wrong.has(place as u32),
        WarningCheck::WrongSize => uses.sizes.has(place as u32),
        WarningCheck::OpenEnd => uses.open_ended.has(place as u32),
        WarningCheck::EmptyBody => is_empty_body(tokens, place),
        WarningCheck::Octal => is_octal_at(text, tokens, place),
    }
}

/// All that there may be to warn of: at a place the first that holds is told.
fn all_warnings() -> &'static [WarningCheck]
    ensures { result.now ≡ all_warnings }
{
    &[
        WarningCheck::BareTask,
        WarningCheck::LoneName,
        WarningCheck::IdleStream,
        WarningCheck::DeadStore,
        WarningCheck::WrongBurst,
        WarningCheck::WrongSize,
        WarningCheck::OpenEnd,
        WarningCheck::EmptyBody,
        WarningCheck::Octal,
    ]
}

/// What is told of a place.
fn first_at(text: &[u8], tokens: &[Token], uses: &Uses, place: usize) -> Option<WarningCheck>
    requires within { place < length tokens.now }
    requires few { length tokens.now ≤ text_limit }
    requires marks { MarkTokens tokens.now uses.now }
    ensures some { (p : ProgramTree) (means : ℕ → Option What) → MarkPlaces p means uses.now
        → IfSome result (IsFirst text.now tokens.now p means place) }
    ensures none { (p : ProgramTree) (means : ℕ → Option What) → MarkPlaces p means uses.now
        → IfNone result ((check : AnyWarning) → Holds text.now tokens.now p means check place → ⊥) }
{
    let all = all_warnings();
    for number in 0..all.len() {
        let check = all[number];
        if holds(check, text, tokens, uses, place) {
            return Some(check);
        }
    }
    None
}

/// What is told of a place, with what its sentence speaks of.
fn warning_of(check: WarningCheck, tokens: &[Token], uses: &Uses, place: usize) -> Warning
    requires within { place < length tokens.now }
    requires few { length tokens.now ≤ text_limit }
    requires marks { MarkTokens tokens.now uses.now }
    ensures { kind_of result ≡ check }
{
    match check {
        WarningCheck::BareTask => Warning::BareTask,
        WarningCheck::LoneName => Warning::LoneName,
        WarningCheck::IdleStream => Warning::Stream(lack_at(tokens, uses, place)),
        WarningCheck::DeadStore => Warning::DeadStore,
        WarningCheck::WrongBurst => Warning::WrongBurst,
        WarningCheck::WrongSize => Warning::WrongSize,
        WarningCheck::OpenEnd => Warning::OpenEnd,
        WarningCheck::EmptyBody => Warning::EmptyBody,
        WarningCheck::Octal => Warning::Octal(value_of(tokens[place])),
    }
}

/// A token that is warned of, with its place among the tokens.
#[derive(Clone, Copy)]
pub(crate) struct Warned {
    place: usize,
    token: Token,
    warning: Warning,
}

/// What there is to warn of at a place.
fn warned_at(text: &[u8], tokens: &[Token], uses: &Uses, place: usize) -> Option<Warned>
    requires within { place < length tokens.now }
    requires few { length tokens.now ≤ text_limit }
    requires marks { MarkTokens tokens.now uses.now }
    ensures place { IfSome result (λ warned. warned.place ≡ place) }
    ensures token { IfSome result (λ warned. slice_get tokens.now place ≡ Some warned.token) }
    ensures some { (p : ProgramTree) (means : ℕ → Option What) → MarkPlaces p means uses.now
        → IfSome result (λ warned. IsFirst text.now tokens.now p means place (kind_of warned.warning)) }
    ensures none { (p : ProgramTree) (means : ℕ → Option What) → MarkPlaces p means uses.now
        → IfNone result ((check : AnyWarning) → Holds text.now tokens.now p means check place → ⊥) }
{
    match first_at(text, tokens, uses, place) {
        Some(check) => Some(Warned {
            place,
            token: tokens[place],
            warning: warning_of(check, tokens, uses, place),
        }),
        None => None,
    }
}

/// Adds what there is to warn of at a place.
fn add_warned(
    all: &mut Vec<Warned>,
    text: &[u8],
    tokens: &[Token],
    uses: &Uses,
    place: usize,
) -> Result<(), Memory>
    requires within { place < length tokens.now }
    requires few { length tokens.now ≤ text_limit }
    requires marks { MarkTokens tokens.now uses.now }
    ensures { (p : ProgramTree) (means : ℕ → Option What) → MarkPlaces p means uses.now
        → AreWarned text.now tokens.now p means place all.old.items
        → OnOk result (AreWarned text.now tokens.now p means (place + 1) all.new.items) }
{
    if let Some(warned) = warned_at(text, tokens, uses, place) {
        all.push(warned)?;
    }
    Ok(())
}

/// All that there is to warn of in a program.
fn warned_in(
    alloc: Global,
    text: &[u8],
    tokens: &[Token],
    uses: &Uses,
) -> Result<Vec<Warned>, Memory>
    requires few { length tokens.now ≤ text_limit }
    requires marks { MarkTokens tokens.now uses.now }
    ensures { (p : ProgramTree) (means : ℕ → Option What) → MarkPlaces p means uses.now
        → IfOk result (λ all. AreWarned text.now tokens.now p means (length tokens.now) all.items) }
{
    let mut all = Vec::new(alloc);
    for place in 0..tokens.len() {
        add_warned(&mut all, text, tokens, uses, place)?;
    }
    Ok(all)
}

/// Writes what a warning says.
fn tell_warning(out: &mut impl io::Write, word: Word<'_>, warning: Warning) -> io::Result<()> {
    match warning {
        Warning::BareTask => write!(
            out,
            "a task without clauses reads no stream and writes none: give it an item, or take it out"
        ),
        Warning::LoneName => tell_lone(out, word),
        Warning::Stream(lack) => tell_stream(out, lack, word),
        Warning::DeadStore => tell_dead_store(out, word),
        Warning::WrongBurst => tell_wrong_burst(out, word),
        Warning::WrongSize => tell_wrong_size(out, word),
        Warning::OpenEnd => tell_open_end(out, word),
        Warning::EmptyBody => tell_empty_body(out, word),
        Warning::Octal(value) => tell_octal(out, word, value),
    }
}

/// Tells that nothing uses a name.
fn tell_lone(out: &mut impl io::Write, name: Word<'_>) -> io::Result<()> {
    write!(out, "nothing uses ")?;
    name.write(out)?;
    write!(out, ": take it out")
}

/// Tells what no task does with a stream.
fn tell_stream(out: &mut impl io::Write, lack: Lack, stream: Word<'_>) -> io::Result<()> {
    let told = lack.told();
    write!(out, "{told} the stream ")?;
    stream.write(out)?;
    write!(out, ": give a task an item of it, or take it out")
}

/// Tells that nothing reads a change of a scalar.
fn tell_dead_store(out: &mut impl io::Write, scalar: Word<'_>) -> io::Result<()> {
    write!(out, "nothing in the task reads ")?;
    scalar.write(out)?;
    write!(
        out,
        " after this change, which no other task and not 'main' sees: write it to a stream, or take it out"
    )
}

/// Tells that the burst of a window traps.
fn tell_wrong_burst(out: &mut impl io::Write, window: Word<'_>) -> io::Result<()> {
    write!(out, "the burst of ")?;
    window.write(out)?;
    write!(
        out,
        " isn't its size, so that the task traps where it is created (code 8): give the size"
    )
}

/// Tells that the size of a window traps.
fn tell_wrong_size(out: &mut impl io::Write, window: Word<'_>) -> io::Result<()> {
    write!(out, "the size of the window ")?;
    window.write(out)?;
    write!(
        out,
        " isn't from 1 to 65536, so that main traps where it is declared (code 6): give another size"
    )
}

/// Tells that a function can end without `return`.
fn tell_open_end(out: &mut impl io::Write, function: Word<'_>) -> io::Result<()> {
    function.write(out)?;
    write!(
        out,
        " can end without return, and its value is 0 then: end it by return"
    )
}

/// Tells that the body of an `if` or of a loop is empty.
fn tell_empty_body(out: &mut impl io::Write, word: Word<'_>) -> io::Result<()> {
    write!(out, "the body of this ")?;
    word.write(out)?;
    write!(
        out,
        " is the ; behind its parentheses: take the ; out, or put a blank before it where nothing is to be done"
    )
}

/// Tells that a number is octal, and its value.
fn tell_octal(out: &mut impl io::Write, number: Word<'_>, value: u32) -> io::Result<()> {
    number.write(out)?;
    write!(
        out,
        " begins with 0, so that it is octal, and means {value}: leave the 0 out where its digits are decimal"
    )
}

/// A warning at its token.
fn warning_found(alloc: Global, text: &[u8], warned: Warned) -> Result<Finding, Memory>
    ensures { IfOk result (IsWarningOf text.now warned) }
{
    let Warned { token, warning, .. } = warned;
    let mut said = Vec::new(alloc);
    match tell_warning(&mut said, word_of(text, token), warning) {
        Ok(()) => {
            let check = Check::Warning(warning.kind());
            found_at(alloc, text, check, Spot::of_token(token), &said)
        }
        Err(_) => Err(Memory),
    }
}

/// The first of some warnings, at most so many.
fn warnings_found(
    alloc: Global,
    text: &[u8],
    all: &[Warned],
    most: usize,
) -> Result<Vec<Finding>, Memory>
    ensures { IfOk result (λ findings. EachTold (IsWarningOf text.now) (take most all.now) findings.items) }
{
    let mut findings = Vec::new(alloc);
    for number in 0..all.len().min(most) {
        findings.push(warning_found(alloc, text, all[number])?)?;
    }
    Ok(findings)
}

/// The note that a program with so many warnings is accepted, or that it isn't.
fn verdict(count: usize, strictness: Strictness) -> Note
    ensures { result ≡ verdict count strictness }
{
    if count > 0 && strictness == Strictness::Strict {
        Note::RefusedForWarnings
    } else {
        Note::Accepted
    }
}

/// The notes on a program with so many warnings.
fn notes_on(alloc: Global, count: usize, manner: Manner) -> Result<Vec<Note>, Memory>
    ensures { IfOk result (λ notes. notes.items ≡ accepted_notes manner count) }
{
    let mut notes = more_notes(alloc, Severity::Warning, manner.extent.more(count))?;
    notes.push(verdict(count, manner.strictness))?;
    Ok(notes)
}

/// A report on an accepted program, by its tokens.
fn report_of_tokens(
    alloc: Global,
    named: Named<'_>,
    tokens: &[Token],
    checked: &Checked,
    manner: Manner,
) -> Result<Report, Memory>
    requires few { length tokens.now ≤ text_limit }
    requires cover { IsTokenCover named.text.now tokens.now }
    requires accepted { IsAccepted named.text.now (program_tree checked.now.program) }
    ensures name { IfOk result (λ report. string_bytes report.name ≡ named.entry.name.now) }
    ensures report { IfOk result (IsReportOn named.entry.text.now manner) }
{
    let uses = uses_of(alloc, tokens, checked)?;
    let all = warned_in(alloc, named.text, tokens, &uses)?;
    let findings = warnings_found(alloc, named.text, &all, manner.extent.most())?;
    let notes = notes_on(alloc, all.len(), manner)?;
    let name = String::from_str(alloc, named.name)?;
    Ok(Report {
        name,
        findings,
        notes,
    })
}

/// A report on an accepted program: what it is warned of, and whether it is accepted for all that.
pub(crate) fn accepted_report(
    alloc: Global,
    named: Named<'_>,
    checked: &Checked,
    manner: Manner,
) -> Result<Report, Memory>
    requires few { length named.text.now ≤ text_limit }
    requires accepted { IsAccepted named.text.now (program_tree checked.now.program) }
    ensures name { IfOk result (λ report. string_bytes report.name ≡ named.entry.name.now) }
    ensures report { IfOk result (IsReportOn named.entry.text.now manner) }
{
    match lex(alloc, named.text) {
        Ok(tokens) => report_of_tokens(alloc, named, &tokens, checked, manner),
        Err(_) => Err(Memory),
    }
}
