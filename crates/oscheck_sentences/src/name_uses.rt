//! Where the names of a program stand and what they mean, as far as sentences speak of that.
//!
//! One walk over the tokens of a text that means a program keeps which declarations are in scope. What the head of a `for` declares stays
//! in scope up to the end of the block round it.

use crate::words::kind_at;
use os_io::Memory;
use os_lexer::names::{FIRSTPRIVATE, OSIN, OSIN_LEN, OSOUT, TICK};
use os_lexer::{Key, Kind, Punct, Token};
use std::alloc::Global;
use std::collections::{BTreeMap, BTreeSet};

/// How large a constant is, as a size.
#[derive(Clone, Copy, PartialEq, Eq)]
pub(crate) enum Magnitude {
    /// Below 1.
    Small,
    /// From 1 to 65,536.
    Size,
    /// Above 65,536.
    Large,
}

/// What a name means.
#[derive(Clone, Copy, PartialEq, Eq)]
pub(crate) enum Meant {
    /// No declaration of it is in scope.
    Nothing,
    /// The function that it stands in.
    Itself,
    /// A function that stands further down.
    Later,
    Constant(Magnitude),
    /// A function that stands above.
    Function,
    Scalar,
    /// An array, or a window.
    Array,
    Stream,
    /// An array of streams.
    Streams,
}

/// Where a name stands.
#[derive(Clone, Copy, PartialEq, Eq)]
pub(crate) enum Role {
    /// As a value, called, as the target of a change, or where it is declared.
    Value,
    /// As a whole argument of a call.
    Argument,
    /// As the stream of an item or a tick.
    Flow,
    /// Behind the arrow of an item.
    Joined,
    /// In `firstprivate`.
    Private,
}

/// Where a name stands, and what it means.
#[derive(Clone, Copy)]
pub struct Use {
    pub(crate) role: Role,
    pub(crate) meant: Meant,
}

/// What a bracket belongs to that is open.
#[derive(Clone, Copy, PartialEq, Eq)]
enum Open {
    /// A call, or the parameters of a function.
    Call,
    /// A clause or a tick with this word.
    Clause(u32),
    /// An index, or the bracket of an expression or of the head of a statement.
    Other,
}

/// What a name meant before a declaration hid that.
#[derive(Clone, Copy)]
struct Hidden {
    name: u32,
    meant: Meant,
}

/// What a walk keeps.
#[derive(Drop)]
struct Walk<'a> {
    tokens: &'a [Token],
    known: BTreeMap<u32, Meant>,
    /// All functions of the text.
    functions: BTreeSet<u32>,
    hidden: Vec<Hidden>,
    /// How much was hidden before each open block.
    blocks: Vec<usize>,
    brackets: Vec<Open>,
    /// How many brackets are open round the declaration that stands there.
    declaring: Option<usize>,
    /// Whether it is one of a constant.
    is_constant: bool,
    /// The function whose parameters or body stand there.
    own: Option<u32>,
    /// Whether the line of a pragma stands there.
    in_line: bool,
}

/// The kind of the token before a place.
fn kind_before(tokens: &[Token], place: usize) -> Option<Kind> {
    kind_at(tokens, place.checked_sub(1)?)
}

/// Whether a type stands before a place.
fn is_behind_type(tokens: &[Token], place: usize) -> bool {
    matches!(
        kind_before(tokens, place),
        Some(Kind::Key(Key::Int | Key::Unsigned))
    )
}

/// The name of the function whose declaration begins at a place.
fn function_at(tokens: &[Token], place: usize) -> Option<u32> {
    match kind_at(tokens, place) {
        Some(Kind::Name(name))
            if is_behind_type(tokens, place)
                && kind_at(tokens, place.saturating_add(1))
                    == Some(Kind::Punct(Punct::OpenParen)) => Some(name),
        _ => None,
    }
}

/// The functions of a text.
fn functions_of(alloc: Global, tokens: &[Token]) -> Result<BTreeSet<u32>, Memory> {
    let mut functions = BTreeSet::new(alloc);
    for place in 0..tokens.len() {
        if let Some(name) = function_at(tokens, place) {
            functions.insert(name)?;
        }
    }
    Ok(functions)
}

/// What stands behind the bracket that is opened at a place.
fn kind_behind_bracket(tokens: &[Token], place: usize) -> Option<Kind> {
    let mut open: usize = 0;
    let mut next = place;
    for token in tokens.get(place..)? {
        next = next.saturating_add(1);
        match token.kind {
            Kind::Punct(Punct::OpenBracket) => open = open.saturating_add(1),
            Kind::Punct(Punct::CloseBracket) => open = open.saturating_sub(1),
            _ => {}
        }
        if open == 0 {
            return kind_at(tokens, next);
        }
    }
    None
}

/// How large a number is, as a size.
pub(crate) fn magnitude_of(number: u32) -> Magnitude {
    match number {
        0 => Magnitude::Small,
        1..=65_536 => Magnitude::Size,
        _ => Magnitude::Large,
    }
}

/// How large a number is that is converted to a type, as a size.
fn converted(number: u32, is_unsigned: bool) -> Magnitude {
    if !is_unsigned && number > 2_147_483_647 {
        Magnitude::Small
    } else {
        magnitude_of(number)
    }
}

/// Whether the type before a name is `unsigned`.
fn is_unsigned(tokens: &[Token], place: usize) -> bool {
    let before = place.saturating_sub(1);
    kind_before(tokens, place) == Some(Kind::Key(Key::Unsigned))
        || kind_before(tokens, before) == Some(Kind::Key(Key::Unsigned))
}

/// How large the constant is that is declared at a place, as a size.
fn constant_at(tokens: &[Token], place: usize) -> Magnitude {
    let is_unsigned = is_unsigned(tokens, place);
    match kind_at(tokens, place.saturating_add(2)) {
        Some(Kind::Number(number) | Kind::Wide(number)) => converted(number, is_unsigned),
        _ => match kind_at(tokens, place.saturating_add(3)) {
            Some(Kind::Number(number) | Kind::Wide(number)) => {
                converted(0u32.wrapping_sub(number), is_unsigned)
            }
            _ => Magnitude::Small,
        },
    }
}

impl<'a> Walk<'a> {
    /// A walk at the front of a text.
    fn new(alloc: Global, tokens: &'a [Token]) -> Result<Walk<'a>, Memory> {
        let functions = functions_of(alloc, tokens)?;
        let mut known = BTreeMap::new(alloc);
        known.insert(OSIN, Meant::Stream)?;
        known.insert(OSOUT, Meant::Stream)?;
        known.insert(OSIN_LEN, Meant::Scalar)?;
        Ok(Walk {
            tokens,
            known,
            functions,
            hidden: Vec::new(alloc),
            blocks: Vec::new(alloc),
            brackets: Vec::new(alloc),
            declaring: None,
            is_constant: false,
            own: None,
            in_line: false,
        })
    }

    /// What a name means that is in scope.
    fn known(&self, name: u32) -> Meant {
        match self.known.get(&name).copied() {
            Some(meant) => meant,
            None => Meant::Nothing,
        }
    }

    /// What a name means.
    fn meant(&self, name: u32) -> Meant {
        let known = self.known(name);
        if known != Meant::Nothing {
            known
        } else if self.own == Some(name) {
            Meant::Itself
        } else if self.functions.contains(&name) {
            Meant::Later
        } else {
            Meant::Nothing
        }
    }

    /// Whether a name is declared at a place.
    fn is_declared(&self, place: usize) -> bool {
        is_behind_type(self.tokens, place)
            || (kind_before(self.tokens, place) == Some(Kind::Punct(Punct::Comma))
                && self.declaring == Some(self.brackets.len()))
    }

    /// What a name is declared as at a place.
    fn declared(&self, place: usize) -> Meant {
        let next = place.saturating_add(1);
        match kind_at(self.tokens, next) {
            Some(Kind::Key(Key::Attribute)) => Meant::Stream,
            Some(Kind::Punct(Punct::OpenBracket)) => {
                if kind_behind_bracket(self.tokens, next) == Some(Kind::Key(Key::Attribute)) {
                    Meant::Streams
                } else {
                    Meant::Array
                }
            }
            _ if self.is_constant => Meant::Constant(constant_at(self.tokens, place)),
            _ => Meant::Scalar,
        }
    }

    /// Declares a name, in place of what it meant.
    fn declare(&mut self, name: u32, meant: Meant) -> Result<(), Memory> {
        let before = self.known(name);
        if self.own.is_some() {
            push(
                &mut self.hidden,
                Hidden {
                    name,
                    meant: before,
                },
            )?;
        }
        self.known.insert(name, meant)?;
        Ok(())
    }

    /// Goes past a name that is declared: a function is declared by its end.
    fn pass_declared(&mut self, place: usize, name: u32) -> Result<Meant, Memory> {
        if function_at(self.tokens, place).is_some() {
            self.own = Some(name);
            return Ok(Meant::Function);
        }
        let meant = self.declared(place);
        self.declare(name, meant)?;
        Ok(meant)
    }

    /// Where a name stands, by the bracket round it.
    fn role(&self, place: usize) -> Role {
        let before = kind_before(self.tokens, place);
        match self.brackets.last().copied() {
            Some(Open::Clause(FIRSTPRIVATE)) => Role::Private,
            Some(Open::Clause(TICK)) => flow_where(before == Some(Kind::Punct(Punct::OpenParen))),
            Some(Open::Clause(_)) => item_role(before),
            Some(Open::Call) => self.argument_role(before, place),
            _ => Role::Value,
        }
    }

    /// Where a name stands that stands between the brackets of a call.
    fn argument_role(&self, before: Option<Kind>, place: usize) -> Role {
        let next = kind_at(self.tokens, place.saturating_add(1));
        match (before, next) {
            (
                Some(Kind::Punct(Punct::OpenParen | Punct::Comma)),
                Some(Kind::Punct(Punct::CloseParen | Punct::Comma)),
            ) => Role::Argument,
            _ => Role::Value,
        }
    }

    /// Goes past a name.
    fn pass_name(&mut self, place: usize, name: u32) -> Result<Use, Memory> {
        if self.is_declared(place) {
            let meant = self.pass_declared(place, name)?;
            return Ok(Use {
                role: Role::Value,
                meant,
            });
        }
        Ok(Use {
            role: self.role(place),
            meant: self.meant(name),
        })
    }

    /// What a parenthesis belongs to that is opened at a place.
    fn opened(&self, place: usize) -> Open {
        match kind_before(self.tokens, place) {
            Some(Kind::Name(word)) if self.in_line && self.brackets.is_empty() => {
                Open::Clause(word)
            }
            Some(Kind::Name(_)) => Open::Call,
            _ => Open::Other,
        }
    }

    /// Goes past a bracket that is closed.
    fn close(&mut self) {
        let _bracket = self.brackets.pop();
        if let Some(round) = self.declaring {
            if self.brackets.len() < round {
                self.declaring = None;
            }
        }
    }

    /// Enters a block.
    fn enter(&mut self) -> Result<(), Memory> {
        let hidden = if self.blocks.is_empty() {
            0
        } else {
            self.hidden.len()
        };
        push(&mut self.blocks, hidden)
    }

    /// Leaves a block, and with the outermost one its function, which is declared then.
    fn leave(&mut self) -> Result<(), Memory> {
        let hidden = self.blocks.pop().unwrap_or(0);
        for _ in hidden..self.hidden.len() {
            self.unhide()?;
        }
        if self.blocks.is_empty() {
            if let Some(own) = self.own {
                self.known.insert(own, Meant::Function)?;
            }
            self.own = None;
        }
        Ok(())
    }

    /// Gives back what a declaration hid last.
    fn unhide(&mut self) -> Result<(), Memory> {
        if let Some(hidden) = self.hidden.pop() {
            self.known.insert(hidden.name, hidden.meant)?;
        }
        Ok(())
    }

    /// Goes past a mark.
    fn pass_mark(&mut self, place: usize, mark: Punct) -> Result<(), Memory> {
        match mark {
            Punct::OpenParen => {
                let opened = self.opened(place);
                push(&mut self.brackets, opened)
            }
            Punct::OpenBracket => push(&mut self.brackets, Open::Other),
            Punct::CloseParen | Punct::CloseBracket => {
                self.close();
                Ok(())
            }
            Punct::OpenBrace => self.enter(),
            Punct::CloseBrace => self.leave(),
            Punct::Semicolon => {
                self.declaring = None;
                self.is_constant = false;
                Ok(())
            }
            _ => Ok(()),
        }
    }

    /// Goes past the token at a place that is no name.
    fn pass(&mut self, place: usize, kind: Kind) -> Result<(), Memory> {
        match kind {
            Kind::Key(Key::Int | Key::Unsigned) => self.declaring = Some(self.brackets.len()),
            Kind::Key(Key::Const) => self.is_constant = true,
            Kind::PragmaStart => self.in_line = true,
            Kind::PragmaEnd => self.in_line = false,
            Kind::Punct(mark) => return self.pass_mark(place, mark),
            _ => {}
        }
        Ok(())
    }

    /// Goes past the token at a place, and says of a name where it stands and what it means.
    fn step(&mut self, place: usize, kind: Kind) -> Result<Use, Memory> {
        if let Kind::Name(name) = kind {
            return self.pass_name(place, name);
        }
        self.pass(place, kind)?;
        Ok(Use::nothing())
    }
}

impl Use {
    /// That of no name.
    pub(crate) fn nothing() -> Use {
        Use {
            role: Role::Value,
            meant: Meant::Nothing,
        }
    }
}

/// Where a name stands in a clause that has items.
fn item_role(before: Option<Kind>) -> Role {
    match before {
        Some(Kind::Punct(Punct::ShiftRight | Punct::ShiftLeft)) => Role::Joined,
        _ => Role::Flow,
    }
}

/// The stream of a tick, or a value.
fn flow_where(is_flow: bool) -> Role {
    if is_flow { Role::Flow } else { Role::Value }
}

/// Adds an item.
fn push<T: Drop>(items: &mut Vec<T>, item: T) -> Result<(), Memory> {
    match items.push(item) {
        Ok(()) => Ok(()),
        Err(_) => Err(Memory),
    }
}

/// Where each name of a text stands and what it means, by the places of the tokens. The tokens mean a program.
pub fn uses(alloc: Global, tokens: &[Token]) -> Result<Vec<Use>, Memory> {
    let mut walk = Walk::new(alloc, tokens)?;
    let mut uses = Vec::new(alloc);
    for place in 0..tokens.len() {
        let usage = walk.step(place, tokens[place].kind)?;
        push(&mut uses, usage)?;
    }
    Ok(uses)
}
