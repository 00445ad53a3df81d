ghost use Rattle.std.specs.Prelude.{◌≡◌, Some};
ghost use Rattle.os_lexer.specs.Effects.{effect, space_effect, directive_effect, number_effect, word_kind};
ghost use Rattle.os_lexer.specs.Keywords.{key_of};
ghost use Rattle.os_lexer.specs.Numbers.{number_value};

use crate::fault::Fault;
use crate::form::Form;
use crate::mode::{Mode, has_line_feed};
use crate::numbers::{may_be_int, may_be_unsigned, number_value};
use crate::token::Kind;
use crate::words::key_of;

/// What a lexeme of the text does: the mode is that of the point behind it.
#[derive(Clone, Copy)]
pub(crate) enum Effect {
    Skip(Mode),
    Give(Kind, Mode),
    Fail(Fault),
}

/// What the slice of a form does at a point of this mode. As a name it has the number given.
pub(crate) fn effect_of(mode: Mode, name: u32, form: Form, slice: &[u8]) -> Effect
    ensures { result ≡ effect mode name form slice.now }
{
    match form {
        Form::Space => space_effect(mode, slice),
        Form::JoinedLine | Form::BlockComment => Effect::Skip(mode.after_gap(slice)),
        Form::LineComment => Effect::Skip(mode),
        Form::OpenComment => Effect::Fail(Fault::OpenComment),
        Form::IncludeLine => directive_effect(mode, Effect::Skip(Mode::LineStart)),
        Form::PragmaStart => {
            directive_effect(mode, Effect::Give(Kind::PragmaStart, Mode::InPragma))
        }
        Form::OtherDirective => Effect::Fail(Fault::BadByte),
        Form::Word => Effect::Give(word_kind(slice, name), mode.after_token()),
        Form::Number => number_effect(mode, slice),
        Form::Mark(mark) => Effect::Give(Kind::Punct(mark), mode.after_token()),
    }
}

/// What a byte of white space does: it ends a pragma's line, or is skipped.
fn space_effect(mode: Mode, slice: &[u8]) -> Effect
    ensures { result ≡ space_effect mode slice.now }
{
    match mode {
        Mode::LineStart | Mode::InLine => Effect::Skip(mode.after_gap(slice)),
        Mode::InPragma => pragma_space_effect(slice),
    }
}

fn pragma_space_effect(slice: &[u8]) -> Effect
    ensures { result ≡ space_effect Mode.InPragma slice.now }
{
    if has_line_feed(slice) {
        Effect::Give(Kind::PragmaEnd, Mode::LineStart)
    } else {
        Effect::Skip(Mode::InPragma)
    }
}

/// What a directive does where it may stand. Anywhere else its `#` is a bad byte.
fn directive_effect(mode: Mode, lawful: Effect) -> Effect
    ensures { result ≡ directive_effect mode lawful }
{
    match mode {
        Mode::LineStart => lawful,
        Mode::InLine | Mode::InPragma => Effect::Fail(Fault::BadByte),
    }
}

fn word_kind(word: &[u8], name: u32) -> Kind
    ensures { result ≡ word_kind (key_of word.now) name }
{
    match key_of(word) {
        Some(key) => Kind::Key(key),
        None => Kind::Name(name),
    }
}

/// What a run that begins with a digit does.
fn number_effect(mode: Mode, bytes: &[u8]) -> Effect
    ensures { result ≡ number_effect mode bytes.now (number_value bytes.now) }
{
    match number_value(bytes) {
        None => Effect::Fail(Fault::BadByte),
        Some(value) => value_effect(mode, bytes, value),
    }
}

/// What a number of this value does: it has the first type that the value fits, of those that it may have.
fn value_effect(mode: Mode, number: &[u8], value: u64) -> Effect
    ensures { result ≡ number_effect mode number.now (Some value) }
{
    if may_be_int(number) && value <= 2_147_483_647 {
        Effect::Give(Kind::Number(value as u32), mode.after_token())
    } else if may_be_unsigned(number) && value <= 4_294_967_295 {
        Effect::Give(Kind::Wide(value as u32), mode.after_token())
    } else {
        Effect::Fail(Fault::BigNumber)
    }
}
