ghost use Rattle.std.specs.Prelude.{◌≡◌, IfOk, false};
ghost use Rattle.clap.specs.Words.{app_of, rule_of};
ghost use Rattle.osrun_core_words.specs.Arguments.{argument_of, id_of, rule_for};
ghost use Rattle.osrun_core_words.specs.Parsed.{app_for};

use crate::table::CommandForm;
use clap::builder::ValueParser;
use clap::{Arg, Command};
use std::alloc::{AllocError, Global};

/// What a command takes.
#[derive(Clone, Copy)]
pub enum Argument<'a> {
    /// A name that has to be given.
    Name {
        id: &'a str,
    },
    /// A number that has to be given, from the least to the most.
    Number {
        id: &'a str,
        least: u64,
        most: u64,
    },
    /// `--id N`: a number from the least to the most, and where none is given the default.
    Option {
        id: &'a str,
        default: &'a str,
        least: u64,
        most: u64,
    },
}

impl<'a> Argument<'a> {
    /// What the argument is called.
    pub fn id(self) -> &'a str
        ensures { result.now ≡ id_of (argument_of self.entry) }
    {
        match self {
            Argument::Name { id } => id,
            Argument::Number { id, .. } => id,
            Argument::Option { id, .. } => id,
        }
    }
}

/// The argument as clap takes it.
fn arg_for<'a>(alloc: Global, argument: Argument<'a>) -> Arg<'a>
    ensures rule { rule_of result ≡ rule_for (argument_of argument.entry) }
    ensures local { result.global ≡ false }
{
    match argument {
        Argument::Name { id } => Arg::new(alloc, id).required(true),
        Argument::Number { id, least, most } => Arg::new(alloc, id)
            .required(true)
            .value_parser(ValueParser::Unsigned(least, most)),
        Argument::Option {
            id,
            default,
            least,
            most,
        } => Arg::new(alloc, id)
            .long(id)
            .default_value(default)
            .value_parser(ValueParser::Unsigned(least, most)),
    }
}

/// The simple command with the arguments of a form and nothing else.
pub fn command_for<'a>(alloc: Global, form: CommandForm<'a>) -> Result<Command<'a>, AllocError>
    ensures { IfOk result (λ command. app_of command ≡ app_for form.entry) }
{
    let mut command = Command::new(alloc, form.word);
    for argument in form.arguments {
        command = command.arg(arg_for(alloc, *argument))?;
    }
    Ok(command)
}
