ghost use Rattle.std.specs.Prelude.{◌≡◌, ◌≢◌, [], IfOk, Err, true};
ghost use Rattle.clap.specs.Words.{fault_of};
ghost use Rattle.osrun_core_words.specs.Arguments.{arguments_of};
ghost use Rattle.osrun_core_words.specs.Command.{texts};
ghost use Rattle.osrun_core_words.specs.Parsed.{AreSupplied, IsParsedBy, app_for, is_readable};
ghost use Rattle.osrun_core_words.specs.declared.words_error.WordsError.TheVariants as errors;

use crate::argument::command_for;
use crate::table::CommandForm;
use crate::words_error::WordsError;
use clap::ArgMatches;
use clap::error::ErrorKind;
use std::alloc::Global;

/// What a command of this form finds in the words.
pub fn parse<'w>(
    alloc: Global,
    form: CommandForm<'w>,
    words: &'w [String],
) -> Result<ArgMatches<'w>, WordsError>
    requires { is_readable form.word.now (arguments_of form.arguments.now) ≡ true }
    ensures parsed { IfOk result (IsParsedBy (app_for form.entry) (texts words.entry.now)) }
    ensures given { IfOk result (λ m. AreSupplied m (arguments_of form.entry.arguments.now)) }
    ensures refused { result ≡ Err errors.Refused → fault_of (app_for form.entry) (texts words.entry.now) ≢ [] }
{
    let mut command = command_for(alloc, form)?;
    match command.try_get_matches_from_mut(words) {
        Ok(matches) => Ok(matches),
        Err(error) => match error.kind() {
            ErrorKind::OutOfMemory => Err(WordsError::Memory),
            _ => Err(WordsError::Refused),
        },
    }
}
