//! Laws of every program that a text is accepted as. Each is a call that does nothing and ensures its law.

ghost use Rattle.lowering_laws.specs.Laws.{ActivationsFit, CreatesLawful, HasCode, ObjectsMayBeRead, OfAccepted, OfCodes};

use lowering_relation::laws::standing_is_valid;
use os_ast::laws::meaning_by_tokens;
use os_lexer::cover_cuts;
use window_check_laws::marks_have_places;

/// Each program has a code: one that stands for it, does what it means, and is no larger than the compiler makes it.
pub fn programs_have_codes()
    ensures { OfAccepted HasCode }
{
    meaning_by_tokens();
    marks_have_places();
    cover_cuts();
    standing_is_valid();
}

/// The activations that the control program of each program creates are lawful, over every length of the input and with every
/// budget within its limit. So are those that `main` of each valid code creates, and each of them fits the code.
pub fn activations_are_lawful()
    ensures programs { OfAccepted CreatesLawful }
    ensures codes { OfCodes ActivationsFit }
{
    programs_have_codes();
}

/// The object of a program's code is no longer than a file may be that is read whole, where the code is no larger than the compiler
/// makes it.
pub fn objects_may_be_read()
    ensures { OfAccepted ObjectsMayBeRead }
{
    meaning_by_tokens();
    marks_have_places();
    cover_cuts();
}
