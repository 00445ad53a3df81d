//! Laws of words. Each is a call that does nothing and ensures its law.

ghost use Rattle.osrun_core_words.specs.Defaults.{HasDefaults, TakesOptions};

/// Words that give no option name a job with four workers and a million turns for each task and for the control program;
/// options may stand anywhere behind the first word, as in a second list of words.
pub fn words_have_defaults()
    ensures defaults { HasDefaults }
    ensures options { TakesOptions }
{}
