ghost use Rattle.std.specs.Prelude.{◌≡◌, true, false};
ghost use Rattle.osrun_core_words.specs.Command.{texts};
ghost use Rattle.os_serve.specs.AsksFor.{AsksFor};
ghost use Rattle.os_serve.specs.Command.{is_serve};

/// The word that asks for a server.
const SERVE: &str = "serve";

/// What words ask for.
#[derive(Clone, Copy, Debug)]
pub(crate) enum Asked<'w> {
    /// No server: the first word isn't `serve`.
    Otherwise,
    /// A server, but `serve` isn't followed by one word alone.
    Wrongly,
    /// A server of the jobs in the file with this name.
    Jobs(&'w str),
}

/// Whether the first word is `serve`.
pub(crate) fn asks_to_serve(words: &[String]) -> bool
    ensures { result ≡ is_serve (texts words.now) }
{
    if words.is_empty() {
        return false;
    }
    words[0].as_str() == SERVE
}

/// What the words ask for.
pub(crate) fn asks_for(words: &[String]) -> Asked<'_>
    ensures { AsksFor (texts words.now) result }
{
    if !asks_to_serve(words) {
        return Asked::Otherwise;
    }
    if words.len() != 2 {
        return Asked::Wrongly;
    }
    Asked::Jobs(words[1].as_str())
}
