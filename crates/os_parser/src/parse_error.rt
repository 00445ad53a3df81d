use thiserror::Error;

/// Why tokens have no program.
#[derive(Clone, Copy, Debug, PartialEq, Eq, Error)]
pub enum ParseError {
    /// The tokens mean no program of depth at most 200. Some program begins with the tokens before `place`, and none with
    /// these and the token at `place`. Where `place` is the number of tokens, a program begins with all of them and goes on:
    /// they end too early. `line` is that of the token at `place`, or else of the last token; of no tokens it is 1.
    #[error("no program goes on so in line {line}")]
    Syntax { place: u32, line: u32 },
    /// Memory could not be had. This says nothing of the tokens.
    #[error("memory could not be had")]
    Memory,
}
