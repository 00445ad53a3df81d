//! What stands round the body of `main`, and what comes of its end.

ghost use Rattle.std.specs.Prelude.{◌≡◌, IfErr, IfOk};
ghost use Rattle.cddf_meaning.specs.Control.{control_end, control_state};
ghost use Rattle.cddf_meaning_plain_state.specs.declared.stop.Stop.TheVariants as stops;

use cddf_meaning::{Ending, Variable};
use cddf_meaning_plain_state::names::int;
use cddf_meaning_plain_state::{BodyState, Stop};
use flow_core_laws::ControlEnd;
use os_lexer::names::{OSIN, OSIN_LEN, OSOUT};
use std::alloc::Global;

/// The state round the body of `main`: `osin` is stream 0, `osout` stream 1, and `osin_len` the length of the input in
/// bytes. That is an `int`, and else the answer is `Memory`.
pub fn state_round(alloc: Global, input_len: u32) -> Result<BodyState, Stop>
    ensures state { IfOk result (λ s. s ≡ control_state input_len) }
    ensures memory { IfErr result (λ stop. stop ≡ stops.Memory) }
{
    let mut state = BodyState::new(alloc, Vec::new(alloc));
    state.declare_streams(OSIN, false, 1)?;
    state.declare_streams(OSOUT, false, 1)?;
    state.declare(OSIN_LEN, false, Variable::Scalar(int(input_len)?))?;
    Ok(state)
}

/// The end of a control program that ended before its last statement.
pub fn control_end(ending: Ending) -> ControlEnd
    ensures { result ≡ control_end ending }
{
    match ending {
        Ending::Trapped { trap, line } => ControlEnd::Trapped {
            code: trap.code(),
            line,
        },
        Ending::OverBudget => ControlEnd::OverBudget,
        Ending::Limited(limit) => ControlEnd::Limit(limit.code()),
    }
}
