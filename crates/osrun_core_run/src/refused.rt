ghost use Rattle.std.specs.Prelude.{◌≡◌};
ghost use Rattle.osrun_core_run.specs.Accepting.{object_refusal, text_refusal, trace_refusal};

use front_end::TextError;
use os_object::ObjectError;
use osrun_core_jobs::Refusal;
use trace_replay::TraceError;

/// The code by which bytes are refused that spell no parts of a code.
const NO_PARTS: u8 = 30;

/// The code by which parts are refused that aren't valid.
const NOT_VALID: u8 = 31;

/// The code by which bytes are refused that are no trace.
const NO_TRACE: u8 = 40;

/// What an error of a text is told as.
pub(crate) fn text_refusal(error: TextError) -> Refusal
    ensures { result ≡ text_refusal error }
{
    match error {
        TextError::Refused { refusal, line } => Refusal::Refused {
            code: refusal.code(),
            line: Some(line),
        },
        TextError::Memory => Refusal::Memory,
    }
}

/// What an error of an object is told as.
pub(crate) fn object_refusal(error: ObjectError) -> Refusal
    ensures { result ≡ object_refusal error }
{
    match error {
        ObjectError::Format => Refusal::Refused {
            code: NO_PARTS,
            line: None,
        },
        ObjectError::Invalid => Refusal::Refused {
            code: NOT_VALID,
            line: None,
        },
        ObjectError::Memory => Refusal::Memory,
    }
}

/// What an error of a trace is told as.
pub(crate) fn trace_refusal(error: TraceError) -> Refusal
    ensures { result ≡ trace_refusal error }
{
    match error {
        TraceError::Line(line) => Refusal::Refused {
            code: NO_TRACE,
            line: Some(line),
        },
        TraceError::Memory => Refusal::Memory,
    }
}
