//! What a loop does behind its body.

ghost use Rattle.std.specs.Prelude.{◌≡◌, ℕ, IfErr, IfOk};
ghost use Rattle.cddf_meaning.specs.Flow.{Runs, Went, loops};
ghost use Rattle.cddf_meaning.specs.BodyState.{BodyState};

use cddf_meaning::Flow;
use os_ast::Change;

/// The step that a loop runs before it begins again, where it has one. `Err` is what comes behind the loop, where its
/// body left it.
pub fn step_behind(flow: Flow, step: Option<&Change>) -> Result<Option<&Change>, Flow>
    ensures step { IfOk result (λ next. next ≡ step.entry) }
    ensures goes_on { IfOk result (λ _. (next : Runs) (s : BodyState) (turns : ℕ) → loops next (Went flow s turns) ≡ next s turns) }
    ensures leaves { IfErr result (λ left. (next : Runs) (s : BodyState) (turns : ℕ) → loops next (Went flow s turns) ≡ Went left s turns) }
{
    match flow {
        Flow::GoesOn | Flow::Continues => Ok(step),
        Flow::Breaks => Err(Flow::GoesOn),
        Flow::Returns(number) => Err(Flow::Returns(number)),
    }
}
