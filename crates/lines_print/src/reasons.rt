// The words of a result: why a fit ended, and whether it converged.
ghost use Rattle.std.specs.Prelude.{◌≤◌, ◌≡◌, length};
ghost use Rattle.lines_print.specs.Reasons.{reason_text, flag_text};

use protocol::Termination;

// The reason as `Termination` spells it.
#[tactic(auto, unfolding(crate::specs::Reasons::reason_text))]
pub fn reason_text(reason: Termination) -> &'static [u8]
    ensures { (result.now ≡ reason_text reason) × (length result.now ≤ 19) }
{
    match reason {
        Termination::GradientTolerance => b"GradientTolerance",
        Termination::SimplexTolerance => b"SimplexTolerance",
        Termination::StepTolerance => b"StepTolerance",
        Termination::FunctionTolerance => b"FunctionTolerance",
        Termination::MaxIterations => b"MaxIterations",
        Termination::MaxFevals => b"MaxFevals",
        Termination::LineSearchFailed => b"LineSearchFailed",
        Termination::GradientFailed => b"GradientFailed",
        Termination::ObjectiveResolution => b"ObjectiveResolution",
    }
}

pub fn flag_text(b: bool) -> &'static [u8]
    ensures { (result.now ≡ flag_text b) × (length result.now ≤ 3) }
{
    if b { b"yes" } else { b"no" }
}
