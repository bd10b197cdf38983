// What a part of a record holds that is not in use, and the record of a refused start.
ghost use Rattle.std.specs.Prelude.{◌≡◌};
ghost use Rattle.optim_record.specs.Record.{idle_of, no_options, no_gradient_options, wolfe_options_of, blank_of};

use crate::{Counts, Limits, Record};
use neldermead::Simplex;
use protocol::{GradientOptions, SimplexOptions, WolfeOptions};

// The simplex part of a record that does not use it.
#[tactic(auto, unfolding(crate::specs::Record::idle_of))]
pub fn idle() -> Simplex
    ensures { result ≡ idle_of }
{
    Simplex::default()
}

// The simplex options in a record of another job.
pub fn no_options() -> SimplexOptions
    ensures { result ≡ no_options }
{
    SimplexOptions::default()
}

// The options that a search's record keeps.
#[tactic(auto, unfolding(crate::specs::Record::wolfe_options_of))]
pub fn wolfe_options(wolfe: WolfeOptions, gradients: bool) -> GradientOptions
    ensures { result ≡ wolfe_options_of wolfe gradients }
{
    GradientOptions {
        wolfe,
        gradients,
        ..GradientOptions::default()
    }
}

// The gradient options in a record of a job that has none.
#[tactic(auto, unfolding(crate::specs::Record::wolfe_options_of))]
pub fn no_gradient_options() -> GradientOptions
    ensures { result ≡ no_gradient_options }
{
    GradientOptions::default()
}

// The record of a refused start: zeros, with a mark that no job has, and the first phase of a search.
#[tactic(auto, unfolding(crate::specs::Record::blank_of))]
pub fn blank() -> Record
    ensures { result ≡ blank_of }
{
    Record {
        accepted: 0,
        job: 0,
        n: 0,
        counts: Counts::default(),
        limits: Limits::default(),
        options: no_options(),
        gradient: no_gradient_options(),
        diff: objective::Differences::begun([0.0; 16]),
        simplex: idle(),
        descent: quasinewton::Descent::idle(),
        model: quasinewton_model::Model::blank(),
    }
}
