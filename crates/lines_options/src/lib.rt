// What line 2 of the fit program says, in the engine's types. The reader, and what the other lines say, are passed on
// from the crates below, so that who reads a dialogue has all its lines here.
#![tactic(auto)]

ghost use Rattle.std.specs.Prelude.{◌≡◌};
ghost use Rattle.lines_options.specs.Options.{simplex_line_of, gradient_line_of};

pub use lines_field::{Field, Reading};
pub use lines_forms::{AnswerLine, FirstLine, answer_line, first_line, point_line};
use lines_forms::{whole, words};
pub use lines_reader::{Form, LineRead, Reader};
use protocol::{Allowances, GradientOptions, SimplexOptions, WolfeOptions};

// Line 2 of simplex: x_tol f_tol initial_step max_iter max_fevals restarts adaptive.
#[tactic(auto, unfolding(crate::specs::Options::simplex_line_of, lines_forms::specs::Lines::words_of))]
pub fn simplex_line(l: LineRead) -> Option<(SimplexOptions, Allowances)>
    ensures { result ≡ simplex_line_of l }
{
    let fields = l.fields;
    let w = words(fields, 0);
    let options = SimplexOptions {
        xtol: w[0],
        ftol: w[1],
        step: w[2],
        restarts: fields[5].number(),
        adaptive: fields[6].number() == 1,
    };
    let allowances = Allowances {
        iter: fields[3].given(),
        fevals: fields[4].given(),
    };
    whole(l, 7).then_some((options, allowances))
}

// Line 2 of bfgs and lbfgs: grad_tol f_tol x_tol c1 c2 step_max max_iter max_fevals max_evals memory
// gradients.
#[tactic(auto, unfolding(crate::specs::Options::gradient_line_of, lines_forms::specs::Lines::words_of))]
pub fn gradient_line(l: LineRead) -> Option<(GradientOptions, Allowances)>
    ensures { result ≡ gradient_line_of l }
{
    let fields = l.fields;
    let w = words(fields, 0);
    let wolfe = WolfeOptions {
        c1: w[3],
        c2: w[4],
        stepmax: w[5],
        evals: fields[8].number(),
    };
    let options = GradientOptions {
        gradtol: w[0],
        ftol: w[1],
        xtol: w[2],
        wolfe,
        memory: fields[9].number(),
        gradients: fields[10].number() == 1,
    };
    let allowances = Allowances {
        iter: fields[6].given(),
        fevals: fields[7].given(),
    };
    whole(l, 11).then_some((options, allowances))
}
