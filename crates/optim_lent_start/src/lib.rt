// The starts over a record that is lent as lists, one for each job. The lists may hold anything: the engine's start is made, and its
// record is stored. A refused start leaves the blank record. All that the five share is `opened`, which takes what the engine's start
// returns; each keeps its name and contract for who calls it.
#![tactic(auto)]

mod reply;

ghost use Rattle.std.specs.Prelude.{◌≡◌};
ghost use Rattle.optim_start.specs.Start.{differences_of, simplex_of, search_of, bfgs_of, lbfgs_of};
ghost use Rattle.optim_lists.specs.Lent.{lists_left};
ghost use Rattle.optim_lists.specs.Answered.{started_of, said_over, point_after, slopes_after};

use optim_lists::Lent;
use protocol::{Allowances, GradientOptions, Said, SimplexOptions, WolfeOptions};
pub use reply::speak;

// Starts a simplex fit at x, in lists that may hold anything. It is refused with 2, 4, 8, 9 or 12, looked for in that order.
pub fn simplex(
    l: Lent<'_>,
    x: &[f64],
    o: SimplexOptions,
    a: Allowances,
    point: &mut [f64; 16],
    slopes: &mut [f64; 16],
) -> Said
    ensures outcome { said_over result (lists_left l.exit) point.new slopes.new ≡ started_of (simplex_of x.now o a) }
    ensures said_point { point.new ≡ point_after (started_of (simplex_of x.now o a)) point.old }
    ensures said_slopes { slopes.new ≡ slopes_after (started_of (simplex_of x.now o a)) slopes.old }
{
    reply::opened(l, optim::simplex(x, o, a), point, slopes)
}

// Starts a fit by bfgs at x; its memory is passed over. It is refused with 2, 4, 5, 9 or 12, looked for in that order.
pub fn bfgs(
    l: Lent<'_>,
    x: &[f64],
    o: GradientOptions,
    a: Allowances,
    point: &mut [f64; 16],
    slopes: &mut [f64; 16],
) -> Said
    ensures outcome { said_over result (lists_left l.exit) point.new slopes.new ≡ started_of (bfgs_of x.now o a) }
    ensures said_point { point.new ≡ point_after (started_of (bfgs_of x.now o a)) point.old }
    ensures said_slopes { slopes.new ≡ slopes_after (started_of (bfgs_of x.now o a)) slopes.old }
{
    reply::opened(l, optim::bfgs(x, o, a), point, slopes)
}

// Starts a fit by lbfgs at x. It is refused with 2, 3, 4, 5, 9 or 12, looked for in that order.
pub fn lbfgs(
    l: Lent<'_>,
    x: &[f64],
    o: GradientOptions,
    a: Allowances,
    point: &mut [f64; 16],
    slopes: &mut [f64; 16],
) -> Said
    ensures outcome { said_over result (lists_left l.exit) point.new slopes.new ≡ started_of (lbfgs_of x.now o a) }
    ensures said_point { point.new ≡ point_after (started_of (lbfgs_of x.now o a)) point.old }
    ensures said_slopes { slopes.new ≡ slopes_after (started_of (lbfgs_of x.now o a)) slopes.old }
{
    reply::opened(l, optim::lbfgs(x, o, a), point, slopes)
}

// Starts a search from x along d, where the value is f0 and the gradient g, with the first step `step`. It is refused with 2, 5, 6, 7,
// or 9 to 14, looked for in that order.
pub fn search(
    l: Lent<'_>,
    x: &[f64],
    d: &[f64],
    f0: f64,
    g: &[f64],
    step: f64,
    o: WolfeOptions,
    gradients: bool,
    point: &mut [f64; 16],
    slopes: &mut [f64; 16],
) -> Said
    ensures outcome { said_over result (lists_left l.exit) point.new slopes.new ≡ started_of (search_of x.now d.now f0 g.now step o gradients) }
    ensures said_point { point.new ≡ point_after (started_of (search_of x.now d.now f0 g.now step o gradients)) point.old }
    ensures said_slopes { slopes.new ≡ slopes_after (started_of (search_of x.now d.now f0 g.now step o gradients)) slopes.old }
{
    reply::opened(
        l,
        optim::search(x, d, f0, g, step, o, gradients),
        point,
        slopes,
    )
}

// Starts central differences at x. A list of more than sixteen is refused with 2; of none it ends at once with an empty gradient.
pub fn differences(l: Lent<'_>, x: &[f64], point: &mut [f64; 16], slopes: &mut [f64; 16]) -> Said
    ensures outcome { said_over result (lists_left l.exit) point.new slopes.new ≡ started_of (differences_of x.now) }
    ensures said_point { point.new ≡ point_after (started_of (differences_of x.now)) point.old }
    ensures said_slopes { slopes.new ≡ slopes_after (started_of (differences_of x.now)) slopes.old }
{
    reply::opened(l, optim::differences(x), point, slopes)
}
