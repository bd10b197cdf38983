// Nelder and Mead's simplex, one answer at a time. Each move takes the value told for the open
// question, and gives the record with the next question or the end in it.
#![tactic(auto)]

ghost use Rattle.std.specs.Prelude.{◌≡◌, ◌≤◌, ◌<◌};
ghost use Rattle.vector.specs.Points.{towards_of};
ghost use Rattle.neldermead_vertices.specs.Vertices.{vertex_at};
ghost use Rattle.neldermead.specs.Step.{building, reflecting, reason_of, headed_of, told_of, start_of};
ghost use Rattle.neldermead.specs.Parts.{reflection_of, outcome_of, OutcomeWithin, AskWithin, phase_of, at_of, point_of, verdict_of};

use neldermead_vertices::Vertex;
use protocol::SimplexOptions;

// The reflection's coefficient.
const ALPHA: f64 = 1.0;

// The phases of a simplex fit, which are numbers: the record crosses to C, and any number in it must be taken.
// What the open question is for: a vertex of a new simplex, a trial point, or a vertex drawn to the best.
pub const BUILDING: u64 = 1;

pub const REFLECTING: u64 = 2;

pub const EXPANDING: u64 = 3;

pub const CONTRACTING_OUTSIDE: u64 = 4;

pub const CONTRACTING_INSIDE: u64 = 5;

pub const SHRINKING: u64 = 6;
// How the fit has ended: SimplexTolerance, ObjectiveResolution, MaxIterations, MaxFevals, or refusal 20.
pub const BY_TOLERANCE: u64 = 7;

pub const BY_RESOLUTION: u64 = 8;

pub const BY_SIMPLEX_ITERATIONS: u64 = 9;

pub const BY_SIMPLEX_FEVALS: u64 = 10;

pub const NOT_FINITE: u64 = 11;

// What the next question is for, where no round ends.
#[derive(Clone, Copy)]
enum Ask {
    // A vertex of a new simplex: the first one, with this coordinate displaced.
    Corner(usize),
    // A trial point: the expansion, or the contraction outside or inside.
    Expansion,
    Outside,
    Inside,
    // This vertex, drawn to the best.
    Drawn(usize),
}

// What an answer comes to.
#[derive(Clone, Copy)]
enum Outcome {
    // The fit has ended before.
    Rests,
    // A question is next.
    Asks(Ask),
    // A new simplex is whole.
    Built,
    // The point told takes the worst vertex's place, or the reflected point does.
    Takes,
    Keeps,
    // The last vertex is drawn to the best.
    Shrunk,
}

// What the start fixes. The allowances are numbers: an absent one is its default. Coefficients are not
// kept: they are made anew from n and the options, so that no record can hold others. quasinewton_record's `Fixed` differs in the type of
// options alone: no function is written for both, so that a generic struct would save four lines, and put a type argument into every definition of
// both rooms.
#[derive(Clone, Copy)]
pub struct Fixed {
    pub n: usize,
    pub options: SimplexOptions,
    pub iter: u64,
    pub fevals: u64,
}

// The simplex fit as far as it has come: what the open question is for and its point; of a simplex that
// is built or shrunk the vertex that is asked for; rounds and runs done; the best vertex of all runs;
// the centroid, the reflected point with its value, and the vertices.
#[derive(Clone, Copy, Default)]
pub struct Simplex {
    pub phase: u64,
    pub at: usize,
    pub rounds: u64,
    pub runs: u64,
    pub x: [f64; 16],
    pub best: Vertex,
    pub cen: [f64; 16],
    pub refl: Vertex,
    pub v: [Vertex; 17],
}

impl Ask {
    // The phase of the question.
    #[tactic(auto, unfolding(crate::specs::Parts::phase_of))]
    fn phase(self) -> u64
        ensures { result ≡ phase_of self }
    {
        match self {
            Ask::Corner(_) => BUILDING,
            Ask::Expansion => EXPANDING,
            Ask::Outside => CONTRACTING_OUTSIDE,
            Ask::Inside => CONTRACTING_INSIDE,
            Ask::Drawn(_) => SHRINKING,
        }
    }

    // The vertex that is asked for; where none is, `at` stays.
    #[tactic(auto, unfolding(crate::specs::Parts::at_of))]
    fn vertex(self, at: usize) -> usize
        requires { AskWithin 16 self }
        ensures { result ≡ at_of self at }
    {
        match self {
            Ask::Corner(i) => i + 1,
            Ask::Drawn(i) => i,
            _ => at,
        }
    }
}

// Why a run stops whose least value is f.
#[tactic(auto, unfolding(crate::specs::Step::reason_of))]
fn reason(ftol: f64, f: f64) -> u64
    ensures { result ≡ reason_of ftol f }
{
    if ftol < neldermead_vertices::floor(float::abs(f)) {
        return BY_RESOLUTION;
    }
    BY_TOLERANCE
}

// The compiler copies a Simplex at each call that it does not inline, and inlines what has one call site. So
// decisions and points are made behind a reference, and `told` and `headed` alone hold a Simplex, in one local
// whose parts are replaced; each has one call site.
impl Simplex {
    // The start at x: the first vertex of the first simplex is asked for.
    pub fn start(x: [f64; 16]) -> Simplex
        ensures { result ≡ start_of x }
    {
        let zero = [0.0; 16];
        let refl = Vertex { x: zero, f: 0.0 };
        Simplex {
            phase: BUILDING,
            at: 0,
            rounds: 0,
            runs: 0,
            x,
            best: Vertex { x, f: 1.0 / 0.0 },
            cen: zero,
            refl,
            v: [refl; 17],
        }
    }

    // What the value f of the reflected point comes to. That n is above 0 is asked by each function down from `told`: it is a number of
    // `Fixed`, which is made of any record, so that no type of it could say so.
    #[tactic(auto, unfolding(crate::specs::Parts::reflection_of))]
    fn reflection(&self, n: usize, f: f64) -> Outcome
        requires n_nonzero { 0 < n }
        requires n_bound { n ≤ 16 }
        ensures { result ≡ reflection_of self.now n f }
    {
        if f < self.v[0].f {
            return Outcome::Asks(Ask::Expansion);
        }
        if f < self.v[n - 1].f {
            return Outcome::Takes;
        }
        if f < self.v[n].f {
            return Outcome::Asks(Ask::Outside);
        }
        Outcome::Asks(Ask::Inside)
    }

    // What the value f of the open question comes to.
    #[tactic(auto, unfolding(crate::specs::Parts::outcome_of, crate::specs::Parts::reflection_of))]
    fn outcome(&self, n: usize, f: f64) -> Outcome
        requires n_nonzero { 0 < n }
        requires n_bound { n ≤ 16 }
        ensures is { result ≡ outcome_of self.now n f }
        ensures within { OutcomeWithin n result }
    {
        match self.phase {
            BUILDING if self.at < n => Outcome::Asks(Ask::Corner(self.at)),
            BUILDING => Outcome::Built,
            REFLECTING => self.reflection(n, f),
            EXPANDING if f < self.refl.f => Outcome::Takes,
            EXPANDING => Outcome::Keeps,
            CONTRACTING_OUTSIDE if f <= self.refl.f => Outcome::Takes,
            CONTRACTING_INSIDE if f < self.v[n].f => Outcome::Takes,
            CONTRACTING_OUTSIDE | CONTRACTING_INSIDE => Outcome::Asks(Ask::Drawn(1)),
            SHRINKING if self.at < n => Outcome::Asks(Ask::Drawn(self.at + 1)),
            SHRINKING => Outcome::Shrunk,
            _ => Outcome::Rests,
        }
    }

    // The trial point on the line through the centroid and the worst vertex.
    fn trial(&self, n: usize, coef: f64) -> [f64; 16]
        requires { n ≤ 16 }
        ensures { result ≡ towards_of self.now.cen (vertex_at self.now.v n).x coef n }
    {
        vector::towards(self.cen, self.v[n].x, coef, n)
    }

    // The next point.
    #[tactic(auto, unfolding(crate::specs::Parts::point_of))]
    fn point(&self, fit: Fixed, ask: Ask) -> [f64; 16]
        requires n_bound { fit.n ≤ 16 }
        requires within { AskWithin fit.n ask }
        ensures { result ≡ point_of fit self.now ask }
    {
        let n = fit.n;
        let o = fit.options;
        match ask {
            Ask::Corner(i) => neldermead_vertices::corner(o.step, self.v[0].x, i),
            Ask::Expansion => self.trial(n, ALPHA * neldermead_vertices::expansion(o, n)),
            Ask::Outside => self.trial(n, ALPHA * neldermead_vertices::contraction(o, n)),
            Ask::Inside => self.trial(n, -neldermead_vertices::contraction(o, n)),
            Ask::Drawn(i) => {
                let delta = neldermead_vertices::reduction(o, n);
                vector::shrunk(self.v[0].x, self.v[i].x, delta, n)
            }
        }
    }

    // The phase after the tests at the head of a round: size and spread, where a run that is done may be followed
    // by another; then max_iter, then max_fevals.
    #[tactic(auto, unfolding(crate::specs::Parts::verdict_of, crate::specs::Step::reason_of))]
    fn verdict(&self, fit: Fixed, fevals: u64) -> u64
        requires { fit.n ≤ 16 }
        ensures is { result ≡ verdict_of fit self.now fevals }
        ensures reruns { result ≡ building → self.now.runs < fit.options.restarts }
        ensures goes { result ≡ reflecting → self.now.rounds < fit.iter }
    {
        let o = fit.options;
        if neldermead_vertices::converged(o, &self.v, fit.n) {
            if o.restarts <= self.runs {
                return reason(o.ftol, self.v[0].f);
            }
            return BUILDING;
        }
        if fit.iter <= self.rounds {
            return BY_SIMPLEX_ITERATIONS;
        }
        if fit.fevals <= fevals {
            return BY_SIMPLEX_FEVALS;
        }
        REFLECTING
    }

    // The head of a round, after `fevals` accepted values: the vertices in order, the best of all runs, and the
    // tests. A new simplex is built about the best point; a round begins with the reflected point.
    fn headed(mut self, fit: Fixed, fevals: u64) -> Simplex
        requires { fit.n ≤ 16 }
        ensures { result ≡ headed_of fit self fevals }
    {
        let n = fit.n;
        self.v = neldermead_vertices::sorted(self.v, n);
        self.best = neldermead_vertices::better_of(self.v[0], self.best);
        self.phase = self.verdict(fit, fevals);
        match self.phase {
            BUILDING => {
                self.at = 0;
                self.runs += 1;
                self.x = self.best.x;
            }
            REFLECTING => {
                self.rounds += 1;
                self.cen = neldermead_vertices::centroid(&self.v, n);
                self.x = self.trial(n, ALPHA);
            }
            _ => {}
        }
        self
    }

    // The value f for the open question, read as fits read values; it is the fevals-th that is accepted. A
    // fit that has ended stays as it is. A simplex whose values are all non-finite is refused with 20.
    pub fn told(mut self, fit: Fixed, f: f64, fevals: u64) -> Simplex
        requires n_nonzero { 0 < fit.n }
        requires n_bound { fit.n ≤ 16 }
        requires at_le_n { self.at ≤ fit.n }
        ensures { result ≡ told_of fit self f fevals }
    {
        let n = fit.n;
        let outcome = self.outcome(n, f);
        let here = Vertex { x: self.x, f };
        match self.phase {
            BUILDING | SHRINKING => self.v[self.at] = here,
            REFLECTING => self.refl = here,
            _ => {}
        }
        match outcome {
            Outcome::Rests => return self,
            Outcome::Asks(ask) => {
                self.x = self.point(fit, ask);
                self.phase = ask.phase();
                self.at = ask.vertex(self.at);
                return self;
            }
            Outcome::Built => {
                if !neldermead_vertices::any_finite(&self.v, n + 1) {
                    self.phase = NOT_FINITE;
                    return self;
                }
            }
            Outcome::Takes => self.v[n] = here,
            Outcome::Keeps => self.v[n] = self.refl,
            Outcome::Shrunk => {}
        }
        self.headed(fit, fevals)
    }
}
