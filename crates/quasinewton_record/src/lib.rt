// The record of a gradient fit: what it holds, the first one, what it waits for, what a refusal makes of it, and what
// follows a search, in `outcomes`; the tests of a fit, over points, are in `formulas`.
#![tactic(auto)]

mod formulas;
mod outcomes;

ghost use Rattle.std.specs.Prelude.{◌≡◌};
ghost use Rattle.quasinewton_record.specs.Descents.{refused_by, search_fixed, asks_of, gradient_due_of, idle_of, start_of};

pub use formulas::{initial_step, not_descending, small_decrease, small_step, stores};
use linesearch::{Line, Search};
use linesearch_moves::{ASKS_DIFFERENCE, ASKS_GRADIENT};
use objective::Differences;
use protocol::{GradientOptions, Refusal};

// The phases of a gradient fit: numbers and no enum, since the record crosses to C as plain numbers, of which any
// may come. What the open question is for: the first value, the first gradient, its differences, or a search.
pub const FIRST_VALUE: u64 = 1;

pub const FIRST_GRADIENT: u64 = 2;

pub const FIRST_DIFFERENCES: u64 = 3;

pub const SEARCHING: u64 = 4;
// How the fit has ended: GradientTolerance, FunctionTolerance, StepTolerance, MaxIterations, MaxFevals,
// LineSearchFailed, GradientFailed, or a refusal.
pub const BY_GRADIENT: u64 = 5;

pub const BY_FUNCTION: u64 = 6;

pub const BY_STEP: u64 = 7;

pub const BY_ITERATIONS: u64 = 8;

pub const BY_FEVALS: u64 = 9;

pub const BY_SEARCH: u64 = 10;

pub const BY_GRADIENT_FAILED: u64 = 11;

pub const BY_REFUSAL: u64 = 12;
// At the head of a round: no record that is handed back stands here.
pub const AT_HEAD: u64 = 13;

// What the start fixes. The allowances are numbers: an absent max_iter is its default, an absent
// max_fevals the largest u64, which no count reaches. It and the record are two arguments of the moves, and no struct of
// both: it is made anew from the engine's record at each call, and none keeps it.
#[derive(Clone, Copy)]
pub struct Fixed {
    pub n: usize,
    pub options: GradientOptions,
    pub iter: u64,
    pub fevals: u64,
}

// A gradient fit as far as it has come, but for its model of the inverse Hessian: what the open question
// is for, or how the fit ended, with the number and detail of a refusal that ended it; whether no step
// has been made; rounds done; the point, its value and gradient with the direction of the search (the
// line); the search; and the differences for the first gradient. What has not been in use is zero. It crosses to C
// as plain numbers, so those of a refusal stand beside the phase, in no enum.
#[derive(Clone, Copy)]
pub struct Descent {
    pub phase: u64,
    pub number: u64,
    pub detail: u64,
    pub first: bool,
    pub rounds: u64,
    pub line: Line,
    pub search: Search,
    pub diff: Differences,
}

impl Fixed {
    // What the search's start fixes.
    pub fn search_fixed(&self) -> linesearch::Fixed
        ensures { result ≡ search_fixed self.now }
    {
        linesearch::Fixed {
            n: self.n,
            gradients: self.options.gradients,
            options: self.options.wolfe,
        }
    }
}

impl Descent {
    // Before any part is in use.
    #[tactic(auto, unfolding(crate::specs::Descents::idle_of))]
    pub fn idle() -> Descent
        ensures { result ≡ idle_of }
    {
        Descent {
            phase: 0,
            number: 0,
            detail: 0,
            first: false,
            rounds: 0,
            line: Line::default(),
            search: Search::no_trial(),
            diff: Differences::begun([0.0; 16]),
        }
    }

    // The value at x is asked for.
    #[tactic(auto, unfolding(crate::specs::Descents::idle_of, crate::specs::Descents::start_of))]
    pub fn start(x: [f64; 16]) -> Descent
        ensures { result ≡ start_of x }
    {
        let idle = Descent::idle();
        Descent {
            phase: FIRST_VALUE,
            first: true,
            line: Line { x, ..idle.line },
            ..idle
        }
    }

    // Whether the record waits for an answer. It and the next take the record by value: by reference a loop over
    // answers copied it more often, and took 15% more instructions a fit.
    #[tactic(auto, unfolding(crate::specs::Descents::asks_of))]
    pub fn asks(self) -> bool
        ensures { result ≡ asks_of self }
    {
        match self.phase {
            SEARCHING => self.search.phase <= ASKS_DIFFERENCE,
            phase => phase <= FIRST_DIFFERENCES,
        }
    }

    // Whether the open question is for a gradient.
    #[tactic(auto, unfolding(crate::specs::Descents::gradient_due_of))]
    pub fn gradient_due(self) -> bool
        ensures { result ≡ gradient_due_of self }
    {
        match self.phase {
            SEARCHING => self.search.phase == ASKS_GRADIENT,
            phase => phase == FIRST_GRADIENT,
        }
    }

    // The fit ends with a refusal.
    pub fn refused_by(mut self, why: Refusal) -> Descent
        ensures { result ≡ refused_by self why }
    {
        self.phase = BY_REFUSAL;
        self.number = why.number;
        self.detail = why.detail;
        self
    }
}
