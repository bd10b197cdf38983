// The reading of values, and central differences one answer at a time.
#![tactic(auto)]

ghost use Rattle.std.specs.Prelude.{◌≡◌, ◌<◌};
ghost use Rattle.protocol.specs.Protocol.{read_of};
ghost use Rattle.objective.specs.Algorithm.{difference_step, forward_of, backward_of};
ghost use Rattle.objective.specs.Step.{begun_of, probe_of, told_of};

// Central differences as far as they have come: `at` coordinates are done, `forward` says whether x + h
// of the next is told, and `value` what was told there; the point, and the gradient so far. It is done
// where `at` is n. What is not in use is zero. It crosses to C as numbers, and any must be taken: so `forward`
// stands beside `value`, and no Option holds it.
#[derive(Clone, Copy)]
pub struct Differences {
    pub at: usize,
    pub forward: bool,
    pub value: f64,
    pub x: [f64; 16],
    pub g: [f64; 16],
}

// How every value told passes into a fit: one that is not finite is read as +infinity.
pub fn read(v: f64) -> f64
    ensures { result ≡ read_of v }
{
    if float::is_finite(v) {
        return v;
    }
    1.0 / 0.0
}

// The step of a difference at a coordinate of a typical size.
#[tactic(auto, unfolding(crate::specs::Algorithm::difference_step))]
pub fn difference_step(x: f64, size: f64) -> f64
    ensures { result ≡ difference_step x size }
{
    float::difference_factor() * float::max(float::abs(x), size)
}

// x + h and x - h. They differ in the operation alone: one function would take it as a closure, and be longer.
#[tactic(auto, unfolding(crate::specs::Algorithm::forward_of))]
pub fn forward(x: f64) -> f64
    ensures { result ≡ forward_of x }
{
    x + difference_step(x, 1.0)
}

#[tactic(auto, unfolding(crate::specs::Algorithm::backward_of))]
pub fn backward(x: f64) -> f64
    ensures { result ≡ backward_of x }
{
    x - difference_step(x, 1.0)
}

impl Differences {
    pub fn begun(x: [f64; 16]) -> Differences
        ensures { result ≡ begun_of x }
    {
        let g = [0.0; 16];
        Differences {
            at: 0,
            forward: false,
            value: 0.0,
            x,
            g,
        }
    }

    // The point at which a value is asked for.
    #[tactic(auto, unfolding(crate::specs::Step::probe_of))]
    pub fn probe(&self) -> [f64; 16]
        requires { self.now.at < 16 }
        ensures { result ≡ probe_of self.now }
    {
        let i = self.at;
        let mut x = self.x;
        let c = x[i];
        x[i] = if self.forward {
            backward(c)
        } else {
            forward(c)
        };
        x
    }

    // What then stands, when v is told there.
    pub fn told(self, v: f64) -> Differences
        requires { self.at < 16 }
        ensures { result ≡ told_of self v }
    {
        let i = self.at;
        if self.forward {
            let c = self.x[i];
            let mut g = self.g;
            g[i] = (self.value - v) / (forward(c) - backward(c));
            return Differences {
                at: i + 1,
                forward: false,
                value: 0.0,
                g,
                ..self
            };
        }
        Differences {
            forward: true,
            value: v,
            ..self
        }
    }
}
