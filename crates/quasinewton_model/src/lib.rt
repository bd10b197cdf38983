// The inverse Hessian models of quasinewton.rs as one: dense, or of limited memory.
#![tactic(auto)]

ghost use Rattle.std.specs.Prelude.{◌≡◌, ◌≤◌};
ghost use Rattle.quasinewton_model.specs.Step.{ModelInRange, FewPairs, blank_of, new_model_of, direction_of, update_of};

pub use quasinewton_dense::Dense;
pub use quasinewton_limited::{Limited, Pair};

// One of the two: the part that is not in use stays zero. It crosses to C as numbers, any of which must be taken, so
// it is no enum.
#[derive(Clone, Copy)]
pub struct Model {
    pub limited: bool,
    pub memory: usize,
    pub dense: Dense,
    pub pairs: Limited,
}

impl Model {
    // All zero: the model of a record that has none.
    pub fn blank() -> Model
        ensures { result ≡ blank_of }
    {
        Model {
            limited: false,
            memory: 0,
            dense: Dense {
                fresh: false,
                h: [0.0; 256],
            },
            pairs: Limited::no_pairs(0.0),
        }
    }

    // The first model of a fit: the identity, or no pairs. Flag and memory stand apart, as in the record, which crosses to C.
    #[tactic(auto, unfolding(crate::specs::Step::new_model_of))]
    pub fn new_model(limited: bool, memory: usize, n: usize) -> Model
        requires { n ≤ 16 }
        ensures { result ≡ new_model_of limited memory n }
    {
        let none = Model::blank();
        if limited {
            let pairs = Limited::no_pairs(1.0);
            return Model {
                limited: true,
                memory,
                pairs,
                ..none
            };
        }
        let h = quasinewton_dense::diagonal(1.0, n);
        let dense = Dense { fresh: true, h };
        Model {
            limited: false,
            memory: 0,
            dense,
            ..none
        }
    }

    // -H g
    #[tactic(auto, unfolding(crate::specs::Step::direction_of))]
    pub fn direction(&self, g: [f64; 16], n: usize) -> [f64; 16]
        requires few_pairs { FewPairs self.now }
        requires n_bound { n ≤ 16 }
        ensures { result ≡ direction_of self.now g n }
    {
        if self.limited {
            return self.pairs.limited_direction(g, n);
        }
        self.dense.dense_direction(g, n)
    }

    // The model with the pair (s, y) taken in.
    #[tactic(auto, unfolding(crate::specs::Step::update_of))]
    pub fn update(self, s: [f64; 16], y: [f64; 16], n: usize) -> Model
        requires model_in_range { ModelInRange self }
        requires n_bound { n ≤ 16 }
        ensures { result ≡ update_of self s y n }
    {
        if self.limited {
            let pairs = self.pairs.limited_update(self.memory, s, y, n);
            return Model { pairs, ..self };
        }
        let dense = self.dense.dense_update(s, y, n);
        Model { dense, ..self }
    }
}
