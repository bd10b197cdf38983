// The model of limited memory of the inverse Hessian (Nocedal and Wright 2006, Algorithm 7.4).
#![tactic(auto)]

ghost use Rattle.std.specs.Prelude.{◌≡◌, ◌≤◌, ◌<◌};
ghost use Rattle.quasinewton_limited.specs.Step.{down_of, all_down_of, up_of, all_up_of, limited_direction_of, shifted_of, popped_of, room_of, gamma_of, limited_update_of, no_pairs_of};

// A step, the change of the gradient along it, and 1 / (s · y).
#[derive(Clone, Copy)]
pub struct Pair {
    pub s: [f64; 16],
    pub y: [f64; 16],
    pub rho: f64,
}

// The last pairs, oldest first. It crosses to C as numbers, any of which must be taken, a count above sixteen too.
#[derive(Clone, Copy)]
pub struct Limited {
    pub count: usize,
    pub gamma: f64,
    pub pairs: [Pair; 16],
}

// What the first loop of the two hands to the second. alphas[i] is that of pair i: they lie beside the pairs, as in the Rust's two loops.
#[derive(Clone, Copy)]
pub struct Sweep {
    pub q: [f64; 16],
    pub alphas: [f64; 16],
}

impl Pair {
    // Past pair i on the way down.
    #[tactic(auto, unfolding(crate::specs::Step::down_of))]
    fn down(&self, w: Sweep, i: usize, n: usize) -> Sweep
        requires i_bound { i < 16 }
        requires n_bound { n ≤ 16 }
        ensures { result ≡ down_of self.now w i n }
    {
        let alpha = self.rho * vector::dot(self.s, w.q, n);
        let q = vector::minus_scaled(w.q, alpha, self.y, n);
        let mut alphas = w.alphas;
        alphas[i] = alpha;
        Sweep { q, alphas }
    }

    // Past a pair on the way up.
    #[tactic(auto, unfolding(crate::specs::Step::up_of))]
    fn up(&self, q: [f64; 16], alpha: f64, n: usize) -> [f64; 16]
        requires { n ≤ 16 }
        ensures { result ≡ up_of self.now q alpha n }
    {
        let beta = self.rho * vector::dot(self.y, q, n);
        vector::plus_scaled(q, alpha - beta, self.s, n)
    }
}

// The k pairs after the first, each one place down.
#[tactic(auto, unfolding(crate::specs::Step::shifted_of))]
fn shifted(pairs: [Pair; 16], k: usize) -> [Pair; 16]
    requires { k < 16 }
    ensures { result ≡ shifted_of pairs k }
{
    let mut w = pairs;
    w[..k].copy_from_slice(&pairs[1..=k]);
    w
}

// The scaling of eq. 7.20.
fn gamma(old: f64, sy: f64, yy: f64) -> f64
    ensures { result ≡ gamma_of old sy yy }
{
    if yy > 0.0 {
        return sy / yy;
    }
    old
}

impl Limited {
    pub fn no_pairs(gamma: f64) -> Limited
        ensures { result ≡ no_pairs_of gamma }
    {
        let none = Pair {
            s: [0.0; 16],
            y: [0.0; 16],
            rho: 0.0,
        };
        Limited {
            count: 0,
            gamma,
            pairs: [none; 16],
        }
    }

    // The first loop: from the newest pair to the oldest.
    fn all_down(&self, g: [f64; 16], n: usize) -> Sweep
        requires count_bound { self.now.count ≤ 16 }
        requires n_bound { n ≤ 16 }
        ensures { result ≡ all_down_of self.now g n }
    {
        let mut w = Sweep {
            q: g,
            alphas: [0.0; 16],
        };
        for i in (0..self.count).rev() {
            w = self.pairs[i].down(w, i, n);
        }
        w
    }

    // The second loop: from the oldest pair to the newest. (By `next`: the check does not assign a call's array to a local that is there
    // already.)
    #[tactic(auto, unfolding(crate::specs::Step::all_up_of))]
    fn all_up(&self, r: [f64; 16], alphas: [f64; 16], n: usize) -> [f64; 16]
        requires count_bound { self.now.count ≤ 16 }
        requires n_bound { n ≤ 16 }
        ensures { result ≡ all_up_of self.now.pairs r alphas n self.now.count }
    {
        let mut q = r;
        for i in 0..self.count {
            let next = self.pairs[i].up(q, alphas[i], n);
            q = next;
        }
        q
    }

    // -H g by the two loops.
    #[tactic(auto, unfolding(crate::specs::Step::limited_direction_of))]
    pub fn limited_direction(&self, g: [f64; 16], n: usize) -> [f64; 16]
        requires count_bound { self.now.count ≤ 16 }
        requires n_bound { n ≤ 16 }
        ensures { result ≡ limited_direction_of self.now g n }
    {
        let w = self.all_down(g, n);
        let r = vector::scaled(w.q, self.gamma, n);
        let u = self.all_up(r, w.alphas, n);
        vector::negation(u, n)
    }

    // The oldest pair drops out, if there is one.
    #[tactic(auto, unfolding(crate::specs::Step::popped_of))]
    fn popped(self) -> Limited
        requires { self.count ≤ 16 }
        ensures { result ≡ popped_of self }
    {
        let k = self.count;
        if k == 0 {
            return self;
        }
        let pairs = shifted(self.pairs, k - 1);
        Limited {
            count: k - 1,
            pairs,
            ..self
        }
    }

    // Where the memory is full the oldest pair makes room.
    #[tactic(auto, unfolding(crate::specs::Step::room_of))]
    fn room(self, memory: usize) -> Limited
        requires { self.count ≤ 16 }
        ensures { result ≡ room_of self memory }
    {
        if self.count == memory {
            return self.popped();
        }
        self
    }

    #[tactic(auto, unfolding(crate::specs::Step::limited_update_of))]
    pub fn limited_update(self, memory: usize, s: [f64; 16], y: [f64; 16], n: usize) -> Limited
        requires count_le_memory { self.count ≤ memory }
        requires memory_bound { memory ≤ 16 }
        requires n_bound { n ≤ 16 }
        ensures { result ≡ limited_update_of self memory s y n }
    {
        let sy = vector::dot(s, y, n);
        let yy = vector::dot(y, y, n);
        let scale = gamma(self.gamma, sy, yy);
        let kept = self.room(memory);
        let k = kept.count;
        let mut pairs = kept.pairs;
        pairs[k] = Pair {
            s,
            y,
            rho: 1.0 / sy,
        };
        Limited {
            count: k + 1,
            gamma: scale,
            pairs,
        }
    }
}
