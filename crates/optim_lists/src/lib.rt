// A record as the arrays that its caller lends to each call. Of them specs/Layout.antt says what lies where, specs/Lists.antt which record they
// are, and specs/Answered.antt what a call leaves in them. optim_load makes the record of them, optim_store stores one in them; the calls are
// those of optim_lent_start and optim_lent.
#![tactic(auto)]

ghost use Rattle.std.specs.Prelude.{◌≡◌};
ghost use Rattle.optim_lists.specs.Lent.{lists_in, lists_held};

// The 23 arrays, in the order of the layout's table (specs/Layout.antt). They stay where their caller has them, and only references pass from
// call to call. C passes each array by itself, so vertices and pairs are parallel arrays here (points beside values; steps, changes, factors).
#[derive(Drop)]
pub struct Lent<'a> {
    pub m: &'a mut [u64; 36],
    pub w: &'a mut [f64; 28],
    pub dx: &'a mut [f64; 16],
    pub dg: &'a mut [f64; 16],
    pub sx: &'a mut [f64; 16],
    pub best: &'a mut [f64; 16],
    pub centroid: &'a mut [f64; 16],
    pub reflected: &'a mut [f64; 16],
    pub points: &'a mut [[f64; 16]; 17],
    pub values: &'a mut [f64; 17],
    pub lx: &'a mut [f64; 16],
    pub lg: &'a mut [f64; 16],
    pub ld: &'a mut [f64; 16],
    pub tx: &'a mut [f64; 16],
    pub tg: &'a mut [f64; 16],
    pub ex: &'a mut [f64; 16],
    pub eg: &'a mut [f64; 16],
    pub ix: &'a mut [f64; 16],
    pub ig: &'a mut [f64; 16],
    pub h: &'a mut [f64; 256],
    pub steps: &'a mut [[f64; 16]; 16],
    pub changes: &'a mut [[f64; 16]; 16],
    pub factors: &'a mut [f64; 16],
}

// The same arrays, to be read alone: what loads the record takes them so, from one who holds them shared too.
#[derive(Clone, Copy)]
pub struct Held<'a> {
    pub m: &'a [u64; 36],
    pub w: &'a [f64; 28],
    pub dx: &'a [f64; 16],
    pub dg: &'a [f64; 16],
    pub sx: &'a [f64; 16],
    pub best: &'a [f64; 16],
    pub centroid: &'a [f64; 16],
    pub reflected: &'a [f64; 16],
    pub points: &'a [[f64; 16]; 17],
    pub values: &'a [f64; 17],
    pub lx: &'a [f64; 16],
    pub lg: &'a [f64; 16],
    pub ld: &'a [f64; 16],
    pub tx: &'a [f64; 16],
    pub tg: &'a [f64; 16],
    pub ex: &'a [f64; 16],
    pub eg: &'a [f64; 16],
    pub ix: &'a [f64; 16],
    pub ig: &'a [f64; 16],
    pub h: &'a [f64; 256],
    pub steps: &'a [[f64; 16]; 16],
    pub changes: &'a [[f64; 16]; 16],
    pub factors: &'a [f64; 16],
}

impl Lent<'_> {
    // The arrays, for as long as they are only read.
    pub fn held(&self) -> Held<'_>
        ensures { lists_held result ≡ lists_in self.now }
    {
        Held {
            m: self.m,
            w: self.w,
            dx: self.dx,
            dg: self.dg,
            sx: self.sx,
            best: self.best,
            centroid: self.centroid,
            reflected: self.reflected,
            points: self.points,
            values: self.values,
            lx: self.lx,
            lg: self.lg,
            ld: self.ld,
            tx: self.tx,
            tg: self.tg,
            ex: self.ex,
            eg: self.eg,
            ix: self.ix,
            ig: self.ig,
            h: self.h,
            steps: self.steps,
            changes: self.changes,
            factors: self.factors,
        }
    }
}
