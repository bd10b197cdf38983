// The refusals that a start's options meet. The structs of options are protocol's own, which have C's layout. An allowance is an Option
// there, and what a start meets a Result: neither crosses to C, so both have structs here.
ghost use Rattle.std.specs.Prelude.{◌≡◌};
ghost use Rattle.optim_first_record.specs.Starts.{simplex_refusal_of, gradient_refusal_of, search_refusal_of};
ghost use Rattle.c_api.specs.Options.{to_allowance_of, to_allowances_of, from_refusal_of, from_result_of};

pub use protocol::{GradientOptions, SimplexOptions, WolfeOptions};

// An allowance: absent, or a number.
#[repr(C)]
#[derive(Clone, Copy)]
pub struct Allowance {
    pub given: bool,
    pub count: u64,
}

#[repr(C)]
#[derive(Clone, Copy)]
pub struct Allowances {
    pub iter: Allowance,
    pub fevals: Allowance,
}

// A refusal's number and detail, 0 and 0 for none.
#[repr(C)]
#[derive(Clone, Copy)]
pub struct Refusal {
    pub number: u64,
    pub detail: u64,
}

// The count beside an absent allowance, which may be any, is not looked at.
#[tactic(auto, unfolding(crate::specs::Options::to_allowance_of))]
impl From<Allowance> for Option<u64> {
    ghost from_gives = { λ a o. o ≡ to_allowance_of a };

    fn from(a: Allowance) -> Option<u64> {
        if a.given { Some(a.count) } else { None }
    }
}

#[tactic(auto, unfolding(crate::specs::Options::to_allowances_of))]
impl From<Allowances> for protocol::Allowances {
    ghost from_gives = { λ a b. b ≡ to_allowances_of a };

    fn from(a: Allowances) -> protocol::Allowances {
        protocol::Allowances {
            iter: a.iter.into(),
            fevals: a.fevals.into(),
        }
    }
}

#[tactic(auto, unfolding(crate::specs::Options::from_refusal_of))]
impl From<Result<(), protocol::Refusal>> for Refusal {
    ghost from_gives = { λ met r. r ≡ from_result_of met };

    fn from(met: Result<(), protocol::Refusal>) -> Refusal {
        match met {
            Ok(()) => Refusal {
                number: 0,
                detail: 0,
            },
            Err(why) => Refusal {
                number: why.number,
                detail: why.detail,
            },
        }
    }
}

// The refusal that a start of a simplex fit of so many coordinates meets, before its point is looked at.
#[unsafe(no_mangle)]
pub extern "C" fn fit_simplex_refusal(count: usize, o: SimplexOptions, a: Allowances) -> Refusal
    ensures { result ≡ from_refusal_of (simplex_refusal_of count o (to_allowances_of a)) }
{
    optim_first_record::simplex_refusal(count, o, a.into()).into()
}

// The same of bfgs and, where `limited`, of lbfgs.
#[unsafe(no_mangle)]
pub extern "C" fn fit_gradient_refusal(
    count: usize,
    o: GradientOptions,
    a: Allowances,
    limited: bool,
) -> Refusal
    ensures { result ≡ from_refusal_of (gradient_refusal_of count o (to_allowances_of a) limited) }
{
    optim_first_record::gradient_refusal(count, o, a.into(), limited).into()
}

// The same of a search, by the counts of coordinates of its point, direction and gradient.
#[unsafe(no_mangle)]
pub extern "C" fn fit_search_refusal(
    n: usize,
    dcount: usize,
    gcount: usize,
    o: WolfeOptions,
) -> Refusal
    ensures { result ≡ from_refusal_of (search_refusal_of n dcount gcount o) }
{
    optim_first_record::search_refusal(n, dcount, gcount, o).into()
}
