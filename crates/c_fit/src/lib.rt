// Whole fits for C: the record's arrays are lent to each call, and what the engine says crosses as numbers. Each function is
// `#[unsafe(no_mangle)] pub extern "C"` and has no `requires`. include/fit.h declares them, with functions that lend a whole record. C calls each
// by its name and passes each array as a pointer of its own, so the six that take a record's are no one generic function: each takes them one
// by one, and lends them on as one `Lent`. A caller that is not Rattle is checked by nothing.
#![tactic(auto)]

mod answer;
mod bfgs;
mod defaults;
mod differences;
mod lbfgs;
mod search;
mod simplex;

ghost use Rattle.std.specs.Prelude.{◌≡◌};

// The version of the header that this archive is of.
#[unsafe(no_mangle)]
pub extern "C" fn fit_version() -> u64
    ensures { result ≡ 1 }
{
    1
}
