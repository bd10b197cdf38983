// The start of a simplex fit. The record's arrays are lent, and may hold anything; a refused start leaves the blank record.
ghost use Rattle.std.specs.Prelude.{◌≡◌};
ghost use Rattle.optim_start.specs.Start.{simplex_of};
ghost use Rattle.optim_lists.specs.Lists.{lists};
ghost use Rattle.optim_lists.specs.Answered.{started_of, point_after, slopes_after};
ghost use Rattle.c_api.specs.Options.{to_allowances_of};
ghost use Rattle.c_fit.specs.Handed.{handed_of};

use c_api::{Allowances, Reply, SimplexOptions};
use optim_lists::Lent;

// A simplex fit at x.
#[unsafe(no_mangle)]
pub extern "C" fn fit_record_simplex(
    m: &mut [u64; 36],
    w: &mut [f64; 28],
    dx: &mut [f64; 16],
    dg: &mut [f64; 16],
    sx: &mut [f64; 16],
    best: &mut [f64; 16],
    centroid: &mut [f64; 16],
    reflected: &mut [f64; 16],
    points: &mut [[f64; 16]; 17],
    values: &mut [f64; 17],
    lx: &mut [f64; 16],
    lg: &mut [f64; 16],
    ld: &mut [f64; 16],
    tx: &mut [f64; 16],
    tg: &mut [f64; 16],
    ex: &mut [f64; 16],
    eg: &mut [f64; 16],
    ix: &mut [f64; 16],
    ig: &mut [f64; 16],
    h: &mut [f64; 256],
    steps: &mut [[f64; 16]; 16],
    changes: &mut [[f64; 16]; 16],
    factors: &mut [f64; 16],
    x: &[f64],
    o: SimplexOptions,
    a: Allowances,
    point: &mut [f64; 16],
    slopes: &mut [f64; 16],
) -> Reply
    ensures outcome { (result, lists m.new w.new dx.new dg.new sx.new best.new centroid.new reflected.new points.new values.new lx.new lg.new ld.new tx.new tg.new ex.new eg.new ix.new ig.new h.new steps.new changes.new factors.new) ≡ handed_of (started_of (simplex_of x.now o (to_allowances_of a))) }
    ensures said_point { point.new ≡ point_after (started_of (simplex_of x.now o (to_allowances_of a))) point.old }
    ensures said_slopes { slopes.new ≡ slopes_after (started_of (simplex_of x.now o (to_allowances_of a))) slopes.old }
{
    let lent = Lent {
        m,
        w,
        dx,
        dg,
        sx,
        best,
        centroid,
        reflected,
        points,
        values,
        lx,
        lg,
        ld,
        tx,
        tg,
        ex,
        eg,
        ix,
        ig,
        h,
        steps,
        changes,
        factors,
    };
    optim_lent::simplex(lent, x, o, a.into(), point, slopes).into()
}
