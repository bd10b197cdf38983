// The start of bare differences. The record's arrays are lent, and may hold anything; a refused start leaves the blank record.
ghost use Rattle.std.specs.Prelude.{◌≡◌};
ghost use Rattle.optim_start.specs.Start.{differences_of};
ghost use Rattle.optim_lists.specs.Lists.{lists};
ghost use Rattle.optim_lists.specs.Answered.{started_of, point_after, slopes_after};
ghost use Rattle.c_fit.specs.Handed.{handed_of};

use c_api::Reply;
use optim_lists::Lent;

// Central differences at x.
#[unsafe(no_mangle)]
pub extern "C" fn fit_record_differences(
    m: &mut [u64; 36],
    w: &mut [f64; 28],
    dx: &mut [f64; 16],
    dg: &mut [f64; 16],
    sx: &mut [f64; 16],
    best: &mut [f64; 16],
    centroid: &mut [f64; 16],
    reflected: &mut [f64; 16],
    points: &mut [[f64; 16]; 17],
    values: &mut [f64; 17],
    lx: &mut [f64; 16],
    lg: &mut [f64; 16],
    ld: &mut [f64; 16],
    tx: &mut [f64; 16],
    tg: &mut [f64; 16],
    ex: &mut [f64; 16],
    eg: &mut [f64; 16],
    ix: &mut [f64; 16],
    ig: &mut [f64; 16],
    h: &mut [f64; 256],
    steps: &mut [[f64; 16]; 16],
    changes: &mut [[f64; 16]; 16],
    factors: &mut [f64; 16],
    x: &[f64],
    point: &mut [f64; 16],
    slopes: &mut [f64; 16],
) -> Reply
    ensures outcome { (result, lists m.new w.new dx.new dg.new sx.new best.new centroid.new reflected.new points.new values.new lx.new lg.new ld.new tx.new tg.new ex.new eg.new ix.new ig.new h.new steps.new changes.new factors.new) ≡ handed_of (started_of (differences_of x.now)) }
    ensures said_point { point.new ≡ point_after (started_of (differences_of x.now)) point.old }
    ensures said_slopes { slopes.new ≡ slopes_after (started_of (differences_of x.now)) slopes.old }
{
    let lent = Lent {
        m,
        w,
        dx,
        dg,
        sx,
        best,
        centroid,
        reflected,
        points,
        values,
        lx,
        lg,
        ld,
        tx,
        tg,
        ex,
        eg,
        ix,
        ig,
        h,
        steps,
        changes,
        factors,
    };
    optim_lent::differences(lent, x, point, slopes).into()
}
