// One call for each answer: the record's arrays are lent, and the engine's call over them is made. What it says crosses as numbers.
ghost use Rattle.std.specs.Prelude.{◌≡◌};
ghost use Rattle.optim_lists.specs.Lists.{lists};
ghost use Rattle.optim_lists.specs.Answered.{answered_of, point_after, slopes_after};
ghost use Rattle.c_fit.specs.Handed.{handed_of};

use c_api::Reply;
use optim_lists::Lent;

// An answer: its number, its kind's letter and its words. A refused or repeated one leaves every array of the record as it was.
#[unsafe(no_mangle)]
pub extern "C" fn fit_record_answer(
    m: &mut [u64; 36],
    w: &mut [f64; 28],
    dx: &mut [f64; 16],
    dg: &mut [f64; 16],
    sx: &mut [f64; 16],
    best: &mut [f64; 16],
    centroid: &mut [f64; 16],
    reflected: &mut [f64; 16],
    points: &mut [[f64; 16]; 17],
    values: &mut [f64; 17],
    lx: &mut [f64; 16],
    lg: &mut [f64; 16],
    ld: &mut [f64; 16],
    tx: &mut [f64; 16],
    tg: &mut [f64; 16],
    ex: &mut [f64; 16],
    eg: &mut [f64; 16],
    ix: &mut [f64; 16],
    ig: &mut [f64; 16],
    h: &mut [f64; 256],
    steps: &mut [[f64; 16]; 16],
    changes: &mut [[f64; 16]; 16],
    factors: &mut [f64; 16],
    number: u64,
    kind: u8,
    words: &[f64],
    point: &mut [f64; 16],
    slopes: &mut [f64; 16],
) -> Reply
    ensures outcome { (result, lists m.new w.new dx.new dg.new sx.new best.new centroid.new reflected.new points.new values.new lx.new lg.new ld.new tx.new tg.new ex.new eg.new ix.new ig.new h.new steps.new changes.new factors.new) ≡ handed_of (answered_of (lists m.old w.old dx.old dg.old sx.old best.old centroid.old reflected.old points.old values.old lx.old lg.old ld.old tx.old tg.old ex.old eg.old ix.old ig.old h.old steps.old changes.old factors.old) number kind words.now) }
    ensures said_point { point.new ≡ point_after (answered_of (lists m.old w.old dx.old dg.old sx.old best.old centroid.old reflected.old points.old values.old lx.old lg.old ld.old tx.old tg.old ex.old eg.old ix.old ig.old h.old steps.old changes.old factors.old) number kind words.now) point.old }
    ensures said_slopes { slopes.new ≡ slopes_after (answered_of (lists m.old w.old dx.old dg.old sx.old best.old centroid.old reflected.old points.old values.old lx.old lg.old ld.old tx.old tg.old ex.old eg.old ix.old ig.old h.old steps.old changes.old factors.old) number kind words.now) slopes.old }
{
    let lent = Lent {
        m,
        w,
        dx,
        dg,
        sx,
        best,
        centroid,
        reflected,
        points,
        values,
        lx,
        lg,
        ld,
        tx,
        tg,
        ex,
        eg,
        ix,
        ig,
        h,
        steps,
        changes,
        factors,
    };
    optim_lent::answer(lent, number, kind, words, point, slopes).into()
}
