// Records that the engine never returned: one field of a record set to a word.
use optim::Record;

// The list with its coordinate of that index set, where it has one.
fn list(a: [f64; 16], index: u64, word: u64) -> [f64; 16] {
    let mut out = a;
    if let Some(x) = out.get_mut(index as usize) {
        *x = lines_forms::value(word);
    }
    out
}

// Fields: 0 accepted, 1 job, 2 n, 3 fevals, 4 gevals, 5 at, 6 forward, 7 value, 8 and 9 the coordinate
// of that index of the point and of the gradient.
pub fn record(before: Record, field: u64, index: u64, word: u64) -> Record {
    let mut r = before;
    match field {
        0 => r.accepted = word,
        1 => r.job = word,
        2 => r.n = word as usize,
        3 => r.counts.fevals = word,
        4 => r.counts.gevals = word,
        5 => r.diff.at = word as usize,
        6 => r.diff.forward = word == 1,
        7 => r.diff.value = lines_forms::value(word),
        8 => r.diff.x = list(r.diff.x, index, word),
        9 => r.diff.g = list(r.diff.g, index, word),
        _ => {}
    }
    r
}
