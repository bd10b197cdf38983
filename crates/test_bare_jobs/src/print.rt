// What is printed: questions, refusals and bad lines as the fit program has them, and the outcomes of
// searches and differences, which it has not: these are written word by word, and nothing behind a word that is lost.
use lines_buffer::Text;
use protocol::{Found, Kind};
use std::io::Stdout;
use test_rows::Stop;

fn line(output: Stdout, bytes: &[u8]) -> Result<(), Stop> {
    output.write_all(bytes).map_err(|_| Stop::WriteFailed)
}

// Writes what lines_print puts into a buffer, as many bytes as it says.
fn printed<F: FnOnce(&mut [u8; 512]) -> usize>(output: Stdout, put: F) -> Result<(), Stop>
    requires { F.IsAlwaysCallable put }
{
    let mut out = [0u8; 512];
    let n = put(&mut out);
    line(output, &out[..n.min(512)])
}

pub fn bad(output: Stdout, number: u64) -> Result<(), Stop> {
    printed(output, |out| lines_print::put_bad(out, number))
}

pub fn no(output: Stdout, number: u64, detail: u64) -> Result<(), Stop> {
    printed(output, |out| lines_print::put_no(out, number, detail))
}

pub fn ask(output: Stdout, number: u64, kind: Kind, x: [f64; 16], n: usize) -> Result<(), Stop> {
    printed(output, |out| lines_print::put_ask(out, number, kind, x, n))
}

// A value's bits with a space before them.
fn value(output: Stdout, v: f64) -> Result<(), Stop> {
    let mut t = Text::<17>::new();
    t.push_value(v);
    line(output, t.as_bytes())
}

// The first n values.
fn values(output: Stdout, x: &[f64; 16], n: usize) -> Result<(), Stop> {
    for v in &x[..n.min(16)] {
        value(output, *v)?;
    }
    Ok(())
}

// A space, then the number.
fn count(output: Stdout, n: u64) -> Result<(), Stop> {
    line(output, b" ")?;
    let mut t = Text::<20>::new();
    t.push_decimal(n);
    line(output, t.as_bytes())
}

fn success(output: Stdout, found: bool) -> Result<(), Stop> {
    if found {
        line(output, b"searched yes")
    } else {
        line(output, b"searched no")
    }
}

// `searched`, success, step, f, the count of trials, the point, the gradient.
pub fn searched(
    output: Stdout,
    found: Found,
    x: [f64; 16],
    g: [f64; 16],
    n: usize,
) -> Result<(), Stop> {
    success(output, found.success)?;
    value(output, found.step)?;
    value(output, found.f)?;
    count(output, found.trials)?;
    values(output, &x, n)?;
    values(output, &g, n)?;
    line(output, b"\n")
}

// `differenced`, the gradient.
pub fn differenced(output: Stdout, g: [f64; 16], n: usize) -> Result<(), Stop> {
    line(output, b"differenced")?;
    values(output, &g, n)?;
    line(output, b"\n")
}
