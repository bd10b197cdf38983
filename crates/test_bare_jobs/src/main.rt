// Runs the engine's bare jobs, `search` and `differences`, on standard input, one job after another, and
// writes each reply before it waits for more. A job is
//
//     search G E                      or       differences
//     c1 c2 step_max initial_step f0           the point's words
//     the start's words
//     the direction's words
//     the start gradient's words
//
// and then answers, as the fit program has them: number, kind, words. An empty line ends the job. G is 1
// where gradients are answered, else 0, and E is max_evals. A list may have any count of words; the line
// of an empty one is empty. It prints
//
//     ask NUMBER KIND WORDS
//     no NUMBER DETAIL
//     searched yes|no STEP F TRIALS WORDS      the point's words, then the gradient's
//     differenced WORDS                        the gradient's words
//     bad LINE                                 and stops
//
// After a refused start answers are still read: the record of one is refused with 1. Fields and words
// are those of the fit program.
#![tactic(auto)]

mod given;
mod head;
mod print;

use given::Given;
use head::Job;
use lines_options::LineRead;
use optim::{Answered, Record};
use protocol::{Said, WolfeOptions};
use std::io::Stdout;
use test_rows::Stop;

// A list of a job, in fixed memory as the engine's: how many words are lent, and seventeen of them.
// Seventeen are as refused as more.
#[derive(Clone, Copy)]
pub struct List {
    count: usize,
    words: [f64; 17],
}

impl List {
    // The words of a line, none where it is no list: `of` and no `From`, since it may fail, nor `TryFrom`, since
    // nothing is to be said of such a line.
    fn of(l: LineRead) -> Option<List> {
        let n = if l.empty { 0 } else { l.count };
        let words = lines_options::point_line(l, n as u64)?;
        Some(List { count: n, words })
    }

    fn lent(&self) -> &[f64] {
        &self.words[..self.count.min(17)]
    }
}

// A search but for its lists.
#[derive(Clone, Copy)]
pub struct Search {
    options: WolfeOptions,
    step: f64,
    f: f64,
    gradients: bool,
}

impl Search {
    // c1 c2 step_max initial_step f0, none where the list has another length: no `From`, as that of a list.
    fn of(numbers: List, gradients: bool, evals: u64) -> Option<Search> {
        if numbers.count != 5 {
            return None;
        }
        let [c1, c2, stepmax, step, f, ..] = numbers.words;
        Some(Search {
            options: WolfeOptions {
                c1,
                c2,
                stepmax,
                evals,
            },
            step,
            f,
            gradients,
        })
    }

    // The engine's reply to the whole search.
    fn begun(self, x: List, d: List, g: List) -> Answered {
        optim::search(
            x.lent(),
            d.lent(),
            self.f,
            g.lent(),
            self.step,
            self.options,
            self.gradients,
        )
    }
}

// What the next line is to be, with what the lines before it said of the job: its first line, the numbers
// of a search, its start, its direction, its start gradient, the point of differences, an answer.
#[derive(Clone, Copy)]
pub enum Due {
    Job,
    Numbers(bool, u64),
    Start(Search),
    Direction(Search, List),
    Gradient(Search, List, List),
    Point,
    Answer,
}

// What a line brings: another line is due, or the engine replies.
#[derive(Clone, Copy)]
enum Brought {
    Next(Due),
    Reply(Answered),
}

// Writes the reply. No bare job has a fit's outcome.
fn show(output: Stdout, a: &Answered) -> Result<(), Stop> {
    let n = a.next.n;
    match a.said {
        Said::Ask(number, kind) => print::ask(output, number, kind, a.x, n),
        Said::Fitted(_) => print::no(output, 0, 0),
        Said::Searched(found) => print::searched(output, found, a.x, a.g, n),
        Said::Differenced => print::differenced(output, a.g, n),
        Said::Refused(refusal) => print::no(output, refusal.number, refusal.detail),
    }
}

// Where replies are written, the number of the line that is due, what it is to be, the line as far as it
// has come, and the record that the engine returned last.
#[derive(Clone, Copy)]
struct State {
    output: Stdout,
    number: u64,
    due: Due,
    given: Given,
    engine: Record,
}

impl State {
    // Before the first line.
    fn begun(output: Stdout) -> State {
        State {
            output,
            number: 1,
            due: Due::Job,
            given: Given::fresh(Due::Job),
            engine: optim::blank(),
        }
    }

    // The reply to an answer, none where the line has another form. An empty line ends the job.
    fn heard(&self, l: LineRead) -> Option<Brought> {
        if l.empty {
            return Some(Brought::Next(Due::Job));
        }
        let f = lines_options::answer_line(l)?;
        Some(Brought::Reply(optim::answer(self.engine, f.number, f.kind, f.lent())))
    }

    // What the line that has ended brings, none where it is another than is due.
    fn brought(&self) -> Option<Brought> {
        let reader = self.given.reader;
        let l = reader.finished();
        match self.due {
            Due::Job => match self.given.head.closed(reader.field).said()? {
                Job::Search(gradients, evals) => Some(Brought::Next(Due::Numbers(
                    gradients, evals,
                ))),
                Job::Differences => Some(Brought::Next(Due::Point)),
            },
            Due::Numbers(gradients, evals) => {
                let search = Search::of(List::of(l)?, gradients, evals)?;
                Some(Brought::Next(Due::Start(search)))
            }
            Due::Start(search) => Some(Brought::Next(Due::Direction(search, List::of(l)?))),
            Due::Direction(search, x) => Some(Brought::Next(Due::Gradient(
                search,
                x,
                List::of(l)?,
            ))),
            Due::Gradient(search, x, d) => Some(Brought::Reply(search.begun(x, d, List::of(l)?))),
            Due::Point => {
                let x = List::of(l)?;
                Some(Brought::Reply(optim::differences(x.lent())))
            }
            Due::Answer => self.heard(l),
        }
    }

    // The line has ended: it is obeyed, or said to be bad, and the program stops.
    fn turn(&mut self) -> Result<(), Stop> {
        match self.brought() {
            None => {
                print::bad(self.output, self.number)?;
                return Err(Stop::Over);
            }
            Some(Brought::Next(due)) => self.due = due,
            Some(Brought::Reply(a)) => {
                show(self.output, &a)?;
                self.due = Due::Answer;
                self.engine = a.next;
            }
        }
        self.number = self.number.saturating_add(1);
        self.given = Given::fresh(self.due);
        Ok(())
    }

    // A part of the input, line by line.
    fn fed(mut self, part: &[u8]) -> Result<State, Stop> {
        for b in part {
            if *b == b'\n' {
                self.turn()?;
            } else {
                self.given = self.given.fed(*b);
            }
        }
        Ok(self)
    }

    // The last line has no line feed: an empty one is none.
    fn closed(mut self) -> Result<(), Stop> {
        if self.given.reader.begun() {
            return self.turn();
        }
        Ok(())
    }
}

fn main(rt: HostRuntime) {
    let begun = State::begun(rt.stdout());
    let end = test_rows::run(&mut rt.stdin(), begun, State::fed).and_then(State::closed);
    let _ = test_rows::say(&mut rt.stderr(), "test_bare_jobs", end);
}
