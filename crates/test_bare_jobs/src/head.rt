// The first line of a job: `search G E`, or `differences`. lines_reader has no form for it, so that its
// fields are taken from its reader one by one, as each ends.
use lines_field::{Field, Shape};

// What the line starts: a search, with whether gradients are given and max_evals, or differences.
#[derive(Clone, Copy)]
pub enum Job {
    Search(bool, u64),
    Differences,
}

// The line as far as it has come: how many fields have ended; how many bytes of `differences` the first
// one spells so far, none where it spells another word; the first three fields, in fixed memory as the engine's.
#[derive(Clone, Copy)]
pub struct Head {
    count: usize,
    spelled: Option<usize>,
    fields: [Field; 3],
}

const NAME: [u8; 11] = *b"differences";

// How many bytes of `differences` are spelled where b follows so many.
fn one_more(spelled: usize, b: u8) -> Option<usize> {
    if spelled < 11 && NAME[spelled] == b {
        return Some(spelled + 1);
    }
    None
}

impl Head {
    // Before the first byte.
    pub fn begun() -> Head {
        Head {
            count: 0,
            spelled: Some(0),
            fields: [Field::blank(); 3],
        }
    }

    // The field f has ended.
    pub fn closed(mut self, f: Field) -> Head {
        let at = self.count;
        if let Some(place) = self.fields.get_mut(at) {
            *place = f;
        }
        self.count = at.saturating_add(1);
        self
    }

    // One byte more, where f is the field before it.
    pub fn fed(mut self, f: Field, b: u8) -> Head {
        if b == b' ' {
            return self.closed(f);
        }
        if self.count == 0 {
            self.spelled = self.spelled.and_then(|n| one_more(n, b));
        }
        self
    }

    // `search`, whether gradients are given, and max_evals.
    fn search(self) -> Option<Job> {
        let [name, flag, evals] = self.fields;
        if !name.spells(6, 0x7365_6172_6368) {
            return None;
        }
        let gradients = flag.judged(Shape::Flag).given()? == 1;
        let evals = evals.judged(Shape::Decimal).given()?;
        Some(Job::Search(gradients, evals))
    }

    // What the line says, once its last field has ended; none where it has another form.
    pub fn said(self) -> Option<Job> {
        match self.count {
            1 if self.spelled == Some(11) => Some(Job::Differences),
            3 => self.search(),
            _ => None,
        }
    }
}
