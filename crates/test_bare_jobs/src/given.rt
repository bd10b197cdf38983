// The line that is being given, byte by byte.
use crate::Due;
use crate::head::Head;
use lines_options::Reader;
use lines_reader::Form;

// A line as far as it has come, read both ways.
#[derive(Clone, Copy)]
pub struct Given {
    pub reader: Reader,
    pub head: Head,
}

impl Given {
    // Before a line, which lines_reader reads by the form of the one that is due.
    pub fn fresh(due: Due) -> Given {
        let form = match due {
            Due::Job => Form::Stopped,
            Due::Answer => Form::Answers,
            _ => Form::Line3,
        };
        Given {
            reader: Reader::started(form),
            head: Head::begun(),
        }
    }

    pub fn fed(self, b: u8) -> Given {
        let reader = self.reader;
        Given {
            reader: reader.fed(b),
            head: self.head.fed(reader.field, b),
        }
    }
}
