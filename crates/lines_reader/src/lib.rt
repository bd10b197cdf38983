// Reads a line of the fit program byte by byte. Bytes are not kept, so that the line may have any length: the field
// that is open is a few numbers (lines_field), and when it ends it is read as the shape that the line's form asks
// for at its place.
#![tactic(auto)]

ghost use Rattle.std.specs.Prelude.{◌≡◌, get_or};
ghost use Rattle.lines_field.specs.declared.Shape.TheVariants.{Nothing};
ghost use Rattle.lines_reader.specs.Forms.{form_of, number_of, shape_at_of};
ghost use Rattle.lines_reader.specs.Reader.{kept_of, fresh_line_of, taken_of, started_of, fed_of, finished_of, begun_of};

use lines_field::{Field, Reading, Shape};

// As which line it is read: none is due, line 1, line 2 of simplex, line 2 of bfgs and lbfgs, line 3, an answer. Whoever keeps
// the form as a number may have any: one past these six is `Other`, which is read as no line, and keeps its number.
#[derive(Clone, Copy, PartialEq, Eq)]
pub enum Form {
    Stopped,
    Line1,
    SimplexLine2,
    GradientLine2,
    Line3,
    Answers,
    Other(u64),
}

// The form that a number is, in the order above from 0 on.
#[tactic(auto, unfolding(crate::specs::Forms::form_of))]
impl From<u64> for Form {
    ghost from_gives = { λ k f. f ≡ form_of k };

    fn from(k: u64) -> Form {
        match k {
            0 => Form::Stopped,
            1 => Form::Line1,
            2 => Form::SimplexLine2,
            3 => Form::GradientLine2,
            4 => Form::Line3,
            5 => Form::Answers,
            _ => Form::Other(k),
        }
    }
}

// The number of a form.
impl From<Form> for u64 {
    ghost from_gives = { λ f k. k ≡ number_of f };

    fn from(f: Form) -> u64 {
        match f {
            Form::Stopped => 0,
            Form::Line1 => 1,
            Form::SimplexLine2 => 2,
            Form::GradientLine2 => 3,
            Form::Line3 => 4,
            Form::Answers => 5,
            Form::Other(k) => k,
        }
    }
}

// The shapes of the fields of lines 1 and 2.
const LINE1_SHAPES: [Shape; 2] = [Shape::Job, Shape::Decimal];

const SIMPLEX_SHAPES: [Shape; 7] = [
    Shape::Word,
    Shape::Word,
    Shape::Word,
    Shape::Maybe,
    Shape::Maybe,
    Shape::Decimal,
    Shape::Flag,
];

const GRADIENT_SHAPES: [Shape; 11] = [
    Shape::Word,
    Shape::Word,
    Shape::Word,
    Shape::Word,
    Shape::Word,
    Shape::Word,
    Shape::Maybe,
    Shape::Maybe,
    Shape::Decimal,
    Shape::Decimal,
    Shape::Flag,
];

// The shape that a table has at place i, `Nothing` past its end.
fn listed(shapes: &[Shape], i: usize) -> Shape
    ensures { result ≡ get_or shapes.now i Nothing }
{
    shapes.get(i).copied().unwrap_or(Shape::Nothing)
}

// The shape that a line's form asks for at place i.
#[tactic(auto, unfolding(crate::specs::Forms::shape_at_of))]
fn shape_at(form: Form, i: usize) -> Shape
    ensures { result ≡ shape_at_of form i }
{
    match form {
        Form::Stopped | Form::Other(_) => Shape::Nothing,
        Form::Line1 => listed(&LINE1_SHAPES, i),
        Form::SimplexLine2 => listed(&SIMPLEX_SHAPES, i),
        Form::GradientLine2 => listed(&GRADIENT_SHAPES, i),
        Form::Line3 => Shape::Word,
        Form::Answers => match i {
            0 => Shape::Decimal,
            1 => Shape::Letter,
            _ => Shape::Word,
        },
    }
}

// The fields with v at a place: the first twenty are kept. By no `get_mut`: of an array written through it the
// library tells a proof the length, and no element.
#[tactic(auto, unfolding(crate::specs::Reader::kept_of))]
fn kept(mut fields: [Reading; 20], at: usize, v: Reading) -> [Reading; 20]
    ensures { result ≡ kept_of fields at v }
{
    if at < 20 {
        fields[at] = v;
    }
    fields
}

// A line: its form, how many fields it has, whether each is what its place asks for, whether it has
// no byte, and its first twenty fields. `ok` stands beside them, since it is the verdict on all fields, those
// past the twentieth too, and since an empty line 3 is read though its one field is none. There is no heap, so the
// fields are an array, and `count` runs past what is kept: a line of any length has its count.
#[derive(Clone, Copy)]
pub struct LineRead {
    pub form: Form,
    pub count: usize,
    pub ok: bool,
    pub empty: bool,
    pub fields: [Reading; 20],
}

impl LineRead {
    fn fresh(form: Form) -> Self
        ensures { result ≡ fresh_line_of form }
    {
        LineRead {
            form,
            count: 0,
            ok: true,
            empty: false,
            fields: [Reading::Unfit; 20],
        }
    }

    // The line with one field more.
    #[tactic(auto, unfolding(crate::specs::Reader::taken_of))]
    fn taken(self, f: Field) -> Self
        ensures { result ≡ taken_of self f }
    {
        let v = f.judged(shape_at(self.form, self.count));
        LineRead {
            form: self.form,
            count: self.count.saturating_add(1),
            ok: self.ok && v.fits(),
            empty: self.count == 0 && f.size == 0,
            fields: kept(self.fields, self.count, v),
        }
    }
}

// A line as far as it has come, but for its last field, and that field.
#[derive(Clone, Copy)]
pub struct Reader {
    pub field: Field,
    pub line: LineRead,
}

impl Reader {
    // A reader at the beginning of a line of a form.
    pub fn started(form: Form) -> Self
        ensures { result ≡ started_of form }
    {
        Reader {
            field: Field::blank(),
            line: LineRead::fresh(form),
        }
    }

    // One byte of the line more.
    #[tactic(auto, unfolding(crate::specs::Reader::fed_of))]
    pub fn fed(self, b: u8) -> Self
        ensures { result ≡ fed_of self b }
    {
        if b == b' ' {
            return Reader {
                field: Field::blank(),
                line: self.finished(),
            };
        }
        Reader {
            field: self.field.added(b),
            line: self.line,
        }
    }

    // The line that ends here.
    pub fn finished(self) -> LineRead
        ensures { result ≡ finished_of self }
    {
        self.line.taken(self.field)
    }

    // Whether the line has a byte so far.
    #[tactic(auto, unfolding(crate::specs::Reader::begun_of))]
    pub fn begun(self) -> bool
        ensures { result ≡ begun_of self }
    {
        self.line.count != 0 || self.field.size != 0
    }
}
