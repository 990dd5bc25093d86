// A step as one number, laid out as `specs/Words.antt` says. An operation has the number by which `alu_call` knows it.
// In a contract a name is the definition of specs/, not the function here.
ghost use Rattle.std.specs.Prelude.{◌≡◌, option_and_then};
ghost use Rattle.recipe_calls.specs.Words.{source_at, kind_of, number_in, of_register, of_count, made_of, no_step, named, step_of};
ghost use Rattle.recipe_calls.specs.Words.{size_number, register_number, source_of, destination_number, step_word};

use alu::types::Size;
use calls::size_of;
use step::forms::{Count, Form, Operation, Register, Step, operation_at, operation_of, with_line};
use step::registers::{A, D};

// The kinds of a source. Kinds and sizes are numbers in a step's word alone: the C interface (GRO_STEP of
// bindings/c/gromavelush.h).
const NONE: u8 = 0;

const SMALL: u8 = 1;

const DATA: u8 = 2;

const ADDRESS: u8 = 3;

// A form's source.
#[derive(Clone, Copy)]
pub(crate) enum Source {
    Absent,
    Small(u8),
    Data(D),
    Address(A),
}

impl Source {
    fn kind_and_number(self) -> (u8, u8)
        ensures { result ≡ (kind_of self, number_in self) }
    {
        match self {
            Source::Absent => (NONE, 0),
            Source::Small(k) => (SMALL, k),
            Source::Data(d) => (DATA, d.0),
            Source::Address(a) => (ADDRESS, a.0),
        }
    }
}

// ---- from a word to a step

// The form of an operation with a source of this kind and number and a destination, if they make one. By the kind's number: where a
// `Source` is made of it first, reading a word takes a quarter more instructions.
fn form_of(operation: Operation, kind: u8, source: u8, destination: u8) -> Option<Form>
    ensures { result ≡ option_and_then (λ s. made_of operation s destination) (source_at kind source) }
{
    let p = D(source);
    let q = D(destination);
    let a = A(destination);
    match operation {
        Operation::Two(op) => (kind == DATA).then_some(Form::Two(op, p, q)),
        Operation::Address(op) => match kind {
            DATA => Some(Form::Address(op, Register::Data(p), a)),
            ADDRESS => Some(Form::Address(op, Register::Address(A(source)), a)),
            _ => None,
        },
        Operation::Quick(op) => {
            (kind == SMALL).then_some(Form::Quick(op, source, Register::Data(q)))
        }
        Operation::QuickAddress(op) => {
            (kind == SMALL).then_some(Form::Quick(op, source, Register::Address(a)))
        }
        Operation::One(op) => (kind == NONE).then_some(Form::One(op, q)),
        Operation::Shift(op) => match kind {
            SMALL => Some(Form::Shift(op, Count::Small(source), q)),
            DATA => Some(Form::Shift(op, Count::Data(p), q)),
            _ => None,
        },
        Operation::Bit(op) => match kind {
            SMALL => Some(Form::Bit(op, Count::Small(source), q)),
            DATA => Some(Form::Bit(op, Count::Data(p), q)),
            _ => None,
        },
        Operation::Chk => (kind == DATA).then_some(Form::Chk(p, q)),
    }
}

// A CHK of a byte: a step that is always refused with 2.
pub(crate) fn no_step() -> Step
    ensures { result ≡ no_step }
{
    Step {
        size: Size::Byte,
        form: Form::Chk(D(0), D(0)),
        line: 0,
    }
}

// The step that the bytes of a word name, if they name one; its line is not among them.
#[tactic(auto, using(crate::proofs::Naming::low), unfolding(crate::specs::Words::named))]
fn named(word: u64) -> Option<Step>
    ensures { result ≡ named word }
{
    let [operation, size, kind, source, destination, _, _, _] = word.to_le_bytes();
    let operation = operation_at(operation)?;
    let form = form_of(operation, kind, source, destination)?;
    let size = size_of(size)?;
    Some(Step {
        size,
        form,
        line: 0,
    })
}

// The step that a word names. One that names none has its line all the same.
pub(crate) fn step_of(word: u64) -> Step
    ensures { result ≡ step_of word }
{
    let [_, _, _, _, _, line, _, _] = word.to_le_bytes();
    with_line(named(word).unwrap_or(no_step()), line)
}

// ---- from a step to its word

fn size_number(size: Size) -> u8
    ensures { result ≡ size_number size }
{
    match size {
        Size::Byte => 0,
        Size::Word => 1,
        Size::Long => 2,
    }
}

fn register_number(register: Register) -> u8
    ensures { result ≡ register_number register }
{
    match register {
        Register::Data(d) => d.0,
        Register::Address(a) => a.0,
    }
}

impl From<Register> for Source {
    ghost from_gives = { λ register r. r ≡ of_register register };

    fn from(register: Register) -> Source {
        match register {
            Register::Data(d) => Source::Data(d),
            Register::Address(a) => Source::Address(a),
        }
    }
}

impl From<Count> for Source {
    ghost from_gives = { λ count r. r ≡ of_count count };

    fn from(count: Count) -> Source {
        match count {
            Count::Small(k) => Source::Small(k),
            Count::Data(d) => Source::Data(d),
        }
    }
}

// A form's source, and the number of its destination.
fn operands(form: Form) -> (Source, u8)
    ensures { result ≡ (source_of form, destination_number form) }
{
    match form {
        Form::Two(_, p, q) => (Source::Data(p), q.0),
        Form::Address(_, p, q) => (p.into(), q.0),
        Form::Quick(_, k, q) => (Source::Small(k), register_number(q)),
        Form::One(_, q) => (Source::Absent, q.0),
        Form::Shift(_, k, q) => (k.into(), q.0),
        Form::Bit(_, k, q) => (k.into(), q.0),
        Form::Chk(p, q) => (Source::Data(p), q.0),
    }
}

// A step's word.
#[tactic(auto, unfolding(crate::specs::Words::step_word))]
pub(crate) fn step_word(step: Step) -> u64
    ensures { result ≡ step_word step }
{
    let operation = u8::from(operation_of(step.form));
    let (source, destination) = operands(step.form);
    let (kind, source) = source.kind_and_number();
    let size = size_number(step.size);
    u64::from_le_bytes([operation, size, kind, source, destination, step.line, 0, 0])
}
