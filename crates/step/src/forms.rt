// What a step may be: document 01's forms, their operations, and the operations by number.
ghost use Rattle.std.specs.Prelude.{◌≡◌};
ghost use Rattle.step.specs.Lines.{with_line};
ghost use Rattle.step.specs.Operations.{operation_of, operation_number, operation_at};

use super::registers::{A, D};
use alu::bit_manip::BitOp;
use alu::shift_rotate::ShiftOp;
use alu::types::Size;

// The operations of document 01's forms table, row by row: on two data registers, on an address register, with a small
// number, on one data register.
#[derive(Clone, Copy)]
pub enum TwoOp {
    Add,
    Sub,
    Cmp,
    Addx,
    Subx,
}

#[derive(Clone, Copy)]
pub enum AddressOp {
    Adda,
    Suba,
    Cmpa,
}

#[derive(Clone, Copy)]
pub enum QuickOp {
    Addq,
    Subq,
}

#[derive(Clone, Copy)]
pub enum OneOp {
    Clr,
    Neg,
    Negx,
    Not,
    Ext,
}

// A register of either kind.
#[derive(Clone, Copy)]
pub enum Register {
    Data(D),
    Address(A),
}

// A shift's count or a bit's number: a small number, or what a data register holds.
#[derive(Clone, Copy)]
pub enum Count {
    Small(u8),
    Data(D),
}

// The forms of document 01, source before destination. No other operand kind can be written.
#[derive(Clone, Copy)]
pub enum Form {
    Two(TwoOp, D, D),
    Address(AddressOp, Register, A),
    Quick(QuickOp, u8, Register),
    One(OneOp, D),
    Shift(ShiftOp, Count, D),
    Bit(BitOp, Count, D),
    Chk(D, D),
}

// `line` is the text line that a step comes from, no `Option`: document 02 says "0 for a step made by hand". No test looks at it:
// it is printed, and a trap or a refusal tells it.
#[derive(Clone, Copy)]
pub struct Step {
    pub size: Size,
    pub form: Form,
    pub line: u8,
}

// A step with another line.
pub fn with_line(step: Step, line: u8) -> Step
    ensures { result ≡ with_line line step }
{
    Step { line, ..step }
}

// What a form does, apart from its operands. ADDQ and SUBQ on an address register are operations of their own.
#[derive(Clone, Copy)]
pub enum Operation {
    Two(TwoOp),
    Address(AddressOp),
    Quick(QuickOp),
    QuickAddress(QuickOp),
    One(OneOp),
    Shift(ShiftOp),
    Bit(BitOp),
    Chk,
}

// By a function, no `From`: a form has an operation, and isn't turned into one.
pub fn operation_of(form: Form) -> Operation
    ensures { result ≡ operation_of form }
{
    match form {
        Form::Two(op, _, _) => Operation::Two(op),
        Form::Address(op, _, _) => Operation::Address(op),
        Form::Quick(op, _, Register::Data(_)) => Operation::Quick(op),
        Form::Quick(op, _, Register::Address(_)) => Operation::QuickAddress(op),
        Form::One(op, _) => Operation::One(op),
        Form::Shift(op, _, _) => Operation::Shift(op),
        Form::Bit(op, _, _) => Operation::Bit(op),
        Form::Chk(_, _) => Operation::Chk,
    }
}

// The operation of a number, if it names one.
pub fn operation_at(number: u8) -> Option<Operation>
    ensures { result ≡ operation_at number }
{
    let operation = match number {
        0x00 => Operation::Two(TwoOp::Add),
        0x01 => Operation::Two(TwoOp::Sub),
        0x02 => Operation::Two(TwoOp::Cmp),
        0x03 => Operation::Two(TwoOp::Addx),
        0x04 => Operation::Two(TwoOp::Subx),
        0x05 => Operation::Address(AddressOp::Adda),
        0x06 => Operation::Address(AddressOp::Suba),
        0x07 => Operation::Address(AddressOp::Cmpa),
        0x08 => Operation::Quick(QuickOp::Addq),
        0x09 => Operation::Quick(QuickOp::Subq),
        0x0a => Operation::QuickAddress(QuickOp::Addq),
        0x0b => Operation::QuickAddress(QuickOp::Subq),
        0x0c => Operation::One(OneOp::Clr),
        0x0d => Operation::One(OneOp::Neg),
        0x0e => Operation::One(OneOp::Negx),
        0x0f => Operation::One(OneOp::Not),
        0x10 => Operation::One(OneOp::Ext),
        0x11 => Operation::Shift(ShiftOp::Asl),
        0x12 => Operation::Shift(ShiftOp::Asr),
        0x13 => Operation::Shift(ShiftOp::Lsl),
        0x14 => Operation::Shift(ShiftOp::Lsr),
        0x15 => Operation::Shift(ShiftOp::Rol),
        0x16 => Operation::Shift(ShiftOp::Ror),
        0x17 => Operation::Shift(ShiftOp::Roxl),
        0x18 => Operation::Shift(ShiftOp::Roxr),
        0x19 => Operation::Bit(BitOp::Btst),
        0x1a => Operation::Bit(BitOp::Bset),
        0x1b => Operation::Bit(BitOp::Bclr),
        0x1c => Operation::Bit(BitOp::Bchg),
        0x1d => Operation::Chk,
        _ => return None,
    };
    Some(operation)
}

// The place of an operation in the table.
impl From<Operation> for u8 {
    ghost from_gives = { λ operation number. number ≡ operation_number operation };

    fn from(operation: Operation) -> u8 {
        match operation {
            Operation::Two(TwoOp::Add) => 0x00,
            Operation::Two(TwoOp::Sub) => 0x01,
            Operation::Two(TwoOp::Cmp) => 0x02,
            Operation::Two(TwoOp::Addx) => 0x03,
            Operation::Two(TwoOp::Subx) => 0x04,
            Operation::Address(AddressOp::Adda) => 0x05,
            Operation::Address(AddressOp::Suba) => 0x06,
            Operation::Address(AddressOp::Cmpa) => 0x07,
            Operation::Quick(QuickOp::Addq) => 0x08,
            Operation::Quick(QuickOp::Subq) => 0x09,
            Operation::QuickAddress(QuickOp::Addq) => 0x0a,
            Operation::QuickAddress(QuickOp::Subq) => 0x0b,
            Operation::One(OneOp::Clr) => 0x0c,
            Operation::One(OneOp::Neg) => 0x0d,
            Operation::One(OneOp::Negx) => 0x0e,
            Operation::One(OneOp::Not) => 0x0f,
            Operation::One(OneOp::Ext) => 0x10,
            Operation::Shift(ShiftOp::Asl) => 0x11,
            Operation::Shift(ShiftOp::Asr) => 0x12,
            Operation::Shift(ShiftOp::Lsl) => 0x13,
            Operation::Shift(ShiftOp::Lsr) => 0x14,
            Operation::Shift(ShiftOp::Rol) => 0x15,
            Operation::Shift(ShiftOp::Ror) => 0x16,
            Operation::Shift(ShiftOp::Roxl) => 0x17,
            Operation::Shift(ShiftOp::Roxr) => 0x18,
            Operation::Bit(BitOp::Btst) => 0x19,
            Operation::Bit(BitOp::Bset) => 0x1a,
            Operation::Bit(BitOp::Bclr) => 0x1b,
            Operation::Bit(BitOp::Bchg) => 0x1c,
            Operation::Chk => 0x1d,
        }
    }
}
