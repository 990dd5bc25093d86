// Printing a step, a listing or a refusal into a lent slice. A printer answers how many bytes it wrote; what has no room is left
// off.
ghost use Rattle.std.specs.Prelude.{◌≡◌, ◌∷◌, ◌++◌, take};
ghost use Rattle.text.specs.Wrote.{written, writing, wrote};
ghost use Rattle.step.specs.Run.{array_slots};
ghost use Rattle.recipes.specs.Making.{operand_text, operand_bytes};
ghost use Rattle.recipes.specs.Printer.{operation_text, size_text, source_text, destination_text, step_text, steps_text, field_of};
ghost use Rattle.recipes.specs.Printer.{listing_text, refusal_text};

use super::translator::clocks;
use super::types::Refused;
use alu::bit_manip::BitOp;
use alu::shift_rotate::ShiftOp;
use alu::types::Size;
use step::forms::{AddressOp, Count, Form, OneOp, QuickOp, Register, Step, TwoOp};
use step::runs::SLOTS;
use text::types::{NEWLINE, TAB};
use text::writers::Writer;

fn operation_name(form: Form) -> &'static [u8]
    ensures { result.now ≡ operation_text form }
{
    match form {
        Form::Two(TwoOp::Add, _, _) => b"ADD",
        Form::Two(TwoOp::Sub, _, _) => b"SUB",
        Form::Two(TwoOp::Cmp, _, _) => b"CMP",
        Form::Two(TwoOp::Addx, _, _) => b"ADDX",
        Form::Two(TwoOp::Subx, _, _) => b"SUBX",
        Form::Address(AddressOp::Adda, _, _) => b"ADDA",
        Form::Address(AddressOp::Suba, _, _) => b"SUBA",
        Form::Address(AddressOp::Cmpa, _, _) => b"CMPA",
        Form::Quick(QuickOp::Addq, _, _) => b"ADDQ",
        Form::Quick(QuickOp::Subq, _, _) => b"SUBQ",
        Form::One(OneOp::Clr, _) => b"CLR",
        Form::One(OneOp::Neg, _) => b"NEG",
        Form::One(OneOp::Negx, _) => b"NEGX",
        Form::One(OneOp::Not, _) => b"NOT",
        Form::One(OneOp::Ext, _) => b"EXT",
        Form::Shift(ShiftOp::Asl, _, _) => b"ASL",
        Form::Shift(ShiftOp::Asr, _, _) => b"ASR",
        Form::Shift(ShiftOp::Lsl, _, _) => b"LSL",
        Form::Shift(ShiftOp::Lsr, _, _) => b"LSR",
        Form::Shift(ShiftOp::Rol, _, _) => b"ROL",
        Form::Shift(ShiftOp::Ror, _, _) => b"ROR",
        Form::Shift(ShiftOp::Roxl, _, _) => b"ROXL",
        Form::Shift(ShiftOp::Roxr, _, _) => b"ROXR",
        Form::Bit(BitOp::Btst, _, _) => b"BTST",
        Form::Bit(BitOp::Bset, _, _) => b"BSET",
        Form::Bit(BitOp::Bclr, _, _) => b"BCLR",
        Form::Bit(BitOp::Bchg, _, _) => b"BCHG",
        Form::Chk(_, _) => b"CHK",
    }
}

fn size_name(size: Size) -> &'static [u8]
    ensures { result.now ≡ size_text size }
{
    match size {
        Size::Byte => b"B",
        Size::Word => b"W",
        Size::Long => b"L",
    }
}

// A mark and a number: a register, or a small number.
#[derive(Clone, Copy)]
struct Operand(u8, u8);

// Apart from the operands of recipe_calls: those are kinds and numbers for C, and one function for both would want a third type.
fn source(form: Form) -> Option<Operand>
    ensures { operand_text result ≡ source_text form }
{
    match form {
        Form::Address(_, Register::Address(p), _) => Some(Operand(b'A', p.0)),
        Form::Two(_, p, _)
        | Form::Address(_, Register::Data(p), _)
        | Form::Shift(_, Count::Data(p), _)
        | Form::Bit(_, Count::Data(p), _)
        | Form::Chk(p, _) => Some(Operand(b'D', p.0)),
        Form::Quick(_, k, _)
        | Form::Shift(_, Count::Small(k), _)
        | Form::Bit(_, Count::Small(k), _) => Some(Operand(b'#', k)),
        Form::One(_, _) => None,
    }
}

fn destination(form: Form) -> Operand
    ensures { operand_bytes result ≡ destination_text form }
{
    match form {
        Form::Address(_, _, q) | Form::Quick(_, _, Register::Address(q)) => Operand(b'A', q.0),
        Form::Two(_, _, q)
        | Form::Quick(_, _, Register::Data(q))
        | Form::One(_, q)
        | Form::Shift(_, _, q)
        | Form::Bit(_, _, q)
        | Form::Chk(_, q) => Operand(b'D', q.0),
    }
}

// A tab, and a name.
fn put_name(w: &mut Writer, name: &[u8])
    ensures { w.new ≡ wrote w.old (9 ∷ name.now) }
{
    w.byte(TAB);
    w.bytes(name);
}

// A tab, and an operand.
fn put_operand(w: &mut Writer, operand: Option<Operand>)
    ensures { w.new ≡ wrote w.old (9 ∷ operand_text operand) }
{
    w.byte(TAB);
    match operand {
        Some(Operand(mark, n)) => w.number(mark, u64::from(n)),
        None => w.byte(b'-'),
    }
}

// A step of a listing: place, operation, size letter, source, destination, text line.
fn put_step(w: &mut Writer, place: u64, step: Step)
    ensures { w.new ≡ wrote w.old (step_text place step) }
{
    w.decimal(place);
    put_name(w, operation_name(step.form));
    put_name(w, size_name(step.size));
    put_operand(w, source(step.form));
    put_operand(w, Some(destination(step.form)));
    w.number(TAB, u64::from(step.line));
    w.byte(NEWLINE);
}

fn put_steps(w: &mut Writer, steps: &[Step])
    ensures { w.new ≡ wrote w.old (steps_text 0 steps.now) }
{
    for (k, step) in steps.iter().enumerate() {
        put_step(w, k as u64, *step);
    }
}

// What each answer begins with: a name and two numbers.
fn put_head(w: &mut Writer, name: &[u8], a: u64, b: u64)
    ensures { w.new ≡ wrote w.old (name.now ++ (field_of a ++ field_of b)) }
{
    w.bytes(name);
    w.number(TAB, a);
    w.number(TAB, b);
}

// Prints a step as a line of a listing, at a place.
pub fn print_step(place: u64, step: Step, out: &mut [u8]) -> usize
    ensures { written out.new result ≡ writing out.old 0 (step_text place step) }
{
    let mut w = Writer { out, at: 0 };
    put_step(&mut w, place, step);
    w.at
}

// Prints a listing; of more than `SLOTS` steps the first `SLOTS`, 256, as many as a listing by value has: so the sum of their figures
// has room in 64 bits (`clocks`).
pub fn print(width: u8, steps: &[Step], out: &mut [u8]) -> usize
    ensures { written out.new result ≡ writing out.old 0 (listing_text width (take array_slots steps.now)) }
{
    let steps = &steps[..SLOTS.min(steps.len())];
    let mut w = Writer { out, at: 0 };
    put_head(&mut w, b"width", u64::from(width), steps.len() as u64);
    w.byte(NEWLINE);
    put_steps(&mut w, steps);
    w.bytes(b"clocks");
    w.number(TAB, clocks(steps));
    w.byte(NEWLINE);
    w.at
}

// Prints a refusal: `refused`, its number, its line and its column.
pub fn print_refusal(refused: Refused, out: &mut [u8]) -> usize
    ensures { written out.new result ≡ writing out.old 0 (refusal_text refused) }
{
    let mut w = Writer { out, at: 0 };
    put_head(
        &mut w,
        b"refused",
        u64::from(u8::from(refused.refusal)),
        refused.line as u64,
    );
    w.number(TAB, refused.column as u64);
    w.byte(NEWLINE);
    w.at
}
