// One step: on registers that are lent, and by value. In a contract `within` and its like are the definitions of specs/,
// not the functions. Where a comment says "tried", it counts instructions a step of the loop of a run, as `tools/one-loop` does of
// code that is not proved yet (60.2 to 60.5 when most were tried); what is over 1 % slower is not taken. As it ships it takes 58.5.
ghost use Rattle.std.specs.Prelude.{◌≡◌, ℕ, ◌<◌, ◌&&◌, List, slice_set};
ghost use Rattle.alu.specs.Answers.{refigured, figure};
ghost use Rattle.alu.specs.Shifts.{shift_of};
ghost use Rattle.step.specs.declared.forms.Form.TheVariants as Form;
ghost use Rattle.step.specs.declared.forms.Register.TheVariants as Register;
ghost use Rattle.step.specs.declared.steps.Came.TheVariants as How;
ghost use Rattle.step.specs.Registers.{merged_of};
ghost use Rattle.step.specs.Perform.{number_of, class_of, there, register_there, count_there, within};
ghost use Rattle.step.specs.Perform.{on_address_of, quick_of, quick_address_of};
ghost use Rattle.step.specs.Perform.{register_value, outcome_of, figure_of_bit, perform_form, perform_of};
ghost use Rattle.step.specs.Lent.{held};
ghost use Rattle.step.specs.Course.{came_out, leaving, said_of, refused_of, counted_of, count_fault, outcome_from};

use super::forms::{AddressOp, Count, Form, OneOp, QuickOp, Register, Step, TwoOp};
use super::lent::run_one;
use super::registers::{A, D, State, merged, read, write};
use super::runs::End;
use alu::bit_manip::{BitOp, bit_operation};
use alu::integer_arith::{
    exec_add, exec_adda, exec_addq, exec_addq_address, exec_addx, exec_chk, exec_clr, exec_cmp,
    exec_cmpa, exec_ext, exec_neg, exec_negx, exec_not, exec_sub, exec_suba, exec_subq,
    exec_subq_address, exec_subx,
};
use alu::shift_rotate::{
    ShiftOp, exec_asl, exec_asr, exec_lsl, exec_lsr, exec_rol, exec_ror, exec_roxl, exec_roxr,
};
use alu::types::{Answer, Check, Flags, Size};

// Why a step, or a run, is refused, with document 01's numbers.
#[derive(Clone, Copy)]
pub enum Fault {
    BadSmall = 1,
    NoSuchSize = 2,
    NoSuchRegister = 3,
    StartPastEnd = 10,
}

// The class of a CHK that traps.
#[derive(Clone, Copy)]
pub enum Trap {
    Over = 1,
    Short = 2,
    Below = 3,
}

#[derive(Clone, Copy)]
pub enum Outcome {
    Done,
    Trapped(Trap),
    Refused(Fault),
}

// What a step hands back: its outcome, the registers and flags after it, its clock figure. `Told` leaves out the state, which is
// lent, and `Acted` all registers, in the loop: each is flat, with a layout that was counted (`Came`) or that compare calls by.
#[derive(Clone, Copy)]
pub struct Performed {
    pub outcome: Outcome,
    pub state: State,
    pub clocks: u32,
}

// How a step comes out, in one byte: an `Outcome` in its place is packed into a number and taken apart at each step (tried: 63.8).
#[derive(Clone, Copy, PartialEq, Eq)]
pub(crate) enum Came {
    Done,
    Over,
    Short,
    Below,
    BadSmall,
    NoSuchSize,
    NoSuchRegister,
    StartPastEnd,
}

// What a step says beside the registers that it leaves.
#[derive(Clone, Copy)]
pub(crate) struct Acted {
    pub came: Came,
    pub flags: Flags,
    pub clocks: u32,
}

// Document 01's number of a refusal.
impl From<Fault> for u32 {
    ghost from_gives = { λ fault number. number ≡ number_of fault };

    fn from(fault: Fault) -> u32 {
        fault as u32
    }
}

// The number of a trap's class, as the crate alu numbers CHK's.
impl From<Trap> for u32 {
    ghost from_gives = { λ trap number. number ≡ class_of trap };

    fn from(trap: Trap) -> u32 {
        trap as u32
    }
}

// Of two data registers. (In place, where it is asked, tried: 61.3)
fn are_there(s: D, t: D) -> bool
    ensures { result ≡ there s.0 && there t.0 }
{
    s.0 < 8 && t.0 < 8
}

fn register_there(p: Register) -> bool
    ensures { result ≡ register_there p }
{
    match p {
        Register::Data(r) => r.0 < 8,
        Register::Address(r) => r.0 < 8,
    }
}

fn count_there(c: Count) -> bool
    ensures { result ≡ count_there c }
{
    match c {
        Count::Small(_) => true,
        Count::Data(r) => r.0 < 8,
    }
}

fn within(least: u8, most: u8, k: u8) -> bool
    ensures { result ≡ within least most k }
{
    least <= k && k <= most
}

// Here and in the next three an operation is a value, since a listing and a word of C carry it; `rt ci` lets no function hand out
// a closure or a pointer for it.
fn on_address(op: AddressOp, size: Size, src: u32, dst: u32, flags: Flags) -> Answer
    ensures { result ≡ on_address_of op size src dst flags }
{
    match op {
        AddressOp::Adda => exec_adda(size, src, dst, flags),
        AddressOp::Suba => exec_suba(size, src, dst, flags),
        AddressOp::Cmpa => exec_cmpa(size, src, dst, flags),
    }
}

fn quick(op: QuickOp, size: Size, small: u32, dst: u32, flags: Flags) -> Answer
    ensures { result ≡ quick_of op size small dst flags }
{
    match op {
        QuickOp::Addq => exec_addq(size, small, dst, flags),
        QuickOp::Subq => exec_subq(size, small, dst, flags),
    }
}

fn quick_address(op: QuickOp, size: Size, small: u32, dst: u32, flags: Flags) -> Answer
    ensures { result ≡ quick_address_of op size small dst flags }
{
    match op {
        QuickOp::Addq => exec_addq_address(size, small, dst, flags),
        QuickOp::Subq => exec_subq_address(size, small, dst, flags),
    }
}

fn shift(op: ShiftOp, size: Size, count: u32, dst: u32, flags: Flags) -> Answer
    ensures { result ≡ shift_of op size count dst flags }
{
    match op {
        ShiftOp::Asl => exec_asl(size, count, dst, flags),
        ShiftOp::Asr => exec_asr(size, count, dst, flags),
        ShiftOp::Lsl => exec_lsl(size, count, dst, flags),
        ShiftOp::Lsr => exec_lsr(size, count, dst, flags),
        ShiftOp::Rol => exec_rol(size, count, dst, flags),
        ShiftOp::Ror => exec_ror(size, count, dst, flags),
        ShiftOp::Roxl => exec_roxl(size, count, dst, flags),
        ShiftOp::Roxr => exec_roxr(size, count, dst, flags),
    }
}

// A step's figure is its operation's, but for six (document 02, item 3): BCLR below bit 16, and those that `to_data_timed` has.
fn figure_of_bit(op: BitOp, number: u32, operation: u32) -> u32
    ensures { result ≡ figure_of_bit op number operation }
{
    match op {
        BitOp::Btst => operation,
        BitOp::Bset => operation,
        BitOp::Bclr => if number < 16 { 8 } else { operation },
        BitOp::Bchg => operation,
    }
}

fn register_value(d: &[u32; 8], a: &[u32; 8], p: Register) -> u32
    ensures { (f : Flags) → result ≡ register_value (held d.now a.now f) p }
{
    match p {
        Register::Data(r) => read(d, r.0),
        Register::Address(r) => read(a, r.0),
    }
}

// Why a count that does not fit is refused.
fn count_fault(c: Count) -> Came
    ensures { result ≡ count_fault c }
{
    match c {
        Count::Small(_) => Came::BadSmall,
        Count::Data(_) => Came::NoSuchRegister,
    }
}

// A shift's count or a bit's number, if it may be: a small number in range, or what a register that is there holds, mod `MODULUS`.
fn counted<const LEAST: u8, const MOST: u8, const MODULUS: u32>(
    d: &[u32; 8],
    c: Count,
) -> Option<u32>
    requires { 0 < MODULUS }
    ensures { (a : List ℕ) (f : Flags) → result ≡ counted_of LEAST MOST MODULUS (held d.now a f) c }
{
    match c {
        Count::Small(k) if within(LEAST, MOST, k) => Some(u32::from(k)),
        Count::Data(r) if r.0 < 8 => Some(read(d, r.0) % MODULUS),
        _ => None,
    }
}

impl From<Check> for Came {
    ghost from_gives = { λ check came. came_out came ≡ outcome_of check };

    fn from(check: Check) -> Came {
        match check {
            Check::Pass => Came::Done,
            Check::Over => Came::Over,
            Check::Short => Came::Short,
            Check::Below => Came::Below,
        }
    }
}

// The outcome that it stands for.
impl From<Came> for Outcome {
    ghost from_gives = { λ came outcome. outcome ≡ came_out came };

    fn from(came: Came) -> Outcome {
        match came {
            Came::Done => Outcome::Done,
            Came::Over => Outcome::Trapped(Trap::Over),
            Came::Short => Outcome::Trapped(Trap::Short),
            Came::Below => Outcome::Trapped(Trap::Below),
            Came::BadSmall => Outcome::Refused(Fault::BadSmall),
            Came::NoSuchSize => Outcome::Refused(Fault::NoSuchSize),
            Came::NoSuchRegister => Outcome::Refused(Fault::NoSuchRegister),
            Came::StartPastEnd => Outcome::Refused(Fault::StartPastEnd),
        }
    }
}

// What a step says once the operation has answered. The flags go over one by one, as in `refused`, `stands` (whole, tried: 68.9).
fn said(came: Came, answer: Answer) -> Acted
    ensures { result ≡ said_of came answer }
{
    Acted {
        came,
        flags: Flags { ..answer.flags },
        clocks: answer.clocks,
    }
}

// What a refused step says: it changes nothing.
fn refused(came: Came, flags: Flags) -> Acted
    ensures { result ≡ refused_of came flags }
{
    Acted {
        came,
        flags: Flags { ..flags },
        clocks: 0,
    }
}

// The result goes to a data register, at the step's size; `old` is what the register holds.
fn to_data(d: &mut [u32; 8], size: Size, t: D, old: u32, answer: Answer) -> Acted
    ensures { (d.new ≡ slice_set d.old t.0 (merged_of size old answer.result)) × (result ≡ said_of How.Done answer) }
{
    write(d, t.0, merged(size, old, answer.result));
    said(Came::Done, answer)
}

// The same where a long step has a figure of its own, `long`: ADD, SUB, CMP, ADDX, SUBX.
fn to_data_timed(d: &mut [u32; 8], size: Size, t: D, old: u32, answer: Answer, long: u32) -> Acted
    ensures { (d.new ≡ slice_set d.old t.0 (merged_of size old answer.result)) × (result ≡ said_of How.Done (refigured answer (figure size answer.clocks long))) }
{
    let clocks = size.figure(answer.clocks, long);
    to_data(d, size, t, old, Answer { clocks, ..answer })
}

// The result goes whole to a register.
fn to_whole(registers: &mut [u32; 8], t: u8, answer: Answer) -> Acted
    ensures { (registers.new ≡ slice_set registers.old t answer.result) × (result ≡ said_of How.Done answer) }
{
    write(registers, t, answer.result);
    said(Came::Done, answer)
}

// Here and below the tests stand in `if`: with `?`, over a `Result` with the `Acted`, tried in eight ways: 60.9 to 68.6.

// ADD, SUB, CMP, ADDX, SUBX Ds,Dt
fn step_two(d: &mut [u32; 8], flags: Flags, size: Size, op: TwoOp, s: D, t: D) -> Acted
    ensures { (a : List ℕ) → leaving d.new a result ≡ perform_form (held d.old a flags) size (Form.Two op s t) }
{
    if are_there(s, t) {
        let src = read(d, s.0);
        let dst = read(d, t.0);
        match op {
            TwoOp::Add => to_data_timed(d, size, t, dst, exec_add(size, src, dst, flags), 8),
            TwoOp::Sub => to_data_timed(d, size, t, dst, exec_sub(size, src, dst, flags), 8),
            TwoOp::Cmp => to_data_timed(d, size, t, dst, exec_cmp(size, src, dst, flags), 6),
            TwoOp::Addx => to_data_timed(d, size, t, dst, exec_addx(size, src, dst, flags), 8),
            TwoOp::Subx => to_data_timed(d, size, t, dst, exec_subx(size, src, dst, flags), 8),
        }
    } else {
        refused(Came::NoSuchRegister, flags)
    }
}

// ADDA, SUBA, CMPA Ds,At or As,At
fn step_address(
    d: &[u32; 8],
    a: &mut [u32; 8],
    flags: Flags,
    size: Size,
    op: AddressOp,
    s: Register,
    t: A,
) -> Acted
    ensures { leaving d.now a.new result ≡ perform_form (held d.now a.old flags) size (Form.Address op s t) }
{
    if register_there(s) && t.0 < 8 {
        if size != Size::Byte {
            let src = register_value(d, a, s);
            let dst = read(a, t.0);
            to_whole(a, t.0, on_address(op, size, src, dst, flags))
        } else {
            refused(Came::NoSuchSize, flags)
        }
    } else {
        refused(Came::NoSuchRegister, flags)
    }
}

// ADDQ, SUBQ #k,Dt. (One function of this and the next, over a `Register`, tried: 63.3)
fn step_quick(d: &mut [u32; 8], flags: Flags, size: Size, op: QuickOp, k: u8, t: D) -> Acted
    ensures { (a : List ℕ) → leaving d.new a result ≡ perform_form (held d.old a flags) size (Form.Quick op k (Register.Data t)) }
{
    if t.0 < 8 {
        if within(1, 8, k) {
            let dst = read(d, t.0);
            to_data(d, size, t, dst, quick(op, size, u32::from(k), dst, flags))
        } else {
            refused(Came::BadSmall, flags)
        }
    } else {
        refused(Came::NoSuchRegister, flags)
    }
}

// ADDQ, SUBQ #k,At
fn step_quick_address(a: &mut [u32; 8], flags: Flags, size: Size, op: QuickOp, k: u8, t: A) -> Acted
    ensures { (d : List ℕ) → leaving d a.new result ≡ perform_form (held d a.old flags) size (Form.Quick op k (Register.Address t)) }
{
    if t.0 < 8 {
        if size != Size::Byte {
            if within(1, 8, k) {
                let dst = read(a, t.0);
                to_whole(a, t.0, quick_address(op, size, u32::from(k), dst, flags))
            } else {
                refused(Came::BadSmall, flags)
            }
        } else {
            refused(Came::NoSuchSize, flags)
        }
    } else {
        refused(Came::NoSuchRegister, flags)
    }
}

// CLR, NEG, NEGX, NOT, EXT Dt. EXT answers the whole register.
fn step_one(d: &mut [u32; 8], flags: Flags, size: Size, op: OneOp, t: D) -> Acted
    ensures { (a : List ℕ) → leaving d.new a result ≡ perform_form (held d.old a flags) size (Form.One op t) }
{
    if t.0 < 8 {
        let dst = read(d, t.0);
        match op {
            OneOp::Clr => to_data(d, size, t, dst, exec_clr(size, flags)),
            OneOp::Neg => to_data(d, size, t, dst, exec_neg(size, dst, flags)),
            OneOp::Negx => to_data(d, size, t, dst, exec_negx(size, dst, flags)),
            OneOp::Not => to_data(d, size, t, dst, exec_not(size, dst, flags)),
            OneOp::Ext => if size != Size::Byte {
                to_whole(d, t.0, exec_ext(size, dst, flags))
            } else {
                refused(Came::NoSuchSize, flags)
            },
        }
    } else {
        refused(Came::NoSuchRegister, flags)
    }
}

// ASL, ASR, LSL, LSR, ROL, ROR, ROXL, ROXR #c,Dt or Dc,Dt
fn step_shift(d: &mut [u32; 8], flags: Flags, size: Size, op: ShiftOp, c: Count, t: D) -> Acted
    ensures { (a : List ℕ) → leaving d.new a result ≡ perform_form (held d.old a flags) size (Form.Shift op c t) }
{
    if t.0 < 8 {
        if let Some(count) = counted::<1, 8, 64>(d, c) {
            let dst = read(d, t.0);
            to_data(d, size, t, dst, shift(op, size, count, dst, flags))
        } else {
            refused(count_fault(c), flags)
        }
    } else {
        refused(Came::NoSuchRegister, flags)
    }
}

// BTST, BSET, BCLR, BCHG #c,Dt or Dc,Dt. The count is looked at once, after register and size. Where the
// size is wrong, a register of the count that is not there comes first.
fn step_bit(d: &mut [u32; 8], flags: Flags, size: Size, op: BitOp, c: Count, t: D) -> Acted
    ensures { (a : List ℕ) → leaving d.new a result ≡ perform_form (held d.old a flags) size (Form.Bit op c t) }
{
    if t.0 < 8 {
        if size == Size::Long {
            if let Some(number) = counted::<0, 31, 32>(d, c) {
                let dst = read(d, t.0);
                let answer = bit_operation(op, size, number, dst, flags);
                let clocks = figure_of_bit(op, number, answer.clocks);
                to_data(d, size, t, dst, Answer { clocks, ..answer })
            } else {
                refused(count_fault(c), flags)
            }
        } else if count_there(c) {
            refused(Came::NoSuchSize, flags)
        } else {
            refused(Came::NoSuchRegister, flags)
        }
    } else {
        refused(Came::NoSuchRegister, flags)
    }
}

// CHK Ds,Dt: the bound is in Ds. No register is written.
fn step_chk(d: &[u32; 8], flags: Flags, size: Size, s: D, t: D) -> Acted
    ensures { (a : List ℕ) → leaving d.now a result ≡ perform_form (held d.now a flags) size (Form.Chk s t) }
{
    if are_there(s, t) {
        if size == Size::Word {
            let bound = read(d, s.0);
            let value = read(d, t.0);
            let chk = exec_chk(size, bound, value, flags);
            said(Came::from(chk.check), chk.answer)
        } else {
            refused(Came::NoSuchSize, flags)
        }
    } else {
        refused(Came::NoSuchRegister, flags)
    }
}

// One step on registers that are lent. A refused one changes nothing.
pub(crate) fn perform_on(
    d: &mut [u32; 8],
    a: &mut [u32; 8],
    flags: Flags,
    size: Size,
    form: Form,
) -> Acted
    ensures { leaving d.new a.new result ≡ perform_form (held d.old a.old flags) size form }
{
    match form {
        Form::Two(op, s, t) => step_two(d, flags, size, op, s, t),
        Form::Address(op, p, t) => step_address(d, a, flags, size, op, p, t),
        Form::Quick(op, k, p) => match p {
            Register::Data(t) => step_quick(d, flags, size, op, k, t),
            Register::Address(t) => step_quick_address(a, flags, size, op, k, t),
        },
        Form::One(op, t) => step_one(d, flags, size, op, t),
        Form::Shift(op, c, t) => step_shift(d, flags, size, op, c, t),
        Form::Bit(op, c, t) => step_bit(d, flags, size, op, c, t),
        Form::Chk(s, t) => step_chk(d, flags, size, s, t),
    }
}

// The outcome of a run of one step. No `From`: of a longer run it is not the outcome.
fn outcome_from(end: End) -> Outcome
    ensures { result ≡ outcome_from end }
{
    match end {
        End::Finished => Outcome::Done,
        End::Budget => Outcome::Done,
        End::Trapped(trap, _, _) => Outcome::Trapped(trap),
        End::Refused(fault, _, _) => Outcome::Refused(fault),
    }
}

// One step by value: a run of one step. A figure has 32 bits.
pub fn perform(state: State, step: Step) -> Performed
    ensures { result ≡ perform_of state step }
{
    let mut d = state.d;
    let mut a = state.a;
    let left = run_one(step, &mut d, &mut a, state.flags);
    Performed {
        outcome: outcome_from(left.end),
        state: State {
            d,
            a,
            flags: left.flags,
        },
        clocks: (left.clocks % 0x1_0000_0000) as u32,
    }
}
