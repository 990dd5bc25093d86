// ASL, ASR, LSL, LSR, ROL, ROR, ROXL and ROXR of a data register, on values and flags: shift_rotate.rs
// of the crate m68k, in its order. In a contract a name is a definition of specs/, not a function here.
//
// `shift` is document 01's count. The code puts X beside the operand and moves bits + 1 places at once in 64 bits. m68k's cases
// for counts at and above the size fall away: what stands in X's place at the end is the last bit out.
ghost use Rattle.std.specs.Prelude.{◌≡◌, ◌+◌, ◌-◌, ◌%◌, ◌<◌, ◌≤◌, ◌^◌};
ghost use Rattle.alu.specs.Bits.{bits_of, low};
ghost use Rattle.alu.specs.Shifts.{rotated, start, moved, changed, shift_answer, shifted, shift_of};
ghost use Rattle.alu.specs.Places.{above, below, from_above, from_below, turned_left};

use super::types::{Answer, Flags, Size, Verdict, result_flags};

#[derive(Clone, Copy, PartialEq, Eq)]
pub enum ShiftOp {
    Asl,
    Asr,
    Lsl,
    Lsr,
    Rol,
    Ror,
    Roxl,
    Roxr,
}

// An operand and the bit that went out of it last; before the first position that is X.
#[derive(Clone, Copy, PartialEq, Eq)]
pub struct Held {
    pub value: u32,
    pub out: bool,
}

// How many positions an operand is moved by.
#[derive(Clone, Copy)]
struct Positions {
    count: u32,
    ghost in_range: { count < 64 },
}

impl Positions {
    // Document 01's count mod 64.
    fn of(shift: u32) -> Positions
        ensures { result.count ≡ shift % 64 }
    {
        Positions { count: shift % 64 }
    }
}

// The operand with X above it, and below it. Of each pair here every line is the mirror of the other's: one function
// for both would choose in each line, and be longer than the two.
fn above_of(size: Size, value: u32, x: bool) -> u64
    ensures { (result ≡ above (bits_of size) (start (bits_of size) value x)) × (result < 2 ^ 33) }
{
    let operand = u64::from(size.masked(u64::from(value)));
    operand + u64::from(x) * size.modulus()
}

fn below_of(size: Size, value: u32, x: bool) -> u64
    ensures { (result ≡ below (start (bits_of size) value x)) × (result < 2 ^ 33) }
{
    let operand = u64::from(size.masked(u64::from(value)));
    2 * operand + u64::from(x)
}

// And back: the operand, and the bit in X's place.
fn from_above(size: Size, places: u64) -> Held
    ensures { result ≡ from_above (bits_of size) places }
{
    Held {
        value: size.masked(places),
        out: (places >> size.bits()) % 2 == 1,
    }
}

fn from_below(places: u64) -> Held
    requires { places < 2 ^ 33 }
    ensures { result ≡ from_below places }
{
    Held {
        value: (places / 2) as u32,
        out: places % 2 == 1,
    }
}

// Zeros come in at the bottom.
fn lsl(size: Size, k: Positions, value: u32, x: bool) -> Held
    ensures { result ≡ moved ShiftOp.Lsl (bits_of size) k.count value x }
{
    let places = above_of(size, value, x);
    from_above(size, places << k.count)
}

// Zeros come in at the top.
fn lsr(size: Size, k: Positions, value: u32, x: bool) -> Held
    ensures { result ≡ moved ShiftOp.Lsr (bits_of size) k.count value x }
{
    let places = below_of(size, value, x);
    from_below(places >> k.count)
}

// Copies of the top bit come in at the top: below zero, that is from `least` on, as many ones as there
// are positions.
fn asr(size: Size, k: Positions, value: u32, x: bool) -> Held
    ensures { result ≡ moved ShiftOp.Asr (bits_of size) k.count value x }
{
    let places = below_of(size, value, x);
    let least = size.modulus();
    let ones = 2 * least - 1;
    let fill = if places < least {
        0
    } else {
        ones - (ones >> k.count)
    };
    from_below((places >> k.count) + fill)
}

// V of ASL, position by position as m68k walks: it is set if the top bit changes at any of them.
// After as many as the size has bits, zeros follow zeros.
fn asl_overflow(size: Size, k: u32, value: u32) -> bool
    ensures { result ≡ changed (bits_of size) k (low (bits_of size) value) }
{
    let mut operand = value;
    let mut changes: u32 = 0;
    for _ in 0..k.min(size.bits()) {
        let next = operand << 1;
        changes = changes | operand ^ next;
        operand = next;
    }
    size.top(changes)
}

// A ring of so many places, turned to the left by j of them.
#[tactic(auto, using(crate::proofs::Rings::turned_64))]
fn turned_left(places: u32, j: u32, ring: u64) -> u64
    requires { (0 < places) × (places ≤ 33) × (j ≤ places) × (ring < 2 ^ places) }
    ensures { (result ≡ turned_left places j ring) × (result < 2 ^ places) }
{
    (ring << j) % (1 << places) + (ring >> (places - j))
}

// The count that is left after whole rounds of bits and MORE places. A constant in each arm: there is no division.
fn round<const MORE: u32>(size: Size, k: u32) -> u32
    requires { MORE ≤ 1 }
    ensures { (result ≡ k % (bits_of size + MORE)) × (result < bits_of size + MORE) }
{
    match size {
        Size::Byte => k % (8 + MORE),
        Size::Word => k % (16 + MORE),
        Size::Long => k % (32 + MORE),
    }
}

// The bits go round to the left by j. By j to the right is by the rest of the round to the left.
fn rotate(size: Size, j: u32, value: u32) -> u32
    requires { j ≤ bits_of size }
    ensures { result ≡ turned_left (bits_of size) j (low (bits_of size) value) }
{
    let ring = u64::from(size.masked(u64::from(value)));
    turned_left(size.bits(), j, ring) as u32
}

// The bits and X go round.
fn roxl(size: Size, k: u32, value: u32, x: bool) -> Held
    ensures { result ≡ moved ShiftOp.Roxl (bits_of size) k value x }
{
    let ring = above_of(size, value, x);
    let places = size.bits() + 1;
    from_above(size, turned_left(places, round::<1>(size, k), ring))
}

fn roxr(size: Size, k: u32, value: u32, x: bool) -> Held
    ensures { result ≡ moved ShiftOp.Roxr (bits_of size) k value x }
{
    let ring = below_of(size, value, x);
    let places = size.bits() + 1;
    from_below(turned_left(places, places - round::<1>(size, k), ring))
}

// N and Z of the result; every position costs 2 clocks.
fn shift_answer(size: Size, k: Positions, res: u32, x: bool, v: bool, c: bool) -> Answer
    ensures { result ≡ shift_answer size k.count res x v c }
{
    let flags = result_flags(size, res, x, v, c);
    let clocks = size.figure(6, 8) + 2 * k.count;
    Answer::accepted(res, flags, clocks)
}

// A shift by 0 returns the value as it was handed in, and clears C.
fn shifted(size: Size, k: Positions, value: u32, h: Held, v: bool) -> Answer
    ensures { result ≡ shifted size k.count value h v }
{
    if k.count == 0 {
        shift_answer(size, k, value, h.out, v, false)
    } else {
        shift_answer(size, k, h.value, h.out, v, h.out)
    }
}

// ASL Dx,Dy and ASL #<data>,Dy
#[tactic(auto, using(crate::proofs::Turns::asl_turns), unfolding(crate::specs::Shifts::shift_of))]
pub fn exec_asl(size: Size, shift: u32, value: u32, flags: Flags) -> Answer
    ensures { result ≡ shift_of ShiftOp.Asl size shift value flags }
{
    let k = Positions::of(shift);
    let h = lsl(size, k, value, flags.x);
    let v = asl_overflow(size, k.count, value);
    shifted(size, k, value, h, v)
}

// ASR Dx,Dy and ASR #<data>,Dy. (ASR, LSL and LSR differ in the one call: a parameter for it, with what it promises, is
// longer than they are.)
#[tactic(auto, unfolding(crate::specs::Shifts::shift_of))]
pub fn exec_asr(size: Size, shift: u32, value: u32, flags: Flags) -> Answer
    ensures { result ≡ shift_of ShiftOp.Asr size shift value flags }
{
    let k = Positions::of(shift);
    let h = asr(size, k, value, flags.x);
    shifted(size, k, value, h, false)
}

// LSL Dx,Dy and LSL #<data>,Dy
#[tactic(auto, unfolding(crate::specs::Shifts::shift_of))]
pub fn exec_lsl(size: Size, shift: u32, value: u32, flags: Flags) -> Answer
    ensures { result ≡ shift_of ShiftOp.Lsl size shift value flags }
{
    let k = Positions::of(shift);
    let h = lsl(size, k, value, flags.x);
    shifted(size, k, value, h, false)
}

// LSR Dx,Dy and LSR #<data>,Dy
#[tactic(auto, unfolding(crate::specs::Shifts::shift_of))]
pub fn exec_lsr(size: Size, shift: u32, value: u32, flags: Flags) -> Answer
    ensures { result ≡ shift_of ShiftOp.Lsr size shift value flags }
{
    let k = Positions::of(shift);
    let h = lsr(size, k, value, flags.x);
    shifted(size, k, value, h, false)
}

// Of ROL and ROR C is the last bit out, by 0 clear; X is kept.
fn rotated(size: Size, k: Positions, h: Held, x: bool) -> Answer
    ensures { result ≡ rotated size k.count h x }
{
    shift_answer(size, k, h.value, x, false, (k.count != 0) & h.out)
}

// ROL Dx,Dy and ROL #<data>,Dy. X is kept. The last bit out is the one that came in last.
pub fn exec_rol(size: Size, shift: u32, value: u32, flags: Flags) -> Answer
    ensures { result ≡ shift_of ShiftOp.Rol size shift value flags }
{
    let k = Positions::of(shift);
    let value = rotate(size, round::<0>(size, k.count), value);
    let out = value % 2 == 1;
    rotated(size, k, Held { value, out }, flags.x)
}

// ROR Dx,Dy and ROR #<data>,Dy. (Four lines, as ROL: they differ in the way round and in the bit out, the rest is
// `rotated`.)
pub fn exec_ror(size: Size, shift: u32, value: u32, flags: Flags) -> Answer
    ensures { result ≡ shift_of ShiftOp.Ror size shift value flags }
{
    let k = Positions::of(shift);
    let value = rotate(size, size.bits() - round::<0>(size, k.count), value);
    let out = size.top(value);
    rotated(size, k, Held { value, out }, flags.x)
}

// ROXL Dx,Dy and ROXL #<data>,Dy. C and X are the one bit, after whole rounds too (9 on a byte). The
// figure is of the whole count. (One function for ROXL and ROXR, with the refusal in it, takes 13 to 19 instructions more.)
#[tactic(auto, unfolding(crate::specs::Shifts::shift_of))]
pub fn exec_roxl(size: Size, shift: u32, value: u32, flags: Flags) -> Answer
    ensures { result ≡ shift_of ShiftOp.Roxl size shift value flags }
{
    if 63 < shift {
        return Answer::refused(Verdict::BadCount, flags);
    }
    let k = Positions { count: shift };
    let left = roxl(size, shift, value, flags.x);
    shift_answer(size, k, left.value, left.out, false, left.out)
}

// ROXR Dx,Dy and ROXR #<data>,Dy
#[tactic(auto, unfolding(crate::specs::Shifts::shift_of))]
pub fn exec_roxr(size: Size, shift: u32, value: u32, flags: Flags) -> Answer
    ensures { result ≡ shift_of ShiftOp.Roxr size shift value flags }
{
    if 63 < shift {
        return Answer::refused(Verdict::BadCount, flags);
    }
    let k = Positions { count: shift };
    let right = roxr(size, shift, value, flags.x);
    shift_answer(size, k, right.value, right.out, false, right.out)
}
