// BTST, BSET, BCLR and BCHG of a data register, on values and flags: bit_manip.rs of the crate m68k, in
// its order. They have the long form alone. In a contract a name is a definition of specs/, not a function here.
ghost use Rattle.std.specs.Prelude.{◌≡◌, ℕ, ◌<◌, ◌^◌, cond, ltb};
ghost use Rattle.alu.specs.Answers.{accepted, only_long};
ghost use Rattle.alu.specs.Bitops.{bit_flags, bit_result, bit_figure, bitop_of};

use super::types::{Answer, Flags, Size, Verdict};

#[derive(Clone, Copy, PartialEq, Eq)]
pub enum BitOp {
    Btst,
    Bset,
    Bclr,
    Bchg,
}

// What bit k weighs.
fn weight(k: u32) -> u32
    requires { k < 32 }
    ensures { result ≡ 2 ^ k }
{
    1 << k
}

// The figure of BSET and BCHG: 8 in the upper half of the register.
fn upper_figure(k: u32) -> u32
    ensures { result ≡ cond (ltb k 16) 6 8 }
{
    if k < 16 { 6 } else { 8 }
}

// Z tells whether the bit of weight w was clear; no other flag is touched.
#[tactic(auto, using(crate::proofs::Bitwise::clear_weight))]
fn bit_answer(w: u32, value: u32, res: u32, flags: Flags, clocks: u32) -> Answer
    ensures { (k : ℕ) → w ≡ 2 ^ k → result ≡ accepted res (bit_flags k value flags) clocks }
{
    let new = Flags {
        z: value & w == 0,
        ..flags
    };
    Answer::accepted(res, new, clocks)
}

// The answer, or the refusal: there is no byte and no word form. (CHK's `only_word` is no twin: it refuses with a class too.)
fn only_long(size: Size, flags: Flags, answer: Answer) -> Answer
    ensures { result ≡ only_long size flags answer }
{
    if size == Size::Long {
        answer
    } else {
        Answer::refused(Verdict::NoSuchSize, flags)
    }
}

// The value that an operation leaves, w being the bit's weight, and its figure.
#[tactic(auto, using(crate::proofs::Bitops::set_bit, crate::proofs::Bitops::change_bit))]
fn bit_result(op: BitOp, w: u32, value: u32) -> u32
    ensures { (k : ℕ) → k < 32 → w ≡ 2 ^ k → result ≡ bit_result op k value }
{
    match op {
        BitOp::Btst => value,
        BitOp::Bset => value | w,
        BitOp::Bclr => value & !w,
        BitOp::Bchg => value ^ w,
    }
}

fn bit_figure(op: BitOp, k: u32) -> u32
    ensures { result ≡ bit_figure op k }
{
    match op {
        BitOp::Btst => 6,
        BitOp::Bclr => 10,
        BitOp::Bset => upper_figure(k),
        BitOp::Bchg => upper_figure(k),
    }
}

// Any of the four that follow under m68k's names. The number of the bit is taken mod 32.
pub fn bit_operation(op: BitOp, size: Size, number: u32, value: u32, flags: Flags) -> Answer
    ensures { result ≡ bitop_of op size number value flags }
{
    let k = number % 32;
    let w = weight(k);
    let result = bit_result(op, w, value);
    let answer = bit_answer(w, value, result, flags, bit_figure(op, k));
    only_long(size, flags, answer)
}

// BTST Dn,Dn and BTST #<data>,Dn: the value comes back as it was handed in.
pub fn exec_btst(size: Size, number: u32, value: u32, flags: Flags) -> Answer
    ensures { result ≡ bitop_of BitOp.Btst size number value flags }
{
    bit_operation(BitOp::Btst, size, number, value, flags)
}

// BSET: the bit is set.
pub fn exec_bset(size: Size, number: u32, value: u32, flags: Flags) -> Answer
    ensures { result ≡ bitop_of BitOp.Bset size number value flags }
{
    bit_operation(BitOp::Bset, size, number, value, flags)
}

// BCLR: the bit is cleared.
pub fn exec_bclr(size: Size, number: u32, value: u32, flags: Flags) -> Answer
    ensures { result ≡ bitop_of BitOp.Bclr size number value flags }
{
    bit_operation(BitOp::Bclr, size, number, value, flags)
}

// BCHG: the bit is turned over.
pub fn exec_bchg(size: Size, number: u32, value: u32, flags: Flags) -> Answer
    ensures { result ≡ bitop_of BitOp.Bchg size number value flags }
{
    bit_operation(BitOp::Bchg, size, number, value, flags)
}
