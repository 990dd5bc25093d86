// The operations for Rust and C, packed: every argument and the answer are numbers, laid out as
// `specs/Packed.antt` says. A number that names no operation or no size is refused with 2.
#![tactic(auto)]

ghost use Rattle.std.specs.Prelude.{◌≡◌, ◌^◌, ◌<◌, ◌≤◌};
ghost use Rattle.alu.specs.ConditionCodes.{flags_of};
ghost use Rattle.calls.specs.Packed.{size_of, packed, plain, answer_of, call_of};

use alu::bit_manip::{exec_bchg, exec_bclr, exec_bset, exec_btst};
use alu::integer_arith::{
    exec_add, exec_adda, exec_addq, exec_addq_address, exec_addx, exec_chk, exec_clr, exec_cmp,
    exec_cmpa, exec_ext, exec_neg, exec_negx, exec_not, exec_sub, exec_suba, exec_subq,
    exec_subq_address, exec_subx,
};
use alu::shift_rotate::{
    exec_asl, exec_asr, exec_lsl, exec_lsr, exec_rol, exec_ror, exec_roxl, exec_roxr,
};
use alu::types::{Answer, Checked, Flags, Size, Verdict};

// A size by its number, if it names one. (No `TryFrom`: type and trait are of other crates, and the numbers of sizes are
// this crate's.) One `match` with a default of its own: the compiler then sees that a size and its number are the same.
pub fn size_of(number: u8) -> Option<Size>
    ensures { result ≡ size_of number }
{
    match number {
        0 => Some(Size::Byte),
        1 => Some(Size::Word),
        2 => Some(Size::Long),
        _ => None,
    }
}

// The result, then the flags from bit 32, the figure from bit 40, the refusal number from bit 48.
#[tactic(auto, using(alu::proofs::Bounds::number_le))]
fn pack(a: Answer) -> u64
    ensures { (result ≡ packed (plain a)) × (result < 2 ^ 52) }
{
    u64::from(a.result)
        + u64::from(u8::from(a.flags)) * 0x1_0000_0000
        + u64::from(a.clocks % 0x100) * 0x100_0000_0000
        + u64::from(u32::from(a.verdict)) * 0x1_0000_0000_0000
}

// CHK has its class beside the answer: from bit 52.
#[tactic(auto, using(alu::proofs::Bounds::class_le))]
fn pack_checked(checked: Checked) -> u64
    ensures { result ≡ packed checked }
{
    pack(checked.answer) + u64::from(u32::from(checked.check)) * 0x10_0000_0000_0000
}

// The operation of that number, its answer packed. Each arm unpacks and packs by itself: the compiler then leaves out
// what an operation does not need.
#[tactic(auto, unfolding(crate::specs::Packed::operations, crate::specs::Packed::chosen))]
fn answer(op: u8, size: Size, src: u32, dst: u32, ccr: u8) -> u64
    ensures { result ≡ packed (answer_of op size src dst (flags_of ccr)) }
{
    match op {
        0x00 => pack(exec_add(size, src, dst, Flags::from(ccr))),
        0x01 => pack(exec_sub(size, src, dst, Flags::from(ccr))),
        0x02 => pack(exec_cmp(size, src, dst, Flags::from(ccr))),
        0x03 => pack(exec_addx(size, src, dst, Flags::from(ccr))),
        0x04 => pack(exec_subx(size, src, dst, Flags::from(ccr))),
        0x05 => pack(exec_adda(size, src, dst, Flags::from(ccr))),
        0x06 => pack(exec_suba(size, src, dst, Flags::from(ccr))),
        0x07 => pack(exec_cmpa(size, src, dst, Flags::from(ccr))),
        0x08 => pack(exec_addq(size, src, dst, Flags::from(ccr))),
        0x09 => pack(exec_subq(size, src, dst, Flags::from(ccr))),
        0x0a => pack(exec_addq_address(size, src, dst, Flags::from(ccr))),
        0x0b => pack(exec_subq_address(size, src, dst, Flags::from(ccr))),
        0x0c => pack(exec_clr(size, Flags::from(ccr))),
        0x0d => pack(exec_neg(size, dst, Flags::from(ccr))),
        0x0e => pack(exec_negx(size, dst, Flags::from(ccr))),
        0x0f => pack(exec_not(size, dst, Flags::from(ccr))),
        0x10 => pack(exec_ext(size, dst, Flags::from(ccr))),
        0x11 => pack(exec_asl(size, src, dst, Flags::from(ccr))),
        0x12 => pack(exec_asr(size, src, dst, Flags::from(ccr))),
        0x13 => pack(exec_lsl(size, src, dst, Flags::from(ccr))),
        0x14 => pack(exec_lsr(size, src, dst, Flags::from(ccr))),
        0x15 => pack(exec_rol(size, src, dst, Flags::from(ccr))),
        0x16 => pack(exec_ror(size, src, dst, Flags::from(ccr))),
        0x17 => pack(exec_roxl(size, src, dst, Flags::from(ccr))),
        0x18 => pack(exec_roxr(size, src, dst, Flags::from(ccr))),
        0x19 => pack(exec_btst(size, src, dst, Flags::from(ccr))),
        0x1a => pack(exec_bset(size, src, dst, Flags::from(ccr))),
        0x1b => pack(exec_bclr(size, src, dst, Flags::from(ccr))),
        0x1c => pack(exec_bchg(size, src, dst, Flags::from(ccr))),
        0x1d => pack_checked(exec_chk(size, src, dst, Flags::from(ccr))),
        _ => pack(Answer::refused(Verdict::NoSuchSize, Flags::from(ccr))),
    }
}

// Any operation by its number: the table `operations` of specs/Packed. The crate calls_c exports it.
pub fn alu_call(op: u8, size: u8, src: u32, dst: u32, ccr: u8) -> u64
    ensures { result ≡ call_of op size src dst ccr }
{
    let Some(sized) = size_of(size) else {
        return pack(Answer::refused(Verdict::NoSuchSize, Flags::from(ccr)));
    };
    answer(op, sized, src, dst, ccr)
}
