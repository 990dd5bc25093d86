// The integer arithmetic of registers, on values and flags: integer_arith.rs of the crate m68k, in its
// order. In a contract a name is a definition of specs/, not a function here. Size, source, destination and
// flags come one by one, as the crate's own functions take them: both texts can be read side by side.
//
// Bits of an operand above its size do not count, but: an address register is used whole, and so is the
// source of ADDQ and SUBQ on one; EXT word keeps the upper 16 bits; CMP, CMPA and CHK hand the
// destination back as it came.
ghost use Rattle.std.specs.Prelude.{◌≡◌, ℕ, ◌-◌, ◌^◌, ◌<◌, ◌≤◌, false, eqb};
ghost use Rattle.alu.specs.declared.types.Size.{Size};
ghost use Rattle.alu.specs.declared.types.Check.{Check};
ghost use Rattle.alu.specs.Bits.{bits_of, top, raised, extended, width_of};
ghost use Rattle.alu.specs.ConditionCodes.{logic_flags, keep_z, keep_x};
ghost use Rattle.alu.specs.Answers.{accepted, refigured, unless_byte, chk_figure, class_of, only_word};
ghost use Rattle.alu.specs.Arith.{sum, difference, address_source, ext_result, check_of};
ghost use Rattle.alu.specs.Arith.{add_of, adda_of, addq_of, addq_address_of, addx_of, sub_of, suba_of, subq_of, subq_address_of, subx_of};
ghost use Rattle.alu.specs.Arith.{cmp_of, cmpa_of, clr_of, neg_of, negx_of, not_of, ext_of, chk_of};
ghost use Rattle.alu.specs.Places.{summed, added, subtracted};

use super::types::{
    Answer, Check, Checked, Flags, Size, Verdict, Width, result_flags, width_flags,
};

// A result and its flags.
#[derive(Clone, Copy)]
struct Sum {
    result: u32,
    flags: Flags,
}

impl Sum {
    // The X forms clear Z for a nonzero result and otherwise keep it.
    fn keep_z(self, old: Flags) -> Sum
        ensures { result ≡ record { result = self.result; flags = keep_z old self.flags } }
    {
        Sum {
            flags: Flags {
                z: old.z & self.flags.z,
                ..self.flags
            },
            ..self
        }
    }

    fn answer(self, clocks: u32) -> Answer
        ensures { result ≡ accepted self.result self.flags clocks }
    {
        Answer::accepted(self.result, self.flags, clocks)
    }
}

// The flags of a sum or a difference: V is the top bit of `overflow`, X = C.
#[tactic(auto, using(crate::proofs::Bitwise::top_weight))]
fn sum_of(w: Width, res: u32, overflow: u32, c: bool) -> Sum
    ensures { (n : ℕ) → w ≡ width_of n → res < 2 ^ n → result ≡ summed n res (top n overflow) c }
{
    let v = overflow & w.top != 0;
    Sum {
        result: res,
        flags: width_flags(w, res, c, v, c),
    }
}

// dst + src + x in the size's bits. V: both operands have the one sign and the result the other. C: the whole sum has
// more bits.
fn add(size: Size, src: u32, dst: u32, x: bool) -> Sum
    ensures { result ≡ added (bits_of size) src dst x }
{
    let w = size.width();
    let mask = w.mask;
    let s = src & mask;
    let d = dst & mask;
    let whole = u64::from(d) + u64::from(s) + u64::from(x);
    let long = (whole % 0x1_0000_0000) as u32;
    let result = long & mask;
    let overflow = (s ^ result) & (d ^ result);
    let carry = u64::from(mask) < whole;
    sum_of(w, result, overflow, carry)
}

// dst - src - x in the size's bits; 2^32 keeps it from going below 0. It is the addition src + result = dst, so V is as
// above with result and dst exchanged. C: a borrow. (With `add` it has the masks alone in common: result, V and C
// are other formulas.)
fn subtract(size: Size, src: u32, dst: u32, x: bool) -> Sum
    ensures { result ≡ subtracted (bits_of size) src dst x }
{
    let w = size.width();
    let mask = w.mask;
    let s = src & mask;
    let d = dst & mask;
    let less = u64::from(s) + u64::from(x);
    let whole = 0x1_0000_0000 + u64::from(d) - less;
    let long = (whole % 0x1_0000_0000) as u32;
    let result = long & mask;
    let overflow = (s ^ d) & (result ^ d);
    let borrow = u64::from(d) < less;
    sum_of(w, result, overflow, borrow)
}

// The signed number in the size's bits, raised by half of 2 to their number so that it is not below 0.
#[tactic(auto, unfolding(crate::specs::Bits::raised))]
fn raised(size: Size, x: u32) -> u32
    ensures { result ≡ raised (bits_of size) x }
{
    size.masked(u64::from(x) + size.half())
}

// The low bits of x, as many as `from` has, sign-extended to as many as `to` has: the signed casts of
// ADDA, SUBA, CMPA and EXT. (CHK compares by `raised`.) 2^32 keeps the number from going below 0.
fn extend(from: Size, to: Size, x: u32) -> u32
    requires { bits_of from ≤ bits_of to }
    ensures { result ≡ extended (bits_of from) (bits_of to) x }
{
    to.masked(0x1_0000_0000 + u64::from(raised(from, x)) - from.half())
}

// What ADDA, SUBA and CMPA make of their source: a word is sign-extended, a long stays.
fn address_source(size: Size, src: u32) -> u32
    ensures { result ≡ address_source size src }
{
    extend(size, Size::Long, src)
}

// The answer, or the refusal of an operation that has no byte form.
// Three arms: with `size == Size::Byte`, or one arm for Word and Long, a mixed step takes 62.4 instructions and not
// 60.0, both counted before any proof.
fn unless_byte(size: Size, flags: Flags, answer: Answer) -> Answer
    ensures { result ≡ unless_byte size flags answer }
{
    match size {
        Size::Byte => Answer::refused(Verdict::NoSuchSize, flags),
        Size::Word => answer,
        Size::Long => answer,
    }
}

// The answer with another clock figure.
fn refigured(answer: Answer, clocks: u32) -> Answer
    ensures { result ≡ refigured answer clocks }
{
    Answer { clocks, ..answer }
}

// ADD <ea>,Dn
pub fn exec_add(size: Size, src: u32, dst: u32, flags: Flags) -> Answer
    ensures { result ≡ add_of size src dst flags }
{
    add(size, src, dst, false).answer(4)
}

// ADDA <ea>,An. No flag is touched. (ADDA, SUBA, ADDQ and SUBQ on An differ in the sum: with one function for the
// rest of the four, ADDA and SUBA take 10 instructions more.)
#[tactic(auto, using(crate::proofs::Whole::wrapping_sum))]
pub fn exec_adda(size: Size, src: u32, dst: u32, flags: Flags) -> Answer
    ensures { result ≡ adda_of size src dst flags }
{
    let result = dst.wrapping_add(address_source(size, src));
    unless_byte(size, flags, Answer::accepted(result, flags, 8))
}

// ADDQ #<data>,Dn
pub fn exec_addq(size: Size, src: u32, dst: u32, flags: Flags) -> Answer
    ensures { result ≡ addq_of size src dst flags }
{
    refigured(exec_add(size, src, dst, flags), size.figure(4, 8))
}

// ADDQ #<data>,An: m68k's exec_addq with AddressDirect. All 32 bits are used at either size; no
// flag is touched.
#[tactic(auto, using(crate::proofs::Whole::wrapping_sum))]
pub fn exec_addq_address(size: Size, src: u32, dst: u32, flags: Flags) -> Answer
    ensures { result ≡ addq_address_of size src dst flags }
{
    let result = dst.wrapping_add(src);
    unless_byte(size, flags, Answer::accepted(result, flags, 8))
}

// ADDX Dy,Dx
pub fn exec_addx(size: Size, src: u32, dst: u32, flags: Flags) -> Answer
    ensures { result ≡ addx_of size src dst flags }
{
    add(size, src, dst, flags.x).keep_z(flags).answer(4)
}

// SUB <ea>,Dn
pub fn exec_sub(size: Size, src: u32, dst: u32, flags: Flags) -> Answer
    ensures { result ≡ sub_of size src dst flags }
{
    subtract(size, src, dst, false).answer(4)
}

// SUBA <ea>,An
#[tactic(auto, using(crate::proofs::Whole::wrapping_difference))]
pub fn exec_suba(size: Size, src: u32, dst: u32, flags: Flags) -> Answer
    ensures { result ≡ suba_of size src dst flags }
{
    let result = dst.wrapping_sub(address_source(size, src));
    unless_byte(size, flags, Answer::accepted(result, flags, 8))
}

// SUBQ #<data>,Dn
pub fn exec_subq(size: Size, src: u32, dst: u32, flags: Flags) -> Answer
    ensures { result ≡ subq_of size src dst flags }
{
    refigured(exec_sub(size, src, dst, flags), size.figure(4, 8))
}

// SUBQ #<data>,An
#[tactic(auto, using(crate::proofs::Whole::wrapping_difference))]
pub fn exec_subq_address(size: Size, src: u32, dst: u32, flags: Flags) -> Answer
    ensures { result ≡ subq_address_of size src dst flags }
{
    let result = dst.wrapping_sub(src);
    unless_byte(size, flags, Answer::accepted(result, flags, 8))
}

// SUBX Dy,Dx
pub fn exec_subx(size: Size, src: u32, dst: u32, flags: Flags) -> Answer
    ensures { result ≡ subx_of size src dst flags }
{
    subtract(size, src, dst, flags.x).keep_z(flags).answer(4)
}

// CMP <ea>,Dn. The destination comes back as it was handed in.
pub fn exec_cmp(size: Size, src: u32, dst: u32, flags: Flags) -> Answer
    ensures { result ≡ cmp_of size src dst flags }
{
    let sum = subtract(size, src, dst, false);
    let new = Flags {
        x: flags.x,
        ..sum.flags
    };
    Answer::accepted(dst, new, 4)
}

// CMPA <ea>,An: the flags of a long CMP.
pub fn exec_cmpa(size: Size, src: u32, dst: u32, flags: Flags) -> Answer
    ensures { result ≡ cmpa_of size src dst flags }
{
    let source = address_source(size, src);
    let long = exec_cmp(Size::Long, source, dst, flags);
    unless_byte(size, flags, refigured(long, 6))
}

// CLR Dn
pub fn exec_clr(size: Size, flags: Flags) -> Answer
    ensures { result ≡ clr_of size flags }
{
    Answer::accepted(0, set_logic_flags(size, 0, flags), size.figure(4, 6))
}

// NEG Dn: 0 - dst.
pub fn exec_neg(size: Size, dst: u32, flags: Flags) -> Answer
    ensures { result ≡ neg_of size dst flags }
{
    subtract(size, dst, 0, false).answer(size.figure(4, 6))
}

// NEGX Dn: 0 - dst - X.
pub fn exec_negx(size: Size, dst: u32, flags: Flags) -> Answer
    ensures { result ≡ negx_of size dst flags }
{
    subtract(size, dst, 0, flags.x)
        .keep_z(flags)
        .answer(size.figure(4, 6))
}

// NOT Dn
pub fn exec_not(size: Size, dst: u32, flags: Flags) -> Answer
    ensures { result ≡ not_of size dst flags }
{
    let result = size.masked(u64::from(!dst));
    let new = set_logic_flags(size, result, flags);
    Answer::accepted(result, new, size.figure(4, 6))
}

// What EXT makes of the register: byte to word, the upper 16 bits kept; word to long.
#[tactic(auto, using(crate::proofs::Extension::extended_lt))]
fn ext_result(size: Size, dst: u32) -> u32
    ensures { result ≡ ext_result size dst }
{
    match size {
        Size::Byte => dst,
        Size::Word => dst / 0x1_0000 * 0x1_0000 + extend(Size::Byte, Size::Word, dst),
        Size::Long => extend(Size::Word, Size::Long, dst),
    }
}

// EXT Dn
pub fn exec_ext(size: Size, dst: u32, flags: Flags) -> Answer
    ensures { result ≡ ext_of size dst flags }
{
    let result = ext_result(size, dst);
    let new = set_logic_flags(size, result, flags);
    unless_byte(size, flags, Answer::accepted(result, new, 4))
}

// N and Z of the result; V and C are cleared, X is kept. (m68k has it in data_movement.rs.)
#[tactic(auto, unfolding(crate::specs::ConditionCodes::logic_flags))]
pub fn set_logic_flags(size: Size, res: u32, flags: Flags) -> Flags
    ensures { result ≡ logic_flags (bits_of size) res flags }
{
    result_flags(size, res, flags.x, false, false)
}

// Whether the word in Dn is not below 0 and not above the bound. Below 8000 hex a word is its own signed number; a value
// that is not above such a bound is one too.
#[tactic(auto, using(crate::proofs::Checks::pass_low))]
fn chk_passes(bound: u32, value: u32) -> bool
    ensures { result ≡ eqb (class_of (check_of 16 bound value)) 0 }
{
    let b = bound % 0x1_0000;
    let v = value % 0x1_0000;
    (v <= b) & (b < 0x8000)
}

// What CHK answers then.
#[tactic(auto, using(crate::proofs::Checks::pass_sign))]
fn chk_passed(value: u32, flags: Flags) -> Answer
    ensures { (bound : ℕ) → check_of 16 bound value ≡ Check.Pass → result ≡ (chk_of Size.Word bound value flags).answer }
{
    let new = Flags {
        n: false,
        z: false,
        v: false,
        c: false,
        ..flags
    };
    Answer::accepted(value, new, 10)
}

// CHK's class. b and v are raised by 8000 hex, so that signed numbers compare as unsigned ones: below 0
// is v < 8000, and value - bound is less than any word where v + 8000 < b. All comparisons stand before
// the choice; to return at each of them is slower.
fn check(bound: u32, value: u32) -> Check
    ensures { result ≡ check_of 16 bound value }
{
    let b = raised(Size::Word, bound);
    let v = raised(Size::Word, value);
    let below = v < 0x8000;
    let far = v + 0x8000 < b;
    if b < v {
        Check::Over
    } else if below & far {
        Check::Short
    } else if below {
        Check::Below
    } else {
        Check::Pass
    }
}

// CHK's figure; of a trap it is the internal clocks alone.
fn chk_figure(check: Check) -> u32
    ensures { result ≡ chk_figure check }
{
    match check {
        Check::Pass => 10,
        Check::Over => 8,
        Check::Short => 8,
        Check::Below => 10,
    }
}

// The answer, or the refusal: CHK has the word form alone. (`only_long` of bit_manip.rt is no twin: a refusal here
// has a class too.)
fn only_word(size: Size, flags: Flags, checked: Checked) -> Checked
    ensures { result ≡ only_word size flags checked }
{
    if size == Size::Word {
        checked
    } else {
        Checked {
            check: Check::Pass,
            answer: Answer::refused(Verdict::NoSuchSize, flags),
        }
    }
}

// What CHK of words answers, whatever its class; asked where it doesn't pass. N is the value's sign.
#[tactic(auto, using(crate::proofs::Integers::signed_sign))]
fn chk_trap(bound: u32, value: u32, flags: Flags) -> Checked
    ensures { result ≡ chk_of Size.Word bound value flags }
{
    let class = check(bound, value);
    let new = Flags {
        n: Size::Word.top(value),
        z: false,
        v: false,
        c: false,
        ..flags
    };
    Checked {
        check: class,
        answer: Answer::accepted(value, new, chk_figure(class)),
    }
}

// CHK <ea>,Dn: whether the word in Dn is below 0 or above the bound. N is the value's sign; the value comes
// back as it was handed in.
pub fn exec_chk(size: Size, bound: u32, value: u32, flags: Flags) -> Checked
    ensures { result ≡ chk_of size bound value flags }
{
    let checked = if chk_passes(bound, value) {
        Checked {
            check: Check::Pass,
            answer: chk_passed(value, flags),
        }
    } else {
        chk_trap(bound, value, flags)
    };
    only_word(size, flags, checked)
}
