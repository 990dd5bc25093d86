// Sizes, flags, verdicts and answers, and what more than one module takes. In a contract a name is a definition
// of specs/, not a function here.
ghost use Rattle.std.specs.Prelude.{◌≡◌, ℕ, ◌-◌, ◌*◌, ◌^◌, ◌<◌, ◌≤◌};
ghost use Rattle.alu.specs.Bits.{bits_of, low, top, digit, width_of};
ghost use Rattle.alu.specs.ConditionCodes.{result_flags, flags_of, ccr_of};
ghost use Rattle.alu.specs.Answers.{number_of, class_of, accepted, refused, figure};

// The size of an operation: 8, 16 or 32 bits.
#[derive(Clone, Copy, PartialEq, Eq)]
pub enum Size {
    Byte,
    Word,
    Long,
}

// The condition codes: extend, negative, zero, overflow, carry. By default all are clear.
#[derive(Clone, Copy, Default, PartialEq, Eq)]
pub struct Flags {
    pub x: bool,
    pub n: bool,
    pub z: bool,
    pub v: bool,
    pub c: bool,
}

// Whether an operation was accepted, with document 01's number of a refusal, 0 for none.
// No `Result`: document 01 gives a refused operation the result 0, the figure 0, the incoming flags and, for CHK, Pass.
#[derive(Clone, Copy, PartialEq, Eq)]
pub enum Verdict {
    Accepted = 0,
    BadCount = 1,
    NoSuchSize = 2,
}

// What an operation hands back. `clocks` is document 01's clock figure.
#[derive(Clone, Copy, PartialEq, Eq)]
pub struct Answer {
    pub verdict: Verdict,
    pub result: u32,
    pub flags: Flags,
    pub clocks: u32,
}

// CHK's class. Over: the value is above the bound. Below: it is below 0. Short: it is below 0 too, and
// value - bound overflows, which the crate m68k traps on the short path of Over. These three are traps. The numbers are ours.
#[derive(Clone, Copy, PartialEq, Eq)]
pub enum Check {
    Pass = 0,
    Over = 1,
    Short = 2,
    Below = 3,
}

// What CHK hands back.
#[derive(Clone, Copy, PartialEq, Eq)]
pub struct Checked {
    pub check: Check,
    pub answer: Answer,
}

impl From<Verdict> for u32 {
    ghost from_gives = { λ verdict number. number ≡ number_of verdict };

    fn from(verdict: Verdict) -> u32 {
        verdict as u32
    }
}

impl From<Check> for u32 {
    ghost from_gives = { λ check class. class ≡ class_of check };

    fn from(check: Check) -> u32 {
        check as u32
    }
}

// A size in numbers: all its bits, and the highest.
#[derive(Clone, Copy, PartialEq, Eq)]
pub struct Width {
    pub mask: u32,
    pub top: u32,
}

impl Size {
    pub(crate) fn bits(self) -> u32
        ensures { (result ≡ bits_of self) × (0 < result) × (result ≤ 32) }
    {
        match self {
            Size::Byte => 8,
            Size::Word => 16,
            Size::Long => 32,
        }
    }

    // 2 to the number of bits, and half of that: the weight of the top bit. `1 << self.bits()` takes 3 instructions more
    // of ASR, and the width's top for `half` 11 more of ADDA.
    pub(crate) fn modulus(self) -> u64
        ensures { (result ≡ 2 ^ bits_of self) × (0 < result) × (result ≤ 2 ^ 32) }
    {
        match self {
            Size::Byte => 0x100,
            Size::Word => 0x1_0000,
            Size::Long => 0x1_0000_0000,
        }
    }

    pub(crate) fn half(self) -> u64
        ensures { (result ≡ 2 ^ (bits_of self - 1)) × (result ≤ 2 ^ 31) }
    {
        match self {
            Size::Byte => 0x80,
            Size::Word => 0x8000,
            Size::Long => 0x8000_0000,
        }
    }

    // Its numbers.
    pub fn width(self) -> Width
        ensures { result ≡ width_of (bits_of self) }
    {
        match self {
            Size::Byte => Width {
                mask: 0xff,
                top: 0x80,
            },
            Size::Word => Width {
                mask: 0xffff,
                top: 0x8000,
            },
            Size::Long => Width {
                mask: 0xffff_ffff,
                top: 0x8000_0000,
            },
        }
    }

    // The low bits of a value, as many as the size has.
    pub fn masked(self, x: u64) -> u32
        ensures { result ≡ low (bits_of self) x }
    {
        let long = (x % 0x1_0000_0000) as u32;
        long & self.width().mask
    }

    // The highest bit that the size has.
    #[tactic(auto, using(crate::proofs::Bitwise::top_weight))]
    pub fn top(self, x: u32) -> bool
        ensures { result ≡ top (bits_of self) x }
    {
        x & self.width().top != 0
    }

    // A clock figure: `short` for byte and word, `long` for long.
    pub fn figure(self, short: u32, long: u32) -> u32
        ensures { result ≡ figure self short long }
    {
        match self {
            Size::Byte => short,
            Size::Word => short,
            Size::Long => long,
        }
    }
}

// N and Z of a result that has no bits above the width; X, V and C as given.
pub(crate) fn width_flags(w: Width, res: u32, x: bool, v: bool, c: bool) -> Flags
    ensures { (n : ℕ) → w ≡ width_of n → res < 2 ^ n → result ≡ result_flags n res x v c }
{
    Flags {
        x,
        n: res & w.top != 0,
        z: res == 0,
        v,
        c,
    }
}

// N and Z of the result; X, V and C as given.
pub fn result_flags(size: Size, res: u32, x: bool, v: bool, c: bool) -> Flags
    ensures { result ≡ result_flags (bits_of size) res x v c }
{
    let w = size.width();
    width_flags(w, res & w.mask, x, v, c)
}

// The flags of a packed byte, as the 68000 packs them; its bits above X don't count.
impl From<u8> for Flags {
    ghost from_gives = { λ ccr flags. flags ≡ flags_of ccr };

    fn from(ccr: u8) -> Flags {
        Flags {
            x: ccr / 16 % 2 == 1,
            n: ccr / 8 % 2 == 1,
            z: ccr / 4 % 2 == 1,
            v: ccr / 2 % 2 == 1,
            c: ccr % 2 == 1,
        }
    }
}

// The weight of a flag that is set, else 0.
fn weigh(flag: bool, weight: u8) -> u8
    ensures { (result ≡ digit flag * weight) × (result ≤ weight) }
{
    if flag { weight } else { 0 }
}

// The flags as a packed byte.
impl From<Flags> for u8 {
    ghost from_gives = { λ f ccr. ccr ≡ ccr_of f };

    fn from(f: Flags) -> u8 {
        weigh(f.x, 16) + weigh(f.n, 8) + weigh(f.z, 4) + weigh(f.v, 2) + weigh(f.c, 1)
    }
}

impl Answer {
    // Here and in `refused` the flags go over one by one: a `Flags` that is moved whole becomes one 40-bit number, which the
    // compiler packs and takes apart again at each step.
    pub fn accepted(res: u32, flags: Flags, clocks: u32) -> Answer
        ensures { result ≡ accepted res flags clocks }
    {
        Answer {
            verdict: Verdict::Accepted,
            result: res,
            flags: Flags { ..flags },
            clocks,
        }
    }

    // A refusal: result 0, figure 0, the flags as they came.
    pub fn refused(verdict: Verdict, flags: Flags) -> Answer
        ensures { result ≡ refused verdict flags }
    {
        Answer {
            verdict,
            result: 0,
            flags: Flags { ..flags },
            clocks: 0,
        }
    }
}
