// The Manual's sixteen conditions (document 02, item 5), as a table.
ghost use Rattle.std.specs.Prelude.{◌≡◌, ◌<◌};
ghost use Rattle.alu.specs.Conditions.{condition_number, condition_at, condition_holds};

use super::types::Flags;

// In the Manual's order, which is that of their numbers in an opcode.
#[derive(Clone, Copy, PartialEq, Eq)]
pub enum Condition {
    T,
    F,
    Hi,
    Ls,
    Cc,
    Cs,
    Ne,
    Eq,
    Vc,
    Vs,
    Pl,
    Mi,
    Ge,
    Lt,
    Gt,
    Le,
}

// A word for each condition, with a bit for each setting of N, Z, V and C: bit 8N + 4Z + 2V + C.
const CONDITIONS: [u16; 16] = [
    0xffff, // T
    0x0000, // F
    0x0505, // HI
    0xfafa, // LS
    0x5555, // CC
    0xaaaa, // CS
    0x0f0f, // NE
    0xf0f0, // EQ
    0x3333, // VC
    0xcccc, // VS
    0x00ff, // PL
    0xff00, // MI
    0xcc33, // GE
    0x33cc, // LT
    0x0c03, // GT
    0xf3fc, // LE
];

// The place of a condition in the table.
impl From<Condition> for u8 {
    ghost from_gives = { λ condition number. number ≡ condition_number condition };

    fn from(condition: Condition) -> u8 {
        condition as u8
    }
}

// A number that names no condition.
#[derive(Clone, Copy, PartialEq, Eq)]
pub struct NoSuchCondition {
    pub number: u8,
}

// The condition of a number.
impl TryFrom<u8> for Condition {
    type Error = NoSuchCondition;

    ghost try_from_gives = { λ number found. found ≡ condition_at number };

    fn try_from(number: u8) -> Result<Condition, NoSuchCondition> {
        match number {
            0 => Ok(Condition::T),
            1 => Ok(Condition::F),
            2 => Ok(Condition::Hi),
            3 => Ok(Condition::Ls),
            4 => Ok(Condition::Cc),
            5 => Ok(Condition::Cs),
            6 => Ok(Condition::Ne),
            7 => Ok(Condition::Eq),
            8 => Ok(Condition::Vc),
            9 => Ok(Condition::Vs),
            10 => Ok(Condition::Pl),
            11 => Ok(Condition::Mi),
            12 => Ok(Condition::Ge),
            13 => Ok(Condition::Lt),
            14 => Ok(Condition::Gt),
            15 => Ok(Condition::Le),
            _ => Err(NoSuchCondition { number }),
        }
    }
}

// Whether a condition holds: the bit of its word at the setting of the flags, which is the lower four bits of their byte.
#[tactic(auto, using(crate::proofs::ConditionTable::table_holds))]
pub fn holds(condition: Condition, flags: Flags) -> bool
    ensures { result ≡ condition_holds condition flags }
{
    let number = u8::from(condition);
    let word = CONDITIONS[usize::from(number)];
    let setting = u8::from(flags) % 16;
    (word >> setting) % 2 == 1
}
