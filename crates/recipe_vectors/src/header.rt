// The header of a vector, a line of 41 hexadecimal fields of eight digits, parted by tabs. The recipe's text stands behind it.
//
//   text length | flags | D0..D7 | A0..A7 | D0..D7 after | flags after | flags promised | steps | clocks | middle |
//   D0..D7 there | flags there | flags promised there
//
// `tools/recipe-vectors` makes vectors. Flags are X 16, N 8, Z 4, V 2, C 1.
ghost use Rattle.std.specs.Prelude.{◌+◌, ◌<◌, ◌≤◌};

use alu::types::Flags;
use step::registers::State;
use text::numbers::hex_of;
use text::types::{NEWLINE, TAB};

const FIELDS: usize = 41;

// Eight digits, and the tab or the line end behind them.
const FIELD: usize = 9;

// A header's bytes.
pub(crate) const LENGTH: usize = FIELDS * FIELD;

// Flags as a packed byte: X alone, and all five.
const ONLY_X: u8 = 0x10;

const ALL: u8 = 0x1f;

// What ought to stand at a place: data registers, flags and which of them count.
#[derive(Clone, Copy)]
pub(crate) struct Told {
    pub data: [u32; 8],
    pub flags: Flags,
    pub promised: Flags,
}

impl Told {
    // Only the promised flags are compared.
    pub(crate) fn same_flags(&self, flags: Flags) -> bool {
        (u8::from(flags) ^ u8::from(self.flags)) & u8::from(self.promised) == 0
    }

    // All five flags are told where all are promised, and none where only X is.
    pub(crate) fn same_codes(&self, codes: Option<Flags>) -> bool {
        let promised = u8::from(self.promised);
        codes.map_or(
            promised == ONLY_X,
            |flags| promised == ALL && self.same_flags(flags),
        )
    }
}

// The state that a recipe is run on, and what it ought to give: steps, clocks and what stands at the end and at the middle, a place
// behind some of the lines. The address registers ought to stay.
#[derive(Clone, Copy)]
pub(crate) struct Vector {
    pub before: State,
    pub end: Told,
    pub steps: u32,
    pub clocks: u64,
    pub middle: u32,
    pub there: Told,
}

// Bytes that are no vector.
#[derive(Clone, Copy)]
pub(crate) struct Malformed;

// The numbers of a header's fields.
#[derive(Clone, Copy)]
pub(crate) struct Header([u32; FIELDS]);

impl TryFrom<&[u8; LENGTH]> for Header {
    type Error = Malformed;

    fn try_from(head: &[u8; LENGTH]) -> Result<Header, Malformed> {
        let mut numbers = [0; FIELDS];
        for (k, number) in numbers.iter_mut().enumerate() {
            let behind = if k + 1 < FIELDS { TAB } else { NEWLINE };
            let at = k * FIELD;
            if head[at + 8] != behind {
                return Err(Malformed);
            }
            *number = hex_of(&head[at..at + 8]).ok_or(Malformed)?;
        }
        Ok(Header(numbers))
    }
}

impl Header {
    // Eight registers.
    fn row(&self, k: usize) -> [u32; 8]
        requires { k + 8 ≤ 41 }
    {
        let mut row = [0; 8];
        row.copy_from_slice(&self.0[k..k + 8]);
        row
    }

    fn flags(&self, k: usize) -> Flags
        requires { k < 41 }
    {
        Flags::from((self.0[k] & 0xff) as u8)
    }

    // Registers, flags and those promised, behind one another.
    fn told(&self, k: usize) -> Told
        requires { k + 10 ≤ 41 }
    {
        Told {
            data: self.row(k),
            flags: self.flags(k + 8),
            promised: self.flags(k + 9),
        }
    }

    pub(crate) fn text_length(&self) -> usize {
        self.0[0] as usize
    }

    pub(crate) fn vector(&self) -> Vector {
        Vector {
            before: State {
                d: self.row(2),
                a: self.row(10),
                flags: self.flags(1),
            },
            end: self.told(18),
            steps: self.0[28],
            clocks: u64::from(self.0[29]),
            middle: self.0[30],
            there: self.told(31),
        }
    }
}
