// The fields of a row: texts with escapes, and hexadecimal numbers.
ghost use Rattle.std.specs.Prelude.{◌≤◌, length, IfSome};
ghost use Rattle.std.specs.Iterator.{IsFinite};
ghost use Rattle.io.specs.Counts.{IsPrefixLen};

use recipe_calls::TOLD;
use recipes::types::PRINT_MAX;
use text::numbers::hex_digit;
use text::types::{NEWLINE, TAB};

// Room for a text: as much as is printed of any listing.
pub(crate) const ROOM: usize = PRINT_MAX;

// What the bytes of a field read so far end with: a whole byte of the text, a backslash, \x, or \x and a digit.
#[derive(Clone, Copy)]
enum Last {
    Byte(u8),
    Escape,
    Hex,
    High(u8),
}

impl Last {
    // With one more byte of the field; none where that is no text.
    fn next(self, b: u8) -> Option<Last> {
        match self {
            Last::Byte(_) if b == b'\\' => Some(Last::Escape),
            Last::Byte(_) => Some(Last::Byte(b)),
            Last::Escape => escaped(b),
            Last::Hex => hex_digit(b).map(Last::High),
            Last::High(high) => hex_digit(b).map(|low| Last::Byte(high << 4 | low)),
        }
    }
}

fn escaped(letter: u8) -> Option<Last> {
    match letter {
        b't' => Some(Last::Byte(TAB)),
        b'n' => Some(Last::Byte(NEWLINE)),
        b'r' => Some(Last::Byte(b'\r')),
        b'0' => Some(Last::Byte(b'\0')),
        b'\\' => Some(Last::Byte(b'\\')),
        b'x' => Some(Last::Hex),
        _ => None,
    }
}

// The text of a field goes to `out`; answers its length. None where it is no text, or has no room.
pub(crate) fn text_of(field: &[u8], out: &mut [u8]) -> Option<usize>
    ensures { IfSome result (λ n. IsPrefixLen n out.new) }
{
    let mut length = 0;
    let mut last = Last::Byte(0);
    for b in field {
        last = last.next(*b)?;
        if let Last::Byte(byte) = last {
            *out.get_mut(length)? = byte;
            length += 1;
        }
    }
    matches!(last, Last::Byte(_)).then_some(length)
}

// The number below 2^64 whose hexadecimal digits a field has. (`hex_of` of text takes eight digits alone.)
fn number_of(field: &[u8]) -> Option<u64> {
    if field.is_empty() {
        return None;
    }
    field.iter().try_fold(0u64, |value, b| {
        value
            .checked_mul(16)?
            .checked_add(u64::from(hex_digit(*b)?))
    })
}

// The numbers of fields go to `out`; answers how many. None where one is no number, or has no room.
pub(crate) fn numbers_of<'a, I: Iterator<Item = &'a [u8]> + Drop>(
    fields: I,
    out: &mut [u64],
) -> Option<usize>
    requires can { I.can_next fields }
    requires ends { IsFinite (I.remaining fields) }
{
    let mut count = 0;
    for field in fields {
        *out.get_mut(count)? = number_of(field)?;
        count += 1;
    }
    Some(count)
}

pub(crate) fn byte(n: u64) -> u8 {
    (n & 0xff) as u8
}

pub(crate) fn long(n: u64) -> u32 {
    (n & 0xffff_ffff) as u32
}

// What is told, as a row has its first numbers; the others are 0.
pub(crate) fn told_of(numbers: &[u64]) -> [u64; TOLD]
    requires { length numbers.now ≤ 8 }
{
    let mut told = [0; TOLD];
    told[..numbers.len()].copy_from_slice(numbers);
    told
}
