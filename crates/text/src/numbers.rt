// Digits, and numbers in decimal and in hexadecimal, both ways. A number has one writing: a field is read as the number
// whose writing it is, so that no other field gives it.
ghost use Rattle.std.specs.Prelude.{◌≡◌, ◌%◌, ◌^◌};
ghost use Rattle.text.specs.Text.{byte_digit, hex_digit, digit_of, worth_of, value_of, decimal_read, hex_byte, hex_of, hex_read};

// A byte as a decimal digit.
pub fn digit(b: u8) -> Option<u8>
    ensures { result ≡ byte_digit b }
{
    match b {
        b'0'..=b'9' => Some(b - b'0'),
        _ => None,
    }
}

// A byte as a hexadecimal digit, 0 to 9 or A to F.
#[tactic(auto, unfolding(crate::specs::Text::hex_digit))]
pub fn hex_digit(b: u8) -> Option<u8>
    ensures { result ≡ hex_digit b }
{
    match b {
        b'A'..=b'F' => Some(b - b'A' + 10),
        _ => digit(b),
    }
}

// A field that is one decimal digit.
#[tactic(auto, unfolding(crate::specs::Text::digit_of))]
pub fn digit_of(field: &[u8]) -> Option<u8>
    ensures { result ≡ digit_of field.now }
{
    match field {
        [b] => digit(*b),
        _ => None,
    }
}

// What a byte counts as a digit; 0 if it is none.
// No `Option`: a field with such a byte is not the writing of its value, which `decimal_of` and `hex_of` ask.
pub fn worth(b: u8) -> u8
    ensures { result ≡ worth_of b }
{
    hex_digit(b).unwrap_or(0)
}

// The value of a field's digits in a base, as far as 64 bits hold it.
fn value_in(base: u64, field: &[u8]) -> u64
    ensures { result ≡ value_of base field.now % 2 ^ 64 }
{
    field.iter().fold(0, |value: u64, b| {
        value.wrapping_mul(base).wrapping_add(u64::from(worth(*b)))
    })
}

// The number below 2^64 whose decimal writing the field is.
pub fn decimal_of(field: &[u8]) -> Option<u64>
    ensures { result ≡ decimal_read field.now }
{
    let value = value_in(10, field);
    let mut digits = [0u8; 20];
    let k = io::decimal(value, &mut digits);
    (field == &digits[..k]).then_some(value)
}

// A digit as a byte.
fn hex_byte(d: u32) -> u8
    ensures { result ≡ hex_byte (d % 16) }
{
    let d = (d % 16) as u8;
    if d < 10 { b'0' + d } else { b'A' - 10 + d }
}

// Eight digits.
pub fn hex(value: u32) -> [u8; 8]
    ensures { result ≡ hex_of value }
{
    std::array::from_fn(|k| hex_byte(value >> (28 - 4 * k)))
}

// The number whose eight digits the field is.
// Apart from `decimal_of`: eight digits in an array, there as many as the number has; a closure that writes would make neither shorter.
pub fn hex_of(field: &[u8]) -> Option<u32>
    ensures { result ≡ hex_read field.now }
{
    let value = u32::try_from(value_in(16, field)).ok()?;
    (field == hex(value).as_slice()).then_some(value)
}
