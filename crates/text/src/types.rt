// What stands between parts of a text.
pub const TAB: u8 = 9;

pub const NEWLINE: u8 = 10;

pub const BLANK: u8 = 32;
