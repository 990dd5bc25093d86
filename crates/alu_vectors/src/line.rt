// One line of a file: nine hexadecimal fields of fixed width, parted by tabs.
//
//   op 2 | size 1 | source 8 | destination 8 | flags before 2 | result 8 | flags 2 | figure 2 | class 1
//
// The figure FF stands for none: the crate returns no figure of ADDX and SUBX. The class is CHK's, 0 of
// the others; 1 stands for Over or Short, which the crate doesn't tell apart.
use text::numbers::worth;

// A line's bytes, with its line end.
pub(crate) const LENGTH: usize = 43;

// The figure that stands for none.
const NO_FIGURE: u8 = 0xff;

// What is asked of an operation, and what the crate answered.
#[derive(Clone, Copy)]
pub(crate) struct Line {
    op: u8,
    size: u8,
    src: u32,
    dst: u32,
    ccr: u8,
    result: u32,
    flags: u8,
    figure: Option<u8>,
    class: u8,
}

// The number of a field. A byte that is no hexadecimal digit counts as 0, and the line then fails. (`hex_of` of text takes eight digits alone.)
fn number(field: &[u8]) -> u32 {
    field
        .iter()
        .fold(0, |value: u32, b| value << 4 | u32::from(worth(*b)))
}

// The number of a field of one or two digits.
fn byte(field: &[u8]) -> u8 {
    (number(field) & 0xff) as u8
}

impl From<&[u8; LENGTH]> for Line {
    fn from(line: &[u8; LENGTH]) -> Line {
        Line {
            op: byte(&line[0..2]),
            size: byte(&line[3..4]),
            src: number(&line[5..13]),
            dst: number(&line[14..22]),
            ccr: byte(&line[23..25]),
            result: number(&line[26..34]),
            flags: byte(&line[35..37]),
            figure: Some(byte(&line[38..40])).filter(|figure| *figure != NO_FIGURE),
            class: byte(&line[41..42]),
        }
    }
}

impl Line {
    // What the library answers.
    pub(crate) fn answer(&self) -> u64 {
        calls::alu_call(self.op, self.size, self.src, self.dst, self.ccr)
    }

    // Whether that is the line's result, flags, figure and class, and no refusal.
    pub(crate) fn agrees(&self, got: u64) -> bool {
        let class = got >> 52;
        let refusal = got >> 48 & 0xf;
        let figure = got >> 40 & 0xff;
        let flags = got >> 32 & 0xff;
        let result = got & 0xffff_ffff;
        let same_class = class == u64::from(self.class) || class == 2 && self.class == 1;
        let same_figure = self.figure.is_none_or(|wanted| figure == u64::from(wanted));
        refusal == 0
            && same_class
            && same_figure
            && flags == u64::from(self.flags)
            && result == u64::from(self.result)
    }
}
