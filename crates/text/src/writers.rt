// Writing into a lent slice. A writer goes on from where it stands; what has no room is left off.
// Not by `write!`: std tells what that has written on `Ok` alone, and promises no `Ok`.
ghost use Rattle.std.specs.Prelude.{◌≡◌, [], ◌∷◌};
ghost use Rattle.text.specs.Text.{decimal_of, hex_of};
ghost use Rattle.text.specs.Wrote.{wrote};

use super::numbers::hex;

// A slice, and the next place to write at.
#[derive(Drop)]
pub struct Writer<'a> {
    pub out: &'a mut [u8],
    pub at: usize,
}

impl<'a> Writer<'a> {
    pub fn byte(&mut self, b: u8)
        ensures { self.new ≡ wrote self.old (b ∷ []) }
    {
        if self.at < self.out.len() {
            self.out[self.at] = b;
            self.at += 1;
        }
    }

    // Byte by byte: `copy_from_slice` asks C for `memmove`, and printing a step takes a tenth more instructions.
    pub fn bytes(&mut self, text: &[u8])
        ensures { self.new ≡ wrote self.old text.now }
    {
        for b in text {
            self.byte(*b);
        }
    }

    pub fn decimal(&mut self, n: u64)
        ensures { self.new ≡ wrote self.old (decimal_of n) }
    {
        let mut digits = [0u8; 20];
        let k = io::decimal(n, &mut digits);
        self.bytes(&digits[..k]);
    }

    // A byte and a number behind it: a field after a tab, a register after its letter, a small number after `#`.
    pub fn number(&mut self, mark: u8, n: u64)
        ensures { self.new ≡ wrote self.old (mark ∷ decimal_of n) }
    {
        self.byte(mark);
        self.decimal(n);
    }

    pub fn hex(&mut self, value: u32)
        ensures { self.new ≡ wrote self.old (hex_of value) }
    {
        self.bytes(&hex(value));
    }
}
