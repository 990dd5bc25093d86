// The register set. Its arrays are lent to what works on them, so that no step of a run copies them.
ghost use Rattle.std.specs.Prelude.{◌≡◌, slice_index, slice_set};
ghost use Rattle.step.specs.Registers.{merged_of};

use alu::types::{Flags, Size};

// The number of a data register.
#[derive(Clone, Copy)]
pub struct D(pub u8);

// The number of an address register. Neither can stand for the other.
#[derive(Clone, Copy)]
pub struct A(pub u8);

// The registers and the flags. By default all are 0 and clear.
#[derive(Clone, Copy, Default)]
pub struct State {
    pub d: [u32; 8],
    pub a: [u32; 8],
    pub flags: Flags,
}

// A register's value; 0 for a number past the end.
pub(crate) fn read(registers: &[u32], r: u8) -> u32
    ensures { result ≡ slice_index registers.now r }
{
    registers.get(usize::from(r)).copied().unwrap_or(0)
}

// A register is written; nothing for a number past the end. By index, as `store` of lent.
pub(crate) fn write(registers: &mut [u32], r: u8, value: u32)
    ensures { registers.new ≡ slice_set registers.old r value }
{
    let i = usize::from(r);
    if i < registers.len() {
        registers[i] = value;
    }
}

// `old` with its low bits replaced by those of `value`, as many as the size has.
#[tactic(auto, using(crate::proofs::Sound::merged_mask))]
pub(crate) fn merged(size: Size, old: u32, value: u32) -> u32
    ensures { result ≡ merged_of size old value }
{
    let w = size.width();
    let low = w.mask;
    old & !low | value & low
}
