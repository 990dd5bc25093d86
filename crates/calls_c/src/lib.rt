// `alu_call` of calls for C and Rust to link; bindings/c/gromavelush.h declares it. It hands its arguments on, and promises word for word what that
// of calls promises. It stands in a crate of its own because a static library can't be used by another crate.
#![tactic(auto)]

ghost use Rattle.std.specs.Prelude.{◌≡◌};
ghost use Rattle.calls.specs.Packed.{call_of};

#[unsafe(no_mangle)]
pub extern "C" fn alu_call(op: u8, size: u8, src: u32, dst: u32, ccr: u8) -> u64
    ensures { result ≡ call_of op size src dst ccr }
{
    calls::alu_call(op, size, src, dst, ccr)
}
