// The static library for C: exports the calls of `tpegloc::for_c`. A byte slice is a pointer and a length in C.
#![tactic(auto)]

ghost use Rattle.std.specs.Prelude.{◌≡◌};
ghost use Rattle.tpegloc.specs.Coded.{checked, restated, Restates};

use tpegloc::for_c;

// How many rows the container in the bytes tells, or 1,000,000 plus the number of the refusal.
#[unsafe(no_mangle)]
pub extern "C" fn check(bytes: &[u8]) -> u32
    ensures { result ≡ checked bytes.now }
{
    for_c::check(bytes)
}

// Sends the rows that the container in the bytes tells into the front of the output: how many bytes, or 1,000,000 plus the number of the refusal.
#[unsafe(no_mangle)]
pub extern "C" fn restate(bytes: &[u8], out: &mut [u8]) -> u32
    ensures answer { result ≡ (restated bytes.now out.old).0 }
    ensures output { out.new ≡ (restated bytes.now out.old).1 }
    ensures best { Restates bytes.now out.old result out.new }
{
    for_c::restate(bytes, out)
}
