// The calls for C, with a byte slice as a pointer and a length there: the crate tpegloc_c exports them.
ghost use Rattle.std.specs.Prelude.{◌≡◌, ◌<◌, ◌≤◌, IfOk};
ghost use Rattle.tpegloc.specs.Coded.{checked, restated, code, Restates};

use grammar::Refusal;
use reader::Container;
use sender::send;

// What the number of a refusal is added to.
const REFUSED: u32 = 1_000_000;

// C has one number for an answer: a count, which is less than 1,000,000, or that plus the number of the refusal.
fn as_code(answer: Result<usize, u8>) -> u32
    requires { IfOk answer (λ n. n < 1000000) }
    ensures { result ≡ code answer }
{
    answer.map_or_else(|number| REFUSED + u32::from(number), |count| count as u32)
}

// Sends the rows that the container in the bytes tells: how many bytes, or the number of the refusal.
fn send_again(bytes: &[u8], out: &mut [u8]) -> Result<usize, u8>
    ensures answer { restated bytes.now out.old ≡ (code result, out.new) }
    ensures best { Restates bytes.now out.old (code result) out.new }
    ensures short { IfOk result (λ n. n ≤ 65535) }
{
    let container = Container::open(bytes).map_err(|fault| fault.number())?;
    let (length, _) = send(&container, out).map_err(|fault| fault.number())?;
    Ok(length)
}

// How many rows the container in the bytes tells, or 1,000,000 plus the number of the refusal.
pub fn check(bytes: &[u8]) -> u32
    ensures { result ≡ checked bytes.now }
{
    as_code(reader::check(bytes).map_err(|fault| fault.number()))
}

// Sends the rows that the container in the bytes tells into the front of the output: how many bytes, or 1,000,000 plus the number of the refusal.
pub fn restate(bytes: &[u8], out: &mut [u8]) -> u32
    ensures answer { result ≡ (restated bytes.now out.old).0 }
    ensures output { out.new ≡ (restated bytes.now out.old).1 }
    ensures best { Restates bytes.now out.old result out.new }
{
    as_code(send_again(bytes, out))
}
