// Sends two locations and compares what was sent.
ghost use Rattle.std.specs.Prelude.{◌≡◌};
ghost use Rattle.tpegloc.specs.Agreed.{Agreed, SameSent, Within};

use grammar::SendFault;
use location::Location;
use sender::send;

// What came of sending two locations.
#[derive(Clone, Copy, Debug, PartialEq, Eq)]
pub struct Agreement {
    pub left: Result<(usize, u8), SendFault>, // length and default language, or why not
    pub right: Result<(usize, u8), SendFault>, // the same of the other
    pub same: bool, // both were sent, as the same bytes; no value comes with it that an Option would hold
}

// Both were sent, as the same bytes.
fn same_sent(
    on_left: Result<(usize, u8), SendFault>,
    left: &[u8],
    on_right: Result<(usize, u8), SendFault>,
    right: &[u8],
) -> bool
    requires { (Within on_left left.now) × (Within on_right right.now) }
    ensures { SameSent on_left left.now on_right right.now result }
{
    match (on_left, on_right) {
        (Ok((n, _)), Ok((m, _))) => &left[..n] == &right[..m],
        _ => false,
    }
}

// Sends each of two locations, whatever their makes, into an output of its own, and says whether the bytes are the same. They are exactly when the rows are.
pub fn agree<A: Location, B: Location>(a: &A, b: &B, left: &mut [u8], right: &mut [u8]) -> Agreement
    ensures { Agreed (A.Location.whole a.now) (B.Location.whole b.now) left.old left.new right.old right.new result }
{
    let on_left = send(a, left);
    let on_right = send(b, right);
    let same = same_sent(on_left, left, on_right, right);
    Agreement {
        left: on_left,
        right: on_right,
        same,
    }
}
