// The two forms of a sheet.
ghost use Rattle.std.specs.Prelude.{◌≡◌, true};
ghost use Rattle.sheet.specs.Open.{kinds_open, standing};

use crate::opened::Opened;
use crate::store::Store;

// A sheet that takes calls.
#[derive(Drop)]
pub struct Draft<'a> {
    pub(crate) store: Store<'a>,
    pub(crate) opened: Opened,
    ghost stands: { standing (kinds_open opened) ≡ true },
}

// A finished sheet: a location, which can be sent.
#[derive(Drop)]
pub struct Fair<'a> {
    pub(crate) store: Store<'a>,
}
