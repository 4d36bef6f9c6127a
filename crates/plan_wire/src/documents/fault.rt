ghost use Rattle.std.specs.Prelude.{◌≡◌, IfSome};
ghost use Rattle.plan_wire.specs.Place.{path_of};
ghost use Rattle.plan_wire.specs.Reading as reading;
ghost use Rattle.plan_wire.specs.Seen.{refusal_seen};

use super::place::Place;
use std::alloc::{AllocError, Global};

/// Why no document was read.
#[derive(Debug, Drop, PartialEq, Eq)]
pub enum WireFault {
    /// There are more than 4,194,304 bytes.
    TooLong,
    /// The bytes are not UTF-8, or no JSON with nesting to 127.
    Json,
    /// The place of this path is the first that is refused: it is missing, or another kind of value than it must be.
    Form(String),
    /// The place of this path is the first that is refused: its number, or its length, is out of range.
    Range(String),
    /// There was no memory left.
    NoMemory,
}

impl From<AllocError> for WireFault {
    ghost use Rattle.std.specs.Prelude.{◌≡◌};
    ghost use Rattle.plan_wire.specs.declared.documents.fault.WireFault.TheVariants as fault;

    ghost from_gives = { λ _ e. e ≡ fault.NoMemory };

    fn from(_error: AllocError) -> WireFault {
        WireFault::NoMemory
    }
}

impl WireFault {
    // The form of the place is broken.
    pub(crate) fn form(alloc: Global, place: &Place) -> WireFault
        ensures { IfSome (refusal_seen result) (λ refusal. refusal ≡ reading.form (path_of place.now)) }
    {
        match place.path(alloc) {
            Ok(path) => WireFault::Form(path),
            Err(_) => WireFault::NoMemory,
        }
    }

    // The place is out of range.
    pub(crate) fn range(alloc: Global, place: &Place) -> WireFault
        ensures { IfSome (refusal_seen result) (λ refusal. refusal ≡ reading.range (path_of place.now)) }
    {
        match place.path(alloc) {
            Ok(path) => WireFault::Range(path),
            Err(_) => WireFault::NoMemory,
        }
    }
}
