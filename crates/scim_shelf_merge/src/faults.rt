//! The reasons why a users file can't be merged.
ghost use Rattle.scim_shelf_merge.specs.Faults as spec;

use scim_json::DamagedItem;
use scim_shelf::ShelfFault;
use scim_text::{Failed, NoMemory};
use std::fmt;

/// Why a resource can't be merged into a store (RFC 7643 sections 2.2 and 3.1).
#[derive(Clone, Copy, Debug, PartialEq, Eq)]
pub enum Clash {
    /// A resource of the other kind has its id.
    OtherKind,
    /// Another resource has one of its unique names, such as `userName`.
    TakenName,
}

/// A reason why a users file can't be merged into a shelf.
#[derive(Clone, Copy, Debug, PartialEq, Eq)]
pub enum MergeFault {
    /// The users file is invalid at this item.
    Users(DamagedItem),
    /// The shelf can't begin a round.
    NoRound,
    /// The item with this number, from 1, can't be merged.
    Clash(usize, Clash),
    /// The shelf failed.
    Shelf(ShelfFault),
    /// Memory ran out.
    NoMemory,
}

impl From<Failed<DamagedItem>> for MergeFault {
    ghost use Rattle.std.specs.Prelude.{◌≡◌};
    ghost use Rattle.scim_shelf_merge.specs.Faults.{of_reading};

    ghost from_gives = { λ e f. f ≡ of_reading e };

    fn from(fault: Failed<DamagedItem>) -> MergeFault {
        match fault {
            Failed::Because(item) => MergeFault::Users(item),
            Failed::NoMemory => MergeFault::NoMemory,
        }
    }
}

impl From<Failed<ShelfFault>> for MergeFault {
    ghost use Rattle.std.specs.Prelude.{◌≡◌};
    ghost use Rattle.scim_shelf_merge.specs.Faults.{of_shelf};

    ghost from_gives = { λ e f. f ≡ of_shelf e };

    fn from(fault: Failed<ShelfFault>) -> MergeFault {
        match fault {
            Failed::Because(fault) => MergeFault::Shelf(fault),
            Failed::NoMemory => MergeFault::NoMemory,
        }
    }
}

// Not derived, because a clash is told with the number of its item.
impl fmt::Display for MergeFault {
    fn fmt<W: fmt::Write>(&self, f: &mut fmt::Formatter<W>) -> fmt::Result {
        match self {
            MergeFault::Users(item) => item.fmt(f),
            MergeFault::NoRound => write!(f, "the store can't make changes together"),
            MergeFault::Clash(item, Clash::OtherKind) => {
                write!(f, "item {item}: a resource of another type has its id")
            }
            MergeFault::Clash(item, Clash::TakenName) => {
                write!(
                    f,
                    "item {item}: another resource has one of its unique names"
                )
            }
            MergeFault::Shelf(fault) => fault.fmt(f),
            MergeFault::NoMemory => NoMemory.fmt(f),
        }
    }
}
