ghost use Rattle.std.specs.Prelude.{◌≡◌};
ghost use Rattle.model.specs.Rows.{exit_number, may_leave};
ghost use Rattle.wafers.specs.Held.{held};
ghost use Rattle.transitions.specs.Meant.{exit_meant};
ghost use Rattle.values.specs.Numbers.{transition_number};

use crate::states::{is_complete, is_steady};
use values::states::{Processing, Transport};
use values::transition::Transition;
use wafers::wafer::Wafer;

// The rows by which a wafer goes.
#[derive(Clone, Copy, Debug, PartialEq, Eq)]
pub enum Exit {
    Unload,
    Remove,
}

impl Exit {
    pub fn transition(self) -> Transition
        ensures { transition_number result ≡ exit_number (exit_meant self) }
    {
        match self {
            Exit::Unload => Transition::Unloaded,
            Exit::Remove => Transition::Removed,
        }
    }

    // Whether the wafer can take the row.
    pub fn is_open(self, wafer: &Wafer) -> bool
        ensures { result ≡ may_leave (exit_meant self) (held wafer.now) }
    {
        match self {
            Exit::Unload => wafer.transport == Transport::AtDestination
                && wafer.processing != Processing::InProcess
                && is_steady(wafer.processing),
            Exit::Remove => is_complete(wafer.processing),
        }
    }
}
