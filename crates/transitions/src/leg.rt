ghost use Rattle.std.specs.Prelude.{◌≡◌, Bool, Some};
ghost use Rattle.std.specs.Option.{option_map};
ghost use Rattle.model.specs.Calls.{fitting};
ghost use Rattle.model.specs.Places.{Sites, station};
ghost use Rattle.model.specs.Rows.{leg_number, to_transport};
ghost use Rattle.wafers.specs.Held.{held};
ghost use Rattle.transitions.specs.Meant.{leg_meant};
ghost use Rattle.values.specs.Numbers.{transition_number, transport_number};
ghost use Rattle.values.specs.Values.{coded};

use crate::states::{is_complete, is_steady};
use values::code::Code;
use values::states::{Processing, Transport};
use values::transition::Transition;
use wafers::wafer::Wafer;

// The rows by which a wafer moves.
#[derive(Clone, Copy, Debug, PartialEq, Eq)]
pub enum Leg {
    FromSource,
    BackToSource,
    AtWork,
    ToDestination,
    FromDestination,
}

impl Leg {
    pub fn transition(self) -> Transition
        ensures { transition_number result ≡ leg_number (leg_meant self) }
    {
        match self {
            Leg::FromSource => Transition::LeftSource,
            Leg::BackToSource => Transition::BackAtSource,
            Leg::AtWork => Transition::MovedAtWork,
            Leg::ToDestination => Transition::ReachedDestination,
            Leg::FromDestination => Transition::LeftDestination,
        }
    }

    // The transport state that the row leads to.
    pub fn transport(self) -> Transport
        ensures { transport_number result ≡ to_transport (leg_meant self) }
    {
        match self {
            Leg::BackToSource => Transport::AtSource,
            Leg::ToDestination => Transport::AtDestination,
            Leg::FromSource | Leg::AtWork | Leg::FromDestination => Transport::AtWork,
        }
    }

    // The one row that fits the wafer and the target, if one does; occupancy and number of entries are not looked at.
    pub fn fitting(wafer: &Wafer, target: Code, is_station: bool) -> Option<Leg>
        ensures { (at : Sites) → station at (coded target) ≡ is_station → option_map leg_meant result ≡ fitting at (Some (held wafer.now)) (coded target) }
    {
        let source = wafer.source;
        let destination = wafer.destination;
        let complete = is_complete(wafer.processing);
        if wafer.processing == Processing::InProcess || !is_steady(wafer.processing) {
            return None;
        }
        match wafer.transport {
            Transport::AtSource if is_station && target != destination => Some(Leg::FromSource),
            Transport::AtWork if target == source && (destination != source || !complete) => Some(
                Leg::BackToSource,
            ),
            Transport::AtWork if is_station && target != source && target != destination => Some(
                Leg::AtWork,
            ),
            Transport::AtWork if target == destination && (destination != source || complete) =>
                Some(Leg::ToDestination),
            Transport::AtDestination if is_station && target != source => Some(
                Leg::FromDestination,
            ),
            _ => None,
        }
    }
}
