use wafers::wafer::Wafer;

// A wafer, and whether the place where it stands is a station.
#[derive(Clone, Copy)]
pub struct Standing {
    pub wafer: Wafer,
    pub at_station: bool,
}
