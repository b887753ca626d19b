ghost use Rattle.std.specs.Prelude.{◌≡◌};
ghost use Rattle.reports.specs.Fields.{given, shown, substrate_fields, location_fields};
ghost use Rattle.reports.specs.Bounds.{making, told, Converted, Holds, Occupies};

use crate::raw::Raw;
use crate::report::{Location, Report, Substrate};
use texts::id::Id;
use values::field::Field;
use values::report::{Family, Occupancy};

// The value of a field, or that field where it is outside its bounds.
fn checked<A, T: TryFrom<A>>(value: A, field: Field) -> Result<T, Field>
where
    T::Error: Drop,
    ensures { Converted T.try_from_gives value field result }
{
    T::try_from(value).map_err(|_| field)
}

// A fact about a field that has to hold.
fn must(holds: bool, field: Field) -> Result<(), Field>
    ensures { Holds holds field result }
{
    if holds { Ok(()) } else { Err(field) }
}

// The occupant where there is to be one, and no bytes where not.
fn occupant(occupancy: Occupancy, bytes: &[u8]) -> Result<Option<Id>, Field>
    ensures { Occupies occupancy bytes.now result }
{
    match occupancy {
        Occupancy::Occupied => Ok(Some(checked(bytes, Field::Id)?)),
        Occupancy::Unoccupied => {
            must(bytes.is_empty(), Field::Id)?;
            Ok(None)
        }
    }
}

fn substrate(raw: &Raw<&[u8]>) -> Result<Substrate, Field>
    requires { raw.now.numbers.family ≡ 0 }
    ensures { told substrate_fields result ≡ making (given raw.now) }
{
    let n = raw.numbers;
    let transition = checked(n.row, Field::Row)?;
    let transport = checked(n.transport, Field::Transport)?;
    let processing = checked(n.processing, Field::Processing)?;
    let reading = checked(n.reading, Field::Reading)?;
    must(n.spare == 0, Field::Spare)?;
    Ok(Substrate {
        transition,
        transport,
        processing,
        reading,
        time: checked(n.time, Field::Time)?,
        place: checked(n.place, Field::Place)?,
        source: checked(n.source, Field::Source)?,
        destination: checked(n.destination, Field::Destination)?,
        id: checked(raw.id, Field::Id)?,
        acquired: checked(raw.acquired, Field::Acquired)?,
    })
}

fn location(raw: &Raw<&[u8]>) -> Result<Location, Field>
    requires { raw.now.numbers.family ≡ 1 }
    ensures { told location_fields result ≡ making (given raw.now) }
{
    let n = raw.numbers;
    let occupancy = checked(n.row, Field::Row)?;
    must(n.transport == 0, Field::Transport)?;
    must(n.processing == 0, Field::Processing)?;
    must(n.reading == 0, Field::Reading)?;
    must(n.spare == 0, Field::Spare)?;
    let time = checked(n.time, Field::Time)?;
    let place = checked(n.place, Field::Place)?;
    must(n.source == 0, Field::Source)?;
    must(n.destination == 0, Field::Destination)?;
    let occupant = occupant(occupancy, raw.id)?;
    must(raw.acquired.is_empty(), Field::Acquired)?;
    Ok(Location {
        time,
        place,
        occupant,
    })
}

impl Report {
    // The report of these fields, or the first field that is outside its bounds.
    pub fn make(raw: &Raw<&[u8]>) -> Result<Report, Field>
        ensures { told shown result ≡ making (given raw.now) }
    {
        match checked(raw.numbers.family, Field::Family)? {
            Family::Substrate => Ok(Report::OfSubstrate(substrate(raw)?)),
            Family::Location => Ok(Report::OfLocation(location(raw)?)),
        }
    }
}
