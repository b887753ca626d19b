use crate::made::{code, text};
use rows::kind::Kind;
use rows::place::Place;
use rows::wafer::Wafer;
use std::test::Fail;
use table::rows::Table;
use texts::id::Id;
use texts::text::Text;
use values::states::{Processing, Reading, Transport};

fn place(number: u16) -> Result<Place, Fail> {
    Ok(Place {
        code: code(number)?,
        kind: Kind::Slot,
        occupant: None,
        promise: None,
    })
}

fn wafer(id: &[u8], number: u16) -> Result<Wafer, Fail> {
    let id = Id::new(id).ok_or_else(|| Fail::new("an ID"))?;
    let place = code(number)?;
    Ok(Wafer {
        id,
        place,
        source: place,
        destination: place,
        transport: Transport::AtSource,
        processing: Processing::NoneYet,
        reading: Reading::NotUsed,
        acquired: Text::empty(),
    })
}

// The code of the place where a wafer is.
fn at(wafers: &Table<Wafer>, id: &[u8]) -> Result<Option<u16>, Fail> {
    Ok(wafers.lookup(&text(id)?).map(|wafer| wafer.place.number()))
}

#[test]
fn no_rows(rt: HostRuntime) -> Result<(), Fail> {
    let mut none: [Option<Place>; 0] = [];
    let mut table = Table::new(&mut none);
    assert_eq!(rt; table.insert(place(1)?), None);
    assert!(rt; table.lookup(&1).is_none());
    assert_eq!(rt; table.len(), 0);
    Ok(())
}

// A full table takes nothing, and a row that became free is used again.
#[test]
fn places_by_code(rt: HostRuntime) -> Result<(), Fail> {
    let mut rows = [Some(place(9)?), None];
    let mut table = Table::cleared(&mut rows);
    assert_eq!(rt; table.insert(place(101)?), Some(0));
    assert_eq!(rt; table.insert(place(102)?), Some(1));
    assert_eq!(rt; table.insert(place(103)?), None);
    assert!(rt; table.remove(&101).is_some());
    assert_eq!(rt; table.insert(place(103)?), Some(0));
    assert_eq!(rt; table.find(&102), Some(1));
    Ok(())
}

#[test]
fn wafers_by_id(rt: HostRuntime) -> Result<(), Fail> {
    let mut rows = [None, None];
    let mut table = Table::cleared(&mut rows);
    assert_eq!(rt; table.insert(wafer(b"A1", 101)?), Some(0));
    assert_eq!(rt; table.insert(wafer(b"A12", 102)?), Some(1));
    assert_eq!(rt; at(&table, b"A1")?, Some(101));
    assert!(rt; table.remove(&text(b"A1")?).is_some());
    assert_eq!(rt; at(&table, b"A1")?, None);
    assert_eq!(rt; at(&table, b"A12")?, Some(102));
    Ok(())
}
