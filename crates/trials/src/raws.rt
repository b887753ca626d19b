use crate::made::{LOCATION, SUBSTRATE};
use reports::raw::{Numbers, Raw};
use reports::report::Report;
use std::process::Abort;
use values::field::Field;

const LAST: u64 = 1_099_511_627_775;

// The numbers with another one in a field.
fn with(base: Numbers, field: Field, value: u64) -> Numbers {
    let byte = (value % 256) as u8;
    let code = (value % 65536) as u16;
    match field {
        Field::Family => Numbers {
            family: byte,
            ..base
        },
        Field::Row => Numbers { row: byte, ..base },
        Field::Transport => Numbers {
            transport: byte,
            ..base
        },
        Field::Processing => Numbers {
            processing: byte,
            ..base
        },
        Field::Reading => Numbers {
            reading: byte,
            ..base
        },
        Field::Spare => Numbers {
            spare: byte,
            ..base
        },
        Field::Time => Numbers {
            time: value,
            ..base
        },
        Field::Place => Numbers {
            place: code,
            ..base
        },
        Field::Source => Numbers {
            source: code,
            ..base
        },
        Field::Destination => Numbers {
            destination: code,
            ..base
        },
        Field::Id | Field::Acquired => base,
    }
}

fn raw<'a>(numbers: Numbers, id: &'a [u8], acquired: &'a [u8]) -> Raw<&'a [u8]> {
    Raw {
        numbers,
        id,
        acquired,
    }
}

fn refused(raw: Raw<&[u8]>) -> Option<Field> {
    Report::make(&raw).err()
}

// Each number is refused in its field, or is not.
fn refuses(rt: &impl Abort, base: Numbers, cases: &[(Field, u64, bool)]) {
    for (field, value, outside) in cases {
        assert_eq!(rt;
            refused(raw(with(base, *field, *value), b"A1", b"")),
            outside.then_some(*field)
        );
    }
}

// A field, a number in it, and whether that is refused there: each bound, and one past it.
const SUBSTRATE_CASES: [(Field, u64, bool); 29] = [
    (Field::Family, 2, true),
    (Field::Row, 0, true),
    (Field::Row, 1, false),
    (Field::Row, 14, false),
    (Field::Row, 15, true),
    (Field::Row, 16, true),
    (Field::Row, 17, false),
    (Field::Row, 21, false),
    (Field::Row, 22, true),
    (Field::Transport, 2, false),
    (Field::Transport, 3, true),
    (Field::Processing, 0, false),
    (Field::Processing, 7, false),
    (Field::Processing, 8, true),
    (Field::Processing, 14, true),
    (Field::Processing, 15, false),
    (Field::Processing, 16, true),
    (Field::Reading, 4, false),
    (Field::Reading, 5, true),
    (Field::Spare, 0, false),
    (Field::Spare, 1, true),
    (Field::Time, LAST, false),
    (Field::Time, LAST + 1, true),
    (Field::Place, 0, true),
    (Field::Place, 65535, false),
    (Field::Source, 0, true),
    (Field::Source, 1, false),
    (Field::Destination, 0, true),
    (Field::Destination, 1, false),
];

const LOCATION_CASES: [(Field, u64, bool); 14] = [
    (Field::Row, 0, true),
    (Field::Row, 1, false),
    (Field::Row, 3, true),
    (Field::Transport, 1, true),
    (Field::Processing, 15, true),
    (Field::Reading, 1, true),
    (Field::Spare, 1, true),
    (Field::Time, LAST, false),
    (Field::Time, LAST + 1, true),
    (Field::Place, 0, true),
    (Field::Place, 65535, false),
    (Field::Source, 101, true),
    (Field::Destination, 201, true),
    (Field::Destination, 0, false),
];

#[test]
fn numbers_of_substrate_reports(rt: HostRuntime) {
    refuses(&rt, SUBSTRATE, &SUBSTRATE_CASES);
}

#[test]
fn numbers_of_location_reports(rt: HostRuntime) {
    refuses(&rt, LOCATION, &LOCATION_CASES);
}

#[test]
fn texts_of_reports(rt: HostRuntime) {
    let unoccupied = with(LOCATION, Field::Row, 2);
    assert_eq!(rt; refused(raw(SUBSTRATE, b"", b"")), Some(Field::Id));
    assert_eq!(rt;
        refused(raw(SUBSTRATE, b"0123456789ABCDEF", b"0123456789ABCDEF")),
        None
    );
    assert_eq!(rt;
        refused(raw(SUBSTRATE, b"0123456789ABCDEFG", b"")),
        Some(Field::Id)
    );
    assert_eq!(rt;
        refused(raw(SUBSTRATE, b"A1", b"A 1")),
        Some(Field::Acquired)
    );
    assert_eq!(rt;
        refused(raw(SUBSTRATE, b"A1", b"0123456789ABCDEFG")),
        Some(Field::Acquired)
    );
    assert_eq!(rt; refused(raw(LOCATION, b"", b"")), Some(Field::Id));
    assert_eq!(rt; refused(raw(LOCATION, b"A1", b"A1")), Some(Field::Acquired));
    assert_eq!(rt; refused(raw(unoccupied, b"A1", b"")), Some(Field::Id));
    assert_eq!(rt; refused(raw(unoccupied, b"", b"")), None);
}

// Each field, and the number by which a refusal names it.
const NUMBERS: [(Field, u8); 12] = [
    (Field::Family, 1),
    (Field::Row, 2),
    (Field::Transport, 3),
    (Field::Processing, 4),
    (Field::Reading, 5),
    (Field::Spare, 6),
    (Field::Time, 7),
    (Field::Place, 8),
    (Field::Source, 9),
    (Field::Destination, 10),
    (Field::Id, 11),
    (Field::Acquired, 12),
];

#[test]
fn numbers_of_fields(rt: HostRuntime) {
    for (field, number) in &NUMBERS {
        assert_eq!(rt; u8::from(*field), *number);
    }
}
