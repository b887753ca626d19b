use crate::made::{SUBSTRATE, report};
use layout::cells::STRIDE;
use layout::fault::LayoutFault;
use layout::write::write;
use packed_log::reading::{LogFault, read_log};
use reports::raw::Numbers;
use std::alloc::Global;
use std::test::Fail;
use values::field::Field;

// The bytes of the report that wafer A1 was registered.
fn registered(time: u64) -> Result<[u8; STRIDE], Fail> {
    Ok(write(&report(Numbers { time, ..SUBSTRATE }, b"A1")?))
}

// Two reports, one after the other.
fn two(heap: Global) -> Result<Vec<u8>, Fail> {
    let a = registered(1000)?;
    let b = registered(2000)?;
    let mut bytes = Vec::from_slice(heap, &a)?;
    bytes.extend_from_slice(&b)?;
    Ok(bytes)
}

#[test]
fn worked_bytes(rt: HostRuntime) -> Result<(), Fail> {
    let bytes = registered(1000)?;
    let front = [
        0x04, 0xF0, 0x00, 0x00, 0x00, 0x03, 0xE8, 0x00, 0x65, 0x00, 0x65, 0x00, 0xC9, 0x82, 0xC4,
    ];
    assert!(rt; &bytes[0..15] == &front[0..15]);
    assert!(rt; &bytes[15..41] == &[0; 26][0..26]);
    Ok(())
}

// Cut at every length, a log of two reports gives the whole ones, and a fault where something is left over.
#[test]
fn cut_at_every_length(rt: HostRuntime) -> Result<(), Fail> {
    let bytes = two(rt.alloc())?;
    assert!(rt; bytes.len() == 82);
    for n in 0..83 {
        let log = read_log(rt.alloc(), &bytes[0..n])?;
        assert!(rt; log.reports.len() == n / 41);
        let fault = LogFault {
            report: n / 41 + 1,
            fault: LayoutFault::Short,
        };
        assert_eq!(rt; log.fault, (n % 41 != 0).then_some(fault));
    }
    Ok(())
}

// A spare bit in the second report is found there.
#[test]
fn damaged(rt: HostRuntime) -> Result<(), Fail> {
    let mut bytes = two(rt.alloc())?;
    assert!(rt; bytes.len() == 82);
    bytes[42] = 0xF1;
    let log = read_log(rt.alloc(), &bytes)?;
    assert!(rt; log.reports.len() == 1);
    let fault = LogFault {
        report: 2,
        fault: LayoutFault::Outside(Field::Spare),
    };
    assert_eq!(rt; log.fault, Some(fault));
    Ok(())
}
