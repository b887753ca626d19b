use crate::made::{LOCATION, report};
use packed_log::log::PackedLog;
use reports::raw::Numbers;
use reports::report::Report;
use sinks::records::Records;
use sinks::sink::Sink;
use std::process::Abort;
use std::test::Fail;

fn unoccupied() -> Result<Report, Fail> {
    report(
        Numbers {
            row: 2,
            time: 7,
            place: 5,
            ..LOCATION
        },
        b"",
    )
}

// Puts into a sink until it is full, for which there has to be room this often.
fn fill<S: Sink>(rt: &impl Abort, sink: &mut S, room: usize) -> Result<(), Fail> {
    let report = unoccupied()?;
    for n in 0..room {
        assert_eq!(rt; sink.free(), room - n);
        assert!(rt; sink.put(report).is_ok());
    }
    assert_eq!(rt; sink.free(), 0);
    assert!(rt; sink.put(report).is_err());
    assert_eq!(rt; sink.free(), 0);
    Ok(())
}

#[test]
fn record_sinks(rt: HostRuntime) -> Result<(), Fail> {
    let any = unoccupied()?;
    fill(&rt, &mut Records::new(&mut []), 0)?;
    fill(&rt, &mut Records::new(&mut [any]), 1)?;
    let mut rows = [any; 3];
    let mut sink = Records::new(&mut rows);
    fill(&rt, &mut sink, 3)?;
    assert!(rt; sink.report(2).is_some());
    assert!(rt; sink.report(3).is_none());
    Ok(())
}

// Odd bytes left over hold no report.
#[test]
fn packed_logs(rt: HostRuntime) -> Result<(), Fail> {
    for n in 0..125 {
        let mut bytes = vec![in rt.alloc(); 0xFF; n]?;
        let mut log = PackedLog::new(bytes.as_mut_slice());
        fill(&rt, &mut log, n / 41)?;
        assert!(rt; log.used().len() == n / 41 * 41);
    }
    Ok(())
}
