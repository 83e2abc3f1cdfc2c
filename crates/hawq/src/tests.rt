//! The doors over real files.
use crate::RealDoors;
use hq_doors::{Doors, Opening};
use hq_io::{FileSink, Sink, Source};
use hq_server::run_alone;
use hq_value::DoorFault;
use std::fs;
use std::test::Fail;

const NAME: &str = "hawq_test_doors.sql";

const RUN_NAME: &str = "hawq_test_run.sql";

const RUN_OUT: &str = "hawq_test_run.sql.out";

const OUT: &str = "hawq_test_doors.sql.out";

#[test]
fn a_file_is_read_and_the_one_beside_it_is_written(rt: HostRuntime) -> Result<(), Fail> {
    fs::write(&rt, NAME, b"abc".as_slice())?;
    let mut doors = RealDoors::new(rt, rt.alloc());
    match doors.open(1, Opening::File(NAME)) {
        Ok(mut parts) => {
            let mut into = [0u8; 4];
            assert_eq!(rt; parts.source.read(&mut into), Ok(3));
            assert_eq!(rt; into, [b'a', b'b', b'c', 0]);
            assert_eq!(rt; parts.sink.write_all(b"xy"), Ok(()));
        }
        Err(_) => assert!(rt; false),
    }
    assert_eq!(rt; doors.faults(), 0);
    assert_eq!(rt; fs::read(&rt, OUT)?.as_slice(), b"xy".as_slice());
    fs::remove_file(&rt, NAME)?;
    fs::remove_file(&rt, OUT)?;
    Ok(())
}

#[test]
fn a_missing_file_and_a_folder_are_faults(rt: HostRuntime) -> Result<(), Fail> {
    let mut doors = RealDoors::new(rt, rt.alloc());
    let missing = doors.open(1, Opening::File("hawq_test_missing.sql"));
    assert_eq!(rt; missing.err(), Some(DoorFault::Failed));
    assert_eq!(rt; doors.faults(), 1);
    let folder = doors.open(1, Opening::File("."));
    assert_eq!(rt; folder.err(), Some(DoorFault::Failed));
    assert_eq!(rt; doors.faults(), 2);
    Ok(())
}

#[test]
fn the_worked_script_is_answered_beside_its_file(rt: HostRuntime) -> Result<(), Fail> {
    let script = b"CREATE TABLE t (a INT);INSERT INTO t VALUES (2),(1),(2);SELECT * FROM t;";
    fs::write(&rt, RUN_NAME, script.as_slice())?;
    let mut doors = RealDoors::new(rt, rt.alloc());
    let mut console = FileSink::console(rt);
    let mut words = Vec::new(rt.alloc());
    words.push(String::from_str(rt.alloc(), "run")?)?;
    words.push(String::from_str(rt.alloc(), RUN_NAME)?)?;
    let end = run_alone(rt.alloc(), &words, &mut doors, &mut console);
    assert_eq!(rt; end.status, 0);
    assert_eq!(rt;
        fs::read(&rt, RUN_OUT)?.as_slice(),
        b"CREATE TABLE\nINSERT 3\n1\n2\n2\nSELECT 3\n".as_slice()
    );
    fs::remove_file(&rt, RUN_NAME)?;
    fs::remove_file(&rt, RUN_OUT)?;
    Ok(())
}
