//! A real file: written, read again, and open once.
use crate::files::refusal;
use std::fs;
use std::test::Fail;
use wb_keep::disk::{Device, DeviceFault, OpenDiskErr, open_file};

const PATH: &str = "wb_disk_test.log";

fn may_go_to_a_thread<T: Send>(_value: &T) {}

/// Writes, cuts and syncs a file that is new.
fn write_some<D: Device>(file: &mut D) -> Result<(), DeviceFault> {
    file.write_at(0, b"one two")?;
    file.sync()?;
    file.cut(3)?;
    file.write_at(2, b"!!")?;
    file.sync()
}

/// Makes the file and writes to it. Whether it began with its start, was written, and was open once meanwhile.
fn is_written_alone(rt: &HostRuntime) -> bool {
    let Ok((mut file, held)) = open_file(rt, PATH, b"old") else {
        return false;
    };
    may_go_to_a_thread(&file);
    if held.as_slice() != b"old".as_slice() {
        return false;
    }
    write_some(&mut file).is_ok() && matches!(refusal(rt, PATH, b"old"), Some(OpenDiskErr::Busy))
}

/// Whether the file is opened, and holds these bytes.
fn is_held(rt: &HostRuntime, bytes: &[u8]) -> bool {
    match open_file(rt, PATH, b"old") {
        Ok((_, held)) => held.as_slice() == bytes,
        Err(_) => false,
    }
}

#[test]
fn a_file_is_written_and_open_once(rt: HostRuntime) -> Result<(), Fail> {
    let _ = fs::remove_file(&rt, PATH);
    assert!(rt; is_written_alone(&rt));
    assert!(rt; is_held(&rt, b"on!!"));
    assert!(rt; matches!(refusal(&rt, ".", b""), Some(OpenDiskErr::NotAFile)));
    fs::remove_file(&rt, PATH)?;
    Ok(())
}
