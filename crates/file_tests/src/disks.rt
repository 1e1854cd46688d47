// The two disks, call by call.
use std::fs;
use std::test::*;
use tf_disk::{Disk, FileDisk, MemDisk};

// Whether a read from a place on gives exactly these bytes.
fn reads<D: Disk>(disk: &mut D, place: u64, want: &[u8]) -> bool {
    let mut buf = [0u8; 16];
    match disk.read(place, &mut buf) {
        Ok(count) => count == want.len() && count <= 16 && &buf[..count] == want,
        Err(_) => false,
    }
}

#[test]
fn an_image_keeps_the_first_changes_and_tears_the_others(rt: HostRuntime) -> Result<(), Fail> {
    let alloc = rt.alloc();
    let mut disk = MemDisk::new(alloc, b"abcdef", &[3, 6])?;
    assert!(rt; disk.write_at(1, b"XY").is_ok());
    assert!(rt; disk.cut(5).is_ok());
    assert!(rt; disk.write_at(6, b"Z").is_err());
    assert_eq!(rt; disk.bytes(), b"aXYde".as_slice());
    // (how many changes are kept, the image)
    let rows: [(u64, &[u8]); 5] = [
        (0, b"a..def."),
        (1, b"aXYdef."),
        (2, b"aXYde\0."),
        (3, b"aXYde\0Z"),
        (4, b"aXYde\0Z"),
    ];
    for (keep, want) in rows {
        assert_eq!(rt; disk.image(b'.', keep)?.bytes(), want, "{keep}");
    }
    assert!(rt; disk.sync().is_ok());
    assert!(rt; disk.write_at(7, b"!").is_ok());
    assert!(rt; disk.sync().is_err());
    assert!(rt; reads(&mut disk, 3, b"de\0\0!"));
    assert!(rt; reads(&mut disk, 9, b""));
    // A sync that failed leaves what was to be torn, and counting begins anew after one that did not.
    assert_eq!(rt; disk.image(b'.', 0)?.bytes(), b"aXYde\0\0.".as_slice());
    assert_eq!(rt; disk.image(b'.', 1)?.bytes(), b"aXYde\0\0!".as_slice());
    assert_eq!(rt; disk.len().ok(), Some(8));
    assert_eq!(rt; disk.calls(), 9);
    assert_eq!(rt; disk.faults(), 2);
    assert_eq!(rt; disk.wanted(), 0);
    Ok(())
}

#[test]
fn a_real_file_is_made_and_found_again(rt: HostRuntime) -> Result<(), Fail> {
    let alloc = rt.alloc();
    let mut disk = FileDisk::new(&rt, alloc, "tf_disk_test_file")?;
    assert!(rt; disk.cut(0).is_ok());
    assert_eq!(rt; disk.len().ok(), Some(0));
    assert!(rt; disk.write_at(0, b"abcdef").is_ok());
    assert!(rt; disk.write_at(1, b"XY").is_ok());
    assert!(rt; disk.cut(9).is_ok());
    assert_eq!(rt; disk.len().ok(), Some(6));
    assert!(rt; disk.cut(5).is_ok());
    assert!(rt; disk.write_at(7, b"!").is_ok());
    assert!(rt; disk.sync().is_ok());
    let mut again = FileDisk::new(&rt, alloc, "tf_disk_test_file")?;
    assert_eq!(rt; again.len().ok(), Some(8));
    assert!(rt; reads(&mut again, 0, b"aXYde\0\0!"));
    assert!(rt; reads(&mut again, 6, b"\0!"));
    assert!(rt; reads(&mut again, 8, b""));
    assert_eq!(rt; again.faults(), 0);
    assert!(rt; fs::remove_file(&rt, "tf_disk_test_file").is_ok());
    Ok(())
}

#[test]
fn a_file_that_cannot_be_reached_is_a_fault_at_each_call(rt: HostRuntime) -> Result<(), Fail> {
    let alloc = rt.alloc();
    let mut disk = FileDisk::new(&rt, alloc, "no_such_folder/file")?;
    let mut buf = [0u8; 4];
    assert!(rt; disk.len().is_err());
    assert!(rt; disk.read(0, &mut buf).is_err());
    assert!(rt; disk.write_at(0, b"x").is_err());
    assert!(rt; disk.cut(0).is_err());
    assert!(rt; disk.sync().is_err());
    assert_eq!(rt; disk.faults(), 5);
    Ok(())
}
