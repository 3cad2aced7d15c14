//! The disk in a file of the operating system.

use crate::disks::running::{file_of, store_on};
use durable_log::{Disk, DurableStore, FileDisk};
use std::fs;
use std::process::Abort;
use std::rt::Files;
use std::test::Fail;
use tcm_edges::{Failed, Store};

/// Makes a folder for temporary files, and returns its path.
fn new_folder<R: AllocGlobal + Files>(rt: &R) -> Result<String, Fail> {
    for number in 0..1000 {
        let folder = format!(in rt.alloc(); "/tmp/tcm-disk-{number}")?;
        if fs::create_dir(rt, folder.as_str()).is_ok() {
            return Ok(folder);
        }
    }
    Err(Fail::from("no folder for temporary files"))
}

/// Reads and writes at places of a disk.
fn places<R: Abort + AllocGlobal + Files>(rt: &R, path: String) -> Result<(), Fail> {
    let mut disk = FileDisk::new(rt, path);
    assert_eq!(rt; disk.size(), Ok(0));
    disk.write_at(0, b"abc")?;
    disk.write_at(1, b"xyz")?;
    disk.sync()?;
    assert_eq!(rt; disk.size(), Ok(4));
    let mut buf = [0; 3];
    assert_eq!(rt; disk.read_at(4, &mut buf), Ok(0));
    assert_eq!(rt; disk.read_at(2, &mut buf), Ok(2));
    assert_eq!(rt; buf, *b"yz\0");
    assert_eq!(rt; disk.write_at(1 << 62, b"z"), Err(Failed));
    Ok(())
}

/// Keeps a file on a disk, and loads it from the same disk, opened anew.
fn kept<R: Abort + AllocGlobal + Files>(rt: &R, path: &str) -> Result<(), Fail> {
    let alloc = rt.alloc();
    for text in ["ab", "c"] {
        let mut store = store_on(alloc, FileDisk::new(rt, String::from_str(alloc, path)?))?;
        store.append("x", text.as_bytes())?;
        store.replace("y", text.as_bytes())?;
    }
    let mut store = store_on(alloc, FileDisk::new(rt, String::from_str(alloc, path)?))?;
    for row in [("x", "abc"), ("y", "c")] {
        let (name, wanted) = row;
        let file = file_of(&mut store, name)?;
        assert!(rt;
            matches!(&file, Some(text) if text.as_slice() == wanted.as_bytes()),
            "{name}"
        );
    }
    Ok(())
}

/// No disk is in a folder, in a device, or where there is no folder.
fn no_disks<R: Abort + AllocGlobal + Files>(rt: &R, folder: &str) -> Result<(), Fail> {
    let alloc = rt.alloc();
    let absent = format!(in alloc; "{folder}/no/disk")?;
    for path in [folder, "/dev/null", absent.as_str()] {
        let disk = FileDisk::new(rt, String::from_str(alloc, path)?);
        assert!(rt; DurableStore::open(alloc, disk).is_err(), "{path}");
    }
    Ok(())
}

/// All of this, in a folder.
fn in_folder<R: Abort + AllocGlobal + Files>(rt: &R, folder: &str) -> Result<(), Fail> {
    places(rt, format!(in rt.alloc(); "{folder}/places")?)?;
    let path = format!(in rt.alloc(); "{folder}/kept")?;
    kept(rt, path.as_str())?;
    no_disks(rt, folder)
}

#[test]
fn disks_in_files_of_the_operating_system(rt: HostRuntime) -> Result<(), Fail> {
    let folder = new_folder(&rt)?;
    let stored = in_folder(&rt, folder.as_str());
    let removed = fs::remove_dir_all(&rt, folder.as_str());
    stored?;
    Ok(removed?)
}
