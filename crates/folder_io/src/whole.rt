//! How is a file put, so that there is never half of one?

use std::alloc::Global;
use std::fs::{OpenFile, OpenOptions, Permissions};
use std::io::{ErrorKind, Write};
use std::rt::Files;
use std::{fs, io};

/// How many names are tried for the file beside the target.
const TRIES: u32 = 10_000;

/// Puts the bytes under the name, or leaves what is there as it was.
///
/// A plain file, and one that is new, is written under a name of its own in the same folder, synced, and
/// renamed over the name; where a step fails, that file is removed. A link stays a link: the file that it
/// leads to is put in this way. What is no plain file, a device or a pipe, is written through.
pub(crate) fn put_whole<R: Files>(
    rt: &R,
    alloc: Global,
    name: &str,
    bytes: &[u8],
) -> io::Result<()> {
    match fs::symlink_metadata(rt, name) {
        Ok(found) if found.is_file() => {
            replace(rt, alloc, name, bytes, Some(found.permissions()))
        }
        Ok(found) if found.is_symlink() => put_linked(rt, alloc, name, bytes),
        Ok(_) => write_through(rt, name, bytes),
        Err(e) if e.kind() == ErrorKind::NotFound => replace(rt, alloc, name, bytes, None),
        Err(e) => Err(e),
    }
}

/// Puts the bytes where a link leads; a link that leads to no file gets one.
fn put_linked<R: Files>(rt: &R, alloc: Global, name: &str, bytes: &[u8]) -> io::Result<()> {
    match fs::metadata(rt, name) {
        Ok(found) if found.is_file() => {
            let target = rt.canonicalize(alloc, name)?;
            replace(rt, alloc, target.as_str(), bytes, Some(found.permissions()))
        }
        Err(e) if e.kind() == ErrorKind::NotFound => put_dangling(rt, alloc, name, bytes),
        _ => write_through(rt, name, bytes),
    }
}

/// Puts the bytes where a link leads that leads to no file: an empty one is made and then replaced.
fn put_dangling<R: Files>(rt: &R, alloc: Global, name: &str, bytes: &[u8]) -> io::Result<()> {
    fs::create(rt, name)?;
    let target = rt.canonicalize(alloc, name)?;
    let put = replace(rt, alloc, target.as_str(), bytes, None);
    if put.is_err() {
        let _ = fs::remove_file(rt, target.as_str());
    }
    put
}

/// Writes a new file beside the name and renames it over the name. An old file gives the new one its
/// permissions, and is left alone where it may not be written.
fn replace<R: Files>(
    rt: &R,
    alloc: Global,
    name: &str,
    bytes: &[u8],
    old: Option<Permissions>,
) -> io::Result<()> {
    if old.is_some() {
        OpenOptions::new().write(true).open(rt, name)?;
    }
    let (beside, file) = create_beside(rt, alloc, name)?;
    let put = fill(file, bytes, old).and_then(|()| fs::rename(rt, beside.as_str(), name));
    if put.is_err() {
        let _ = fs::remove_file(rt, beside.as_str());
    }
    put
}

/// Makes a new file in the folder of the name, under the first name that is free there.
fn create_beside<R: Files>(rt: &R, alloc: Global, name: &str) -> io::Result<(String, R::File)> {
    for number in 0..TRIES {
        let beside = name_beside(alloc, name, number)?;
        match OpenOptions::new()
            .write(true)
            .create_new(true)
            .open(rt, beside.as_str())
        {
            Ok(file) => return Ok((beside, file)),
            Err(e) if e.kind() == ErrorKind::AlreadyExists => {}
            Err(e) => return Err(e),
        }
    }
    Err(io::Error::from(ErrorKind::AlreadyExists))
}

/// A name in the folder of the name.
fn name_beside(alloc: Global, name: &str, number: u32) -> io::Result<String> {
    let beside = match name.rsplit_once('/') {
        Some((folder, _)) => format!(in alloc; "{folder}/.netmesh-{number}")?,
        None => format!(in alloc; ".netmesh-{number}")?,
    };
    Ok(beside)
}

/// Writes all of the bytes to the file, and waits until the system has them: so a fault that a folder
/// tells late, at the end of the work, is seen here.
fn fill<F: Write + OpenFile + Drop>(
    mut file: F,
    bytes: &[u8],
    permissions: Option<Permissions>,
) -> io::Result<()> {
    file.write_all(bytes)?;
    if let Some(permissions) = permissions {
        file.set_permissions(permissions)?;
    }
    file.sync_all()
}

/// Writes all of the bytes to what stands under the name; what takes nothing of a piece has failed.
fn write_through<R: Files>(rt: &R, name: &str, bytes: &[u8]) -> io::Result<()> {
    let mut file = fs::create(rt, name)?;
    file.write_all(bytes)
}
