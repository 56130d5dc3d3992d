//! Each call that takes memory answers with ample memory as it should, and the real outside keeps its
//! promises at an example.
use folder_io::{
    Folder, FolderDisk, FolderMem, FolderSure, PutFault, Sink, SinkFault, SinkMem, SinkStd,
    SinkSure, TakeFault,
};
use std::alloc::{AllocError, Global};
use std::fs;
use std::io::ErrorKind;
use std::os::unix::fs::symlink;
use std::test::Fail;

fn text(alloc: Global, text: &str) -> Result<String, AllocError> {
    String::from_str(alloc, text)
}

fn bytes(alloc: Global, text: &str) -> Result<Vec<u8>, AllocError> {
    text.as_bytes().to_vec(alloc)
}

#[test]
fn a_folder_in_memory_fails_at_its_planned_calls(rt: HostRuntime) -> Result<(), Fail> {
    let alloc = rt.alloc();
    let names = [text(alloc, "g")?, text(alloc, "r")?];
    let files = [bytes(alloc, "abc")?, bytes(alloc, "de")?];
    let mut folder = FolderMem::holding(alloc, &names, &files, &[2, 4])?;
    assert_eq!(rt; folder.take(alloc, "g", 3)?.as_slice(), b"abc".as_slice());
    assert_eq!(rt; folder.take(alloc, "r", 9).err(), Some(TakeFault::Failed));
    assert_eq!(rt; folder.put(alloc, "g", b"xy"), Ok(()));
    assert_eq!(rt; folder.last(), "r");
    assert_eq!(rt; folder.put(alloc, "g", b"z"), Err(PutFault::Failed));
    assert_eq!(rt; folder.faults(), 2);
    assert_eq!(rt; folder.last(), "g");
    assert_eq!(rt; folder.get("g"), None);
    assert_eq!(rt; folder.get("r"), Some(b"de".as_slice()));
    Ok(())
}

#[test]
fn a_sure_folder_answers_by_what_it_holds(rt: HostRuntime) -> Result<(), Fail> {
    let alloc = rt.alloc();
    let names = [text(alloc, "g")?, text(alloc, "g")?];
    let files = [bytes(alloc, "abc")?, bytes(alloc, "de")?];
    let mut folder = FolderSure::holding(alloc, &names, &files)?;
    assert_eq!(rt; folder.take(alloc, "g", 3)?.as_slice(), b"abc".as_slice());
    assert_eq!(rt; folder.take(alloc, "g", 2).err(), Some(TakeFault::TooLong));
    assert_eq!(rt; folder.take(alloc, "m", 2).err(), Some(TakeFault::Missing));
    assert_eq!(rt; folder.put(alloc, "m", b"xyz"), Ok(()));
    assert_eq!(rt; folder.get("m"), Some(b"xyz".as_slice()));
    assert_eq!(rt; folder.get("g"), Some(b"abc".as_slice()));
    Ok(())
}

#[test]
fn sinks_in_memory_keep_what_they_took(rt: HostRuntime) -> Result<(), Fail> {
    let alloc = rt.alloc();
    let mut planned = SinkMem::new(alloc, &[2])?;
    let mut sure = SinkSure::new(alloc);
    assert_eq!(rt; planned.write(b"ab"), Ok(()));
    assert_eq!(rt; planned.write(b"c"), Err(SinkFault::Failed));
    assert_eq!(rt; planned.write(b"d"), Ok(()));
    assert_eq!(rt; planned.written(), b"abd".as_slice());
    assert_eq!(rt; planned.faults(), 1);
    assert_eq!(rt; sure.write(b"ab"), Ok(()));
    assert_eq!(rt; sure.write(b"c"), Ok(()));
    assert_eq!(rt; sure.written(), b"abc".as_slice());
    Ok(())
}

#[test]
fn the_working_folder_gives_back_what_was_put(rt: HostRuntime) -> Result<(), Fail> {
    let alloc = rt.alloc();
    let mut folder = FolderDisk::new(rt.clone()?, alloc);
    assert_eq!(rt;
        folder.put(alloc, "folder_io_put_and_taken", b"some text"),
        Ok(())
    );
    assert_eq!(rt;
        folder.put(alloc, "folder_io_put_and_taken", b"text"),
        Ok(())
    );
    let taken = folder.take(alloc, "folder_io_put_and_taken", 4);
    let long = folder.take(alloc, "folder_io_put_and_taken", 3);
    fs::remove_file(&rt, "folder_io_put_and_taken")?;
    assert_eq!(rt; taken?.as_slice(), b"text".as_slice());
    assert_eq!(rt; long.err(), Some(TakeFault::TooLong));
    assert_eq!(rt;
        folder.take(alloc, "folder_io_put_and_taken", 4).err(),
        Some(TakeFault::Missing)
    );
    assert_eq!(rt; folder.faults(), 0);
    assert_eq!(rt;
        folder.put(alloc, "folder_io_absent/m", b"text"),
        Err(PutFault::Failed)
    );
    assert_eq!(rt; folder.faults(), 1);
    assert_eq!(rt; folder.last(), "folder_io_absent/m");
    assert_eq!(rt; folder.reason(), Some(ErrorKind::NotFound));
    Ok(())
}

#[test]
fn a_put_leaves_a_link_a_link(rt: HostRuntime) -> Result<(), Fail> {
    let mut folder = FolderDisk::new(rt.clone()?, rt.alloc());
    symlink(&rt, "folder_io_fresh", "folder_io_link")?;
    let fresh = folder.put(rt.alloc(), "folder_io_link", b"fresh");
    let again = folder.put(rt.alloc(), "folder_io_link", b"again");
    let taken = folder.take(rt.alloc(), "folder_io_fresh", 9);
    let link = fs::symlink_metadata(&rt, "folder_io_link")?;
    fs::remove_file(&rt, "folder_io_link")?;
    fs::remove_file(&rt, "folder_io_fresh")?;
    assert_eq!(rt; (fresh, again), (Ok(()), Ok(())));
    assert_eq!(rt; taken?.as_slice(), b"again".as_slice());
    assert!(rt; link.is_symlink());
    Ok(())
}

#[test]
fn a_put_that_fails_leaves_nothing_beside(rt: HostRuntime) -> Result<(), Fail> {
    let mut folder = FolderDisk::new(rt.clone()?, rt.alloc());
    fs::create_dir(&rt, "folder_io_dir")?;
    let on_folder = folder.put(rt.alloc(), "folder_io_dir", b"text");
    let full = folder.put(rt.alloc(), "/dev/full", b"text");
    fs::remove_dir(&rt, "folder_io_dir")?;
    assert_eq!(rt; on_folder, Err(PutFault::Failed));
    assert_eq!(rt; full, Err(PutFault::Failed));
    assert!(rt; !fs::exists(&rt, ".netmesh-0")?);
    Ok(())
}

#[test]
fn a_folder_taken_as_a_file_fails_and_is_counted(rt: HostRuntime) -> Result<(), Fail> {
    let alloc = rt.alloc();
    let mut folder = FolderDisk::new(rt.clone()?, alloc);
    assert_eq!(rt; folder.take(alloc, ".", 9).err(), Some(TakeFault::Failed));
    assert_eq!(rt; folder.faults(), 1);
    assert_eq!(rt; folder.last(), ".");
    Ok(())
}

#[test]
fn standard_output_takes_a_text(rt: HostRuntime) -> Result<(), Fail> {
    let mut out = SinkStd::new(rt.clone()?);
    assert_eq!(rt; out.write(b"a text for standard output\n"), Ok(()));
    assert_eq!(rt; out.faults(), 0);
    Ok(())
}
