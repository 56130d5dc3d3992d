//! Files taken and put, with the refusals of the program.

ghost use Rattle.std.specs.Prelude.{◌≡◌, ◌≤◌, ◌⊎◌, ◌++◌, [], map, IfOk, IfErr, OnOk, OnErr};
ghost use Rattle.std.specs.FinMap as finite;
ghost use Rattle.folder_io.specs.Causes.{Told, ToldBoth};
ghost use Rattle.folder_io.specs.Names.{SameBut};
ghost use Rattle.netmesh_cli.specs.Causes.{HoldsWithin, FetchRefused, PutRefused, IsOf, IsMemory};
ghost use Rattle.netmesh_cli.specs.Causes.{AnswerRefused, AnswerLeaves};
ghost use Rattle.netmesh_cli.specs.Jobs.{put_of};
ghost use Rattle.netmesh_cli.specs.Served.{put_all, PutsRefused};

use super::Refusal;
use super::made::Put;
use folder_io::{Folder, PutFault, Sink, SinkFault, TakeFault};
use std::alloc::Global;
use word_scan::Name;

/// The refusal of a file by the folder.
fn folder_refusal(alloc: Global, name: &str, fault: u32) -> Refusal
    ensures { IsOf name.now fault result ⊎ IsMemory result }
{
    match name.as_bytes().to_vec(alloc) {
        Ok(bytes) => Refusal::Folder {
            name: Name::from_vec(bytes),
            fault,
        },
        Err(_) => Refusal::Memory,
    }
}

/// Takes the file of a name, of which it has at most `limit` bytes.
pub fn take<F: Folder>(
    alloc: Global,
    folder: &mut F,
    name: &str,
    limit: u64,
) -> Result<Vec<u8>, Refusal>
    ensures held { (F.state folder.new).held ≡ (F.state folder.old).held }
    ensures bytes { IfOk result (λ v. Told (F.state folder.old).held
        (λ files. HoldsWithin limit files name.now v.items)) }
    ensures refused { IfErr result
        (FetchRefused limit name.now (F.state folder.old) (F.state folder.new)) }
    ensures rises { (F.state folder.old).faults ≤ (F.state folder.new).faults }
{
    match folder.take(alloc, name, limit) {
        Ok(bytes) => Ok(bytes),
        Err(TakeFault::Failed) => Err(folder_refusal(alloc, name, 1)),
        Err(TakeFault::TooLong) => Err(folder_refusal(alloc, name, 2)),
        Err(TakeFault::Missing) => Err(folder_refusal(alloc, name, 3)),
        Err(TakeFault::Memory) => Err(Refusal::Memory),
    }
}

/// Puts the bytes under a name.
fn put<F: Folder>(alloc: Global, folder: &mut F, name: &str, bytes: &[u8]) -> Result<(), Refusal>
    ensures put { OnOk result (ToldBoth (F.state folder.old).held (F.state folder.new).held
        (λ old new. new ≡ finite.insert old name.now bytes.now)) }
    ensures others { OnErr result (ToldBoth (F.state folder.old).held (F.state folder.new).held
        (SameBut name.now)) }
    ensures refused { IfErr result (PutRefused name.now (F.state folder.old) (F.state folder.new)) }
    ensures rises { (F.state folder.old).faults ≤ (F.state folder.new).faults }
{
    match folder.put(alloc, name, bytes) {
        Ok(()) => Ok(()),
        Err(PutFault::Failed) => Err(folder_refusal(alloc, name, 1)),
        Err(PutFault::Memory) => Err(Refusal::Memory),
    }
}

/// Puts the files, one after another.
pub fn put_all<F: Folder>(alloc: Global, folder: &mut F, puts: &[Put<'_>]) -> Result<(), Refusal>
    ensures put { OnOk result (ToldBoth (F.state folder.old).held (F.state folder.new).held
        (λ old new. new ≡ put_all (map put_of puts.now) old)) }
    ensures none { puts.now ≡ [] → (F.state folder.new).held ≡ (F.state folder.old).held }
    ensures refused { IfErr result
        (PutsRefused (map put_of puts.now) (F.state folder.old) (F.state folder.new)) }
    ensures rises { (F.state folder.old).faults ≤ (F.state folder.new).faults }
{
    match puts {
        [] => Ok(()),
        [first, rest @ ..] => {
            put(alloc, folder, first.name, &first.bytes)?;
            put_all(alloc, folder, rest)
        }
    }
}

/// Writes an answer.
pub fn answer<O: Sink>(out: &mut O, bytes: &[u8]) -> Result<(), Refusal>
    ensures taken { OnOk result (ToldBoth (O.state out.old).written (O.state out.new).written
        (λ old new. new ≡ old ++ bytes.now)) }
    ensures refused { IfErr result (AnswerRefused (O.state out.old) (O.state out.new)) }
    ensures written { IfErr result (AnswerLeaves bytes.now
        (O.state out.old).written (O.state out.new).written) }
    ensures rises { (O.state out.old).faults ≤ (O.state out.new).faults }
{
    match out.write(bytes) {
        Ok(()) => Ok(()),
        Err(SinkFault::Failed) => Err(Refusal::Out),
        Err(SinkFault::Memory) => Err(Refusal::Memory),
    }
}
