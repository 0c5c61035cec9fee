ghost use Rattle.std.specs.Prelude.{◌≤◌, ◌^◌, IfErr, IfOk, OnErr, OnOk};
ghost use Rattle.devices.specs.Failures.{HaveFailed, IsCounted};
ghost use Rattle.devices.specs.Files.{IsOfFile, IsPut};

use crate::counted::Counted;
use crate::failures::FileFailures;
use crate::reading::{ReadFault, read_front};
use crate::sweeping::{ENDING, sweep};
use crate::writing::write_bytes;
use std::alloc::Global;
use std::fs::{Metadata, OpenFile, OpenOptions, Permissions};
use std::io::{ErrorKind, Read};
use std::os::unix::fs::{MetadataExt, OpenOptionsExt, PermissionsExt};
use std::rt::Files;
use std::{fs, io};

// How many names are tried for a file beside.
const MOST_NAMES: u32 = 16;

// The permissions that are asked for a new file; the system takes away what the user gives to no file.
const NEW: u32 = 0o666;

// Those of a file's owner.
const OWNER: u32 = 0o700;

// Those of all, without a run's owner and group as the file's.
const ALL: u32 = 0o777;

// Those of all but the file's group.
const NO_GROUP: u32 = 0o707;

/// Why the bytes of a file aren't read.
#[derive(Drop)]
pub enum FileFault {
    /// It couldn't be opened.
    Open(io::Error),
    /// It was opened, and its bytes weren't read.
    Read(ReadFault),
}

/// The bytes of the file of this name, or the first so many of a longer one. A file that can't be opened or read is counted.
pub fn read_file<R: Files + AllocGlobal>(
    rt: &R,
    failures: &mut FileFailures,
    name: &str,
    most: usize,
) -> Result<Vec<u8>, FileFault>
    requires { (1 ≤ most) × (most ≤ 2 ^ 62) }
    ensures read { IfOk result (λ v. IsOfFile R.File.remaining most v.items) }
    ensures failed { IfErr result (IsCounted failures.new) }
{
    match fs::open(rt, name) {
        Ok(file) => read_opened(rt.alloc(), failures, file, most),
        Err(error) => {
            failures.add();
            Err(FileFault::Open(error))
        }
    }
}

// The bytes of a file that was opened.
fn read_opened<F: Read + Drop>(
    alloc: Global,
    failures: &mut FileFailures,
    file: F,
    most: usize,
) -> Result<Vec<u8>, FileFault>
    requires { (1 ≤ most) × (most ≤ 2 ^ 62) }
    ensures read { IfOk result (λ v. IsOfFile F.remaining most v.items) }
    ensures failed { IfErr result (IsCounted failures.new) }
{
    match read_front(alloc, &mut Counted::new(file), most) {
        Ok(bytes) => Ok(bytes),
        Err(ReadFault::Memory) => Err(FileFault::Read(ReadFault::Memory)),
        Err(ReadFault::Device) => {
            failures.add();
            Err(FileFault::Read(ReadFault::Device))
        }
    }
}

/// Writes a file as `put_file` does. One that isn't written is counted.
pub fn put_counted<R: Files + AllocGlobal>(
    rt: &R,
    failures: &mut FileFailures,
    name: &str,
    bytes: &[u8],
) -> io::Result<()>
    ensures put { OnOk result (IsPut R.File.contents bytes.now) }
    ensures failed { OnErr result (HaveFailed failures.new) }
{
    let put = put_file(rt, name, bytes);
    if put.is_err() {
        failures.add();
    }
    put
}

/// Writes a file of this name with these bytes, in place of what it held: it has all of them, or what it had before.
/// The contract says that some file of the runtime has got them; which one stands under the name no call of it tells.
///
/// The bytes go to a file beside it that is made anew, and which then takes its name. Nothing that stands at the file
/// beside is followed or written to; a link of the name itself is replaced. Nobody may do more with the file than
/// before. What is no regular file, or stands in /dev or /proc, is written as it stands.
///
/// A file beside that was left by a run that was killed is removed by the next run that writes a file of the name, if
/// that file belongs to the same user, and no process of its number is there.
///
/// What the standard library's files can't do: nothing waits for the disk, so after a loss of power the file can be
/// shorter. And where a run in a container of its own writes a file of this name in the same folder, one of the two can
/// fail, or, where both have one process number, take the other's file.
pub fn put_file<R: Files + AllocGlobal>(rt: &R, name: &str, bytes: &[u8]) -> io::Result<()>
    ensures { OnOk result (IsPut R.File.contents bytes.now) }
{
    let stands = fs::metadata(rt, name).ok();
    if is_device(name, stands.as_ref()) {
        return write_bytes(&mut Counted::new(fs::create(rt, name)?), bytes);
    }
    let process = process_number(rt)?;
    let (part, file) = make_beside(rt, name, process.as_str(), stands.as_ref())?;
    if !process.is_empty() {
        let _swept = sweep_beside(rt, name, &file);
    }
    let put = fill_and_rename(rt, part.as_str(), file, name, bytes);
    if put.is_err() {
        let _removed = fs::remove_file(rt, part.as_str());
    }
    put
}

// Whether what stands there is written as it stands.
fn is_device(name: &str, stands: Option<&Metadata>) -> bool {
    if name.starts_with("/dev/") || name.starts_with("/proc/") {
        return true;
    }
    match stands {
        Some(metadata) => !metadata.is_file(),
        None => false,
    }
}

// Removes what runs that were killed have left. What can't be removed stays, and hinders nothing.
fn sweep_beside<R: Files + AllocGlobal>(rt: &R, name: &str, file: &R::File) -> io::Result<()> {
    let own = file.metadata()?;
    sweep(rt, name, &own)
}

fn fill_and_rename<R: Files>(
    rt: &R,
    part: &str,
    file: R::File,
    name: &str,
    bytes: &[u8],
) -> io::Result<()>
    ensures { OnOk result (IsPut R.File.contents bytes.now) }
{
    write_bytes(&mut Counted::new(file), bytes)?;
    fs::rename(rt, part, name)
}

// A new file beside that of this name, and what it is called: by the number of this process, so no other run that is
// alive calls its own so. Where the number isn't known, or the name can't be freed, further names are tried.
fn make_beside<R: Files + AllocGlobal>(
    rt: &R,
    name: &str,
    process: &str,
    stands: Option<&Metadata>,
) -> io::Result<(String, R::File)> {
    let owned = !process.is_empty();
    for number in 0..MOST_NAMES {
        let part = format!(in rt.alloc(); "{name}.{process}.{number}{ENDING}")?;
        match make_anew(rt, part.as_str(), owned, stands) {
            Ok(file) => return Ok((part, file)),
            Err(error) => {
                if error.kind() != ErrorKind::AlreadyExists {
                    return Err(error);
                }
            }
        }
    }
    Err(io::Error::from(ErrorKind::AlreadyExists))
}

// The number of this process, as text; nothing, where the system doesn't tell it.
fn process_number<R: Files + AllocGlobal>(rt: &R) -> io::Result<String> {
    match fs::read_link(rt, "/proc/self") {
        Ok(path) => Ok(path.into_string()),
        Err(error) => {
            if error.kind() == ErrorKind::OutOfMemory {
                return Err(error);
            }
            Ok(String::new(rt.alloc()))
        }
    }
}

// A file of this name that is made anew. Where something stands there it is refused, or, if such names are owned, it is
// removed first: of a link the link itself, and no folder.
fn make_anew<R: Files>(
    rt: &R,
    part: &str,
    owned: bool,
    stands: Option<&Metadata>,
) -> io::Result<R::File> {
    match make(rt, part, stands) {
        Ok(file) => Ok(file),
        Err(error) => {
            let taken = error.kind() == ErrorKind::AlreadyExists;
            if taken && owned && fs::remove_file(rt, part).is_ok() {
                return make(rt, part, stands);
            }
            Err(error)
        }
    }
}

// Makes a file that nobody may do more with than with the one that stands.
fn make<R: Files>(rt: &R, part: &str, stands: Option<&Metadata>) -> io::Result<R::File> {
    let mut options = OpenOptions::new();
    options.write(true).create_new(true);
    let Some(metadata) = stands else {
        options.mode(NEW);
        return options.open(rt, part);
    };
    options.mode(metadata.mode() & OWNER);
    let file = options.open(rt, part)?;
    let _given = give_permissions(&file, metadata);
    Ok(file)
}

// Gives a file the permissions of another one; those of its group only if that is the same.
fn give_permissions<F: OpenFile>(file: &F, metadata: &Metadata) -> io::Result<()> {
    let same = file.metadata()?.gid() == metadata.gid();
    let kept = if same { ALL } else { NO_GROUP };
    file.set_permissions(Permissions::from_mode(metadata.mode() & kept))
}
