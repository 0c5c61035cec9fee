use std::fs::Metadata;
use std::os::unix::fs::MetadataExt;
use std::rt::Files;
use std::{fs, io};

/// How the name of a file beside ends.
pub const ENDING: &str = ".part";

/// Removes the files beside that runs which were killed have left for a file of this name: those that have the number of
/// a process that isn't there, and the owner of this own file beside. What is no regular file, as a link, stays.
pub fn sweep<R: Files + AllocGlobal>(rt: &R, name: &str, own: &Metadata) -> io::Result<()> {
    let (folder, last) = match name.rsplit_once('/') {
        Some(("", last)) => ("/", last),
        Some((folder, last)) => (folder, last),
        None => (".", name),
    };
    for entry in fs::read_dir(&rt, folder)? {
        if let Ok(entry) = entry {
            sweep_entry(rt, last, entry.file_name(), entry.path().as_str(), own)?;
        }
    }
    Ok(())
}

// Removes the file of this name and path if it was left.
fn sweep_entry<R: Files + AllocGlobal>(
    rt: &R,
    last: &str,
    name: &str,
    path: &str,
    own: &Metadata,
) -> io::Result<()> {
    let Some(process) = process_of(last, name) else {
        return Ok(());
    };
    let process = format!(in rt.alloc(); "/proc/{process}")?;
    if fs::exists(rt, process.as_str())? {
        return Ok(());
    }
    let left = fs::symlink_metadata(rt, path)?;
    if left.is_file() && left.uid() == own.uid() {
        fs::remove_file(rt, path)?;
    }
    Ok(())
}

// The number of the process in the name of a file beside one whose name ends so; None, where it is no such name.
fn process_of<'a>(last: &str, name: &'a str) -> Option<&'a str> {
    let numbers = name
        .strip_prefix(last)?
        .strip_prefix('.')?
        .strip_suffix(ENDING)?;
    let (process, number) = numbers.split_once('.')?;
    if is_number(process) && is_number(number) {
        Some(process)
    } else {
        None
    }
}

fn is_number(text: &str) -> bool {
    for byte in text.as_bytes() {
        if !byte.is_ascii_digit() {
            return false;
        }
    }
    !text.is_empty()
}
