use crate::failure::Failure;
use devices::put_file;
use std::os::unix::fs::symlink;
use std::rt::Files;
use std::{fs, io};

// How names of files beside end, and names that are almost such. There is a process 1, and none of the number 4194305,
// which is greater than the system gives.
const FILES: [&str; 6] = [
    "4194305.0.part",
    "4194305.15.part",
    "1.0.part",
    "+4194305.0.part",
    "4194305..part",
    "4194305.part",
];

// The end of the name of a link.
const LINK: &str = "4194305.1.part";

// That of a folder.
const FOLDER: &str = "4194305.2.part";

/// Puts a file where some stand as runs that were killed leave them, and others with names like theirs, and prints which
/// of them stay.
pub fn show_left<R: AllocGlobal + Print + Files>(
    rt: &R,
    plain: &str,
    bytes: &[u8],
) -> Result<(), Failure> {
    for ending in FILES {
        let name = format!(in rt.alloc(); "{plain}.{ending}")?;
        fs::write(rt, name.as_str(), "left")?;
    }
    let link = format!(in rt.alloc(); "{plain}.{LINK}")?;
    symlink(rt, "plain", link.as_str())?;
    let folder = format!(in rt.alloc(); "{plain}.{FOLDER}")?;
    fs::create_dir(rt, folder.as_str())?;
    put_file(rt, plain, bytes)?;
    show_stays(rt, plain)?;
    Ok(())
}

// Prints which names are still there.
fn show_stays<R: AllocGlobal + Print + Files>(rt: &R, plain: &str) -> io::Result<()> {
    for ending in FILES {
        show_stay(rt, plain, ending)?;
    }
    show_stay(rt, plain, LINK)?;
    show_stay(rt, plain, FOLDER)
}

fn show_stay<R: AllocGlobal + Print + Files>(rt: &R, plain: &str, ending: &str) -> io::Result<()> {
    let name = format!(in rt.alloc(); "{plain}.{ending}")?;
    let stays = fs::symlink_metadata(rt, name.as_str()).is_ok();
    println!(rt; "  {ending} stays: {stays}")
}
