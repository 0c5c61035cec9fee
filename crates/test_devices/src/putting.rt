use crate::failure::Failure;
use crate::leaving::show_left;
use devices::put_file;
use std::os::unix::fs::{PermissionsExt, symlink};
use std::rt::Files;
use std::{fs, io};

/// Puts a text into files of a new folder, which is removed then, and prints what stands there.
pub fn show_files<R: AllocGlobal + Print + Files>(
    rt: &R,
    folder: &str,
    text: &str,
) -> Result<(), Failure> {
    fs::create_dir(rt, folder)?;
    let shown = show_all(rt, folder, text);
    fs::remove_dir_all(rt, folder)?;
    shown
}

fn show_all<R: AllocGlobal + Print + Files>(
    rt: &R,
    folder: &str,
    text: &str,
) -> Result<(), Failure> {
    let plain = format!(in rt.alloc(); "{folder}/plain")?;
    let link = format!(in rt.alloc(); "{folder}/link")?;
    let bytes = text.as_bytes();
    show_put(rt, "new", plain.as_str(), bytes)?;
    show_put(rt, "again", plain.as_str(), b"again")?;
    fs::set_permissions(rt, plain.as_str(), fs::Permissions::from_mode(0o606))?;
    show_put(rt, "with permissions", plain.as_str(), bytes)?;
    show_mode(rt, plain.as_str())?;
    symlink(rt, "plain", link.as_str())?;
    show_put(rt, "a link", link.as_str(), b"no link")?;
    show_text(rt, "where it led", plain.as_str())?;
    show_beside(rt, plain.as_str(), link.as_str())?;
    show_left(rt, plain.as_str(), bytes)?;
    show_text(rt, "beside what was left", plain.as_str())?;
    show_put(rt, "a folder", folder, bytes)?;
    show_put(rt, "a device", "/dev/null", bytes)?;
    Ok(())
}

// Puts the bytes there, and prints whether that went well, and what the file has then.
fn show_put<R: AllocGlobal + Print + Files>(
    rt: &R,
    what: &str,
    name: &str,
    bytes: &[u8],
) -> io::Result<()> {
    match put_file(rt, name, bytes) {
        Ok(()) => show_text(rt, what, name),
        Err(_) => println!(rt; "  {what}: failed"),
    }
}

fn show_text<R: AllocGlobal + Print + Files>(rt: &R, what: &str, name: &str) -> io::Result<()> {
    let text = fs::read_to_string(rt, name)?;
    println!(rt; "  {what}: {text}")
}

fn show_mode<R: Print + Files>(rt: &R, name: &str) -> io::Result<()> {
    let mode = fs::metadata(rt, name)?.permissions().mode() & 0o777;
    println!(rt; "  permissions {mode:o}")
}

// Puts a file where at the first name for the file beside there is a link to another file, and at the second a folder.
fn show_beside<R: AllocGlobal + Print + Files>(
    rt: &R,
    plain: &str,
    other: &str,
) -> Result<(), Failure> {
    let process = fs::read_link(rt, "/proc/self")?.into_string();
    let part = format!(in rt.alloc(); "{plain}.{process}.0.part")?;
    symlink(rt, "link", part.as_str())?;
    show_put(rt, "beside a link", plain, b"whole")?;
    show_text(rt, "where that led", other)?;
    fs::create_dir(rt, part.as_str())?;
    show_put(rt, "beside a folder", plain, b"whole too")?;
    let next = format!(in rt.alloc(); "{plain}.{process}.1.part")?;
    let left = fs::exists(rt, next.as_str())?;
    println!(rt; "  left {left}")?;
    Ok(())
}
