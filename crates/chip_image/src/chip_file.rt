//! The file of a chip: one run has it at a time, and it is there whole or not at all.
ghost use Rattle.std.specs.Prelude.{IfOk};
ghost use Rattle.chip_image.specs.Descriptors.{IsApart};

use crate::file_chip::AttachFault;
use crate::file_place::length_of;
use std::alloc::Global;
use std::fs::File;
use std::io::{ErrorKind, Write};
use std::os::fd::AsRawFd;
use std::os::unix::fs::MetadataExt;
use std::rt::Files;
use std::{fs, io};

/// What a file's name has behind it until the file is whole.
const UNFINISHED: &str = ".ipl-new";

/// Opens the file of a chip, for reading alone where nothing is to be written, or makes it where it
/// isn't there.
pub(crate) fn open_or_make<R: Files<File = File>>(
    files: &R,
    alloc: Global,
    path: &str,
    places: u32,
    blank: &[u8],
    writes: bool,
) -> Result<File, AttachFault>
    ensures { IfOk result IsApart }
{
    // To open a pipe or a device may wait for others, and may do something by itself.
    match fs::metadata(files, path) {
        Ok(found) if found.is_file() => take(files, path, places, writes),
        Err(fault) if fault.kind() == ErrorKind::NotFound => {
            make(files, alloc, path, places, blank)
        }
        _ => Err(AttachFault::NoFile),
    }
}

/// Takes a file that was there, of which all is sure to last that is read from now on.
fn take<R: Files<File = File>>(
    files: &R,
    path: &str,
    places: u32,
    writes: bool,
) -> Result<File, AttachFault>
    ensures { IfOk result IsApart }
{
    let file = File::options().read(true).write(writes).open(files, path)?;
    let file = reserve(file, writes)?;
    if file.metadata()?.len() != length_of(places) {
        return Err(AttachFault::NoFile);
    }
    // What a run wrote that was killed before its barrier is in the system's cache alone.
    file.sync_all()?;
    // The run that made it may have been killed before its name was sure to last. A folder that
    // can't be opened to be read keeps nobody from the file.
    if let Ok(folder) = File::open(files, folder_of(path)) {
        folder.sync_all()?;
    }
    Ok(file)
}

/// Keeps other runs out of an open file, and the file apart from the streams of the process.
fn reserve(file: File, writes: bool) -> Result<File, AttachFault>
    ensures { IfOk result IsApart }
{
    // Where a standard stream is closed, the file has its number; a copy's number is 3 or more.
    let file = file.try_clone()?;
    if file.as_raw_fd() < 3 || !is_locked(&file, writes) {
        return Err(AttachFault::NoFile);
    }
    Ok(file)
}

/// Locks an open file, if no other run has it. Those that only read it share it.
fn is_locked(file: &File, writes: bool) -> bool {
    if writes {
        file.try_lock().is_ok()
    } else {
        file.try_lock_shared().is_ok()
    }
}

/// Makes the file of an erased chip, under another name until it is whole.
fn make<R: Files<File = File>>(
    files: &R,
    alloc: Global,
    path: &str,
    places: u32,
    blank: &[u8],
) -> Result<File, AttachFault>
    ensures { IfOk result IsApart }
{
    let mut unfinished = String::from_str(alloc, path)?;
    unfinished.push_str(UNFINISHED)?;
    let unfinished = unfinished.as_str();
    let folder = File::open(files, folder_of(path))?;
    remove_leftover(files, unfinished)?;
    let file = reserve(File::create_new(files, unfinished)?, true)?;
    // Another run may have taken it for a leftover before the lock, and made a file of its own.
    if !stands_at(files, &file, unfinished)? {
        return Err(AttachFault::NoFile);
    }
    if let Err(fault) = finish(files, &file, unfinished, path, places, blank) {
        // Whoever makes the file next removes what can't be removed now.
        let _ = fs::remove_file(files, unfinished);
        return Err(AttachFault::from(fault));
    }
    folder.sync_all()?;
    Ok(file)
}

/// Fills the file, and gives it its name, unless something has that name by now.
fn finish<R: Files<File = File>>(
    files: &R,
    file: &File,
    unfinished: &str,
    path: &str,
    places: u32,
    blank: &[u8],
) -> io::Result<()> {
    // Another run may have made it meanwhile; and a link that leads nowhere would be replaced.
    match fs::symlink_metadata(files, path) {
        Err(fault) if fault.kind() == ErrorKind::NotFound => {}
        Err(fault) => return Err(fault),
        Ok(_) => return Err(io::Error::from(ErrorKind::AlreadyExists)),
    }
    fill(file, places, blank)?;
    fs::rename(files, unfinished, path)
}

/// Writes the erased places, and waits until they are sure to last.
fn fill(mut file: &File, places: u32, blank: &[u8]) -> io::Result<()> {
    for _ in 0..places {
        file.write_all(blank)?;
    }
    file.sync_all()
}

/// Removes what a run left that was stopped while it made the file. What is still being made stays.
fn remove_leftover<R: Files<File = File>>(files: &R, path: &str) -> Result<(), AttachFault> {
    let leftover = match File::options().read(true).write(true).open(files, path) {
        Ok(leftover) => leftover,
        Err(fault) if fault.kind() == ErrorKind::NotFound => return Ok(()),
        Err(_) => return Err(AttachFault::NoFile),
    };
    // A link is no leftover, and what it leads to isn't touched.
    if leftover.try_lock().is_err() || !stands_at(files, &leftover, path)? {
        return Err(AttachFault::NoFile);
    }
    Ok(fs::remove_file(files, path)?)
}

/// Whether the path names this open file itself, and no other one or a link.
fn stands_at<R: Files<File = File>>(files: &R, file: &File, path: &str) -> io::Result<bool> {
    let (open, named) = (file.metadata()?, fs::symlink_metadata(files, path)?);
    Ok(open.dev() == named.dev() && open.ino() == named.ino())
}

/// The folder in which the path's file stands.
fn folder_of(path: &str) -> &str {
    match path.rsplit_once('/') {
        Some(("", _)) => "/",
        Some((folder, _)) => folder,
        None => ".",
    }
}
