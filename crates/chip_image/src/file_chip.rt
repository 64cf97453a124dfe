//! A chip that is kept in a file.
ghost use Rattle.std.specs.Prelude.{◌≡◌, IfOk};

use crate::chip_file::open_or_make;
use crate::file_place::{PLACE, blank_bytes, read_sector, write_sectors};
use chip_mem::Faults;
use chip_trait::{Chip, Failed, Wear};
use std::alloc::{AllocError, Global};
use std::fs::File;
use std::io;
use std::rt::Files;
use thiserror::Error;

/// Why no chip can be had.
#[derive(Clone, Copy, Debug, PartialEq, Eq, Error)]
pub enum AttachFault {
    #[error("no such chip file")]
    NoFile,
    #[error("out of memory")]
    OutOfMemory,
}

impl From<AllocError> for AttachFault {
    ghost use Rattle.chip_image.specs.declared.file_chip.AttachFault.TheVariants.{OutOfMemory};

    ghost from_gives = { λ fault made. made ≡ OutOfMemory };

    fn from(_fault: AllocError) -> AttachFault {
        AttachFault::OutOfMemory
    }
}

impl From<io::Error> for AttachFault {
    ghost use Rattle.chip_image.specs.declared.file_chip.AttachFault.TheVariants.{NoFile};

    ghost from_gives = { λ fault made. made ≡ NoFile };

    fn from(_fault: io::Error) -> AttachFault {
        AttachFault::NoFile
    }
}

/// A chip in a file. It counts what fails, and tells nothing of what it holds.
#[derive(Drop)]
pub struct FileChip {
    places: u32,
    file: File,
    // What an erased place holds.
    blank: Vec<u8>,
    faults: Faults,
}

impl FileChip {
    ghost use Rattle.chip_mem.specs.Tells.{none_yet};
    ghost use Rattle.chip_image.specs.Tells.{file_told_of, telling_faults};
    ghost use Rattle.chip_image.specs.Descriptors.{HasFileApart};

    /// The chip of so many places in the file at this path, which has 131,072 bytes for each of
    /// them. It is locked while the chip is there, and synced before it is read. A file that isn't
    /// there is made: filled with bytes FF under the path with `.ipl-new` behind it, synced and
    /// renamed, and its folder is synced. A leftover of that name is replaced.
    ///
    /// `NoFile`: another run has the file or is making it; it is a folder, a pipe or a device, can't
    /// be opened for reading and writing, has another length, or can't be synced; it can't be made,
    /// or the path is a link that leads nowhere. A file that was there isn't written, and of one
    /// that can't be filled nothing is left.
    /// `OutOfMemory`: the bytes of an erased place or of the other name can't be had.
    pub fn attach<R: Files<File = File>>(
        files: &R,
        alloc: Global,
        path: &str,
        places: u32,
    ) -> Result<FileChip, AttachFault>
        ensures tells { IfOk result (λ chip. file_told_of chip ≡ telling_faults places none_yet) }
        // Its file is none of the standard streams.
        ensures apart { IfOk result HasFileApart }
    {
        FileChip::attached(files, alloc, path, places, true)
    }

    /// The same, of which a file that is there is opened for reading alone: each write of the chip
    /// fails then. One that may only be read can be had so, and the lock is shared with others that
    /// have the file so.
    pub fn attach_to_read<R: Files<File = File>>(
        files: &R,
        alloc: Global,
        path: &str,
        places: u32,
    ) -> Result<FileChip, AttachFault>
        ensures tells { IfOk result (λ chip. file_told_of chip ≡ telling_faults places none_yet) }
        ensures apart { IfOk result HasFileApart }
    {
        FileChip::attached(files, alloc, path, places, false)
    }

    /// The chip in a file that is opened for writing too, or for reading alone.
    fn attached<R: Files<File = File>>(
        files: &R,
        alloc: Global,
        path: &str,
        places: u32,
        writes: bool,
    ) -> Result<FileChip, AttachFault>
        ensures tells { IfOk result (λ chip. file_told_of chip ≡ telling_faults places none_yet) }
        ensures apart { IfOk result HasFileApart }
    {
        let blank = blank_bytes(alloc, PLACE)?;
        let file = open_or_make(files, alloc, path, places, &blank, writes)?;
        Ok(FileChip {
            places,
            file,
            blank,
            faults: Faults::new(),
        })
    }
}

impl Chip for FileChip {
    ghost use Rattle.std.specs.Prelude.{◌<◌};
    ghost use Rattle.chip_trait.specs.declared.wear.Wear.TheVariants.{Done};
    ghost use Rattle.chip_image.specs.Tells.{file_told_of, faults_consistently, AfterRead, AfterWrite};

    ghost told = { file_told_of };

    ghost consistent = { λ chip. faults_consistently chip.places chip.faults };

    fn units(&self) -> u32 {
        self.places
    }

    fn read(&mut self, p: u32, s: u32, into: &mut [u8; 512]) -> Result<(), Failed>
        requires place { p < (file_told_of self.old).places }
        requires sector { s < 256 }
        ensures { AfterRead result (file_told_of self.old) (file_told_of self.new) }
    {
        if read_sector(&mut self.file, p, s, into).is_err() {
            self.faults.count_read();
            return Err(Failed);
        }
        Ok(())
    }

    fn program(&mut self, p: u32, s: u32, from: &[u8; 512]) -> Result<(), Failed>
        requires place { p < (file_told_of self.old).places }
        requires sector { s < 256 }
        ensures { AfterWrite result (file_told_of self.old) (file_told_of self.new) }
    {
        if write_sectors(&mut self.file, p, s, from).is_err() {
            self.faults.count_write();
            return Err(Failed);
        }
        Ok(())
    }

    /// It finds no place worn.
    fn erase(&mut self, p: u32) -> Result<Wear, Failed>
        requires { p < (file_told_of self.old).places }
        ensures changes { AfterWrite result (file_told_of self.old) (file_told_of self.new) }
        ensures done { IfOk result (λ wear. wear ≡ Done) }
    {
        if write_sectors(&mut self.file, p, 0, &self.blank).is_err() {
            self.faults.count_write();
            return Err(Failed);
        }
        Ok(Wear::Done)
    }

    fn barrier(&mut self) -> Result<(), Failed>
        ensures { AfterWrite result (file_told_of self.old) (file_told_of self.new) }
    {
        if self.file.sync_data().is_err() {
            self.faults.count_write();
            return Err(Failed);
        }
        Ok(())
    }
}
