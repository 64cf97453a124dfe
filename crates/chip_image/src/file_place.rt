//! The bytes of a chip in its file: one sector after another, one place after another.
ghost use Rattle.std.specs.Prelude.{◌≡◌, ◌<◌, length, All, IfOk};
ghost use Rattle.std.specs.Io.Seek.{MovesTo};
ghost use Rattle.chip_image.specs.Places.{sector_start, chip_length};

use std::alloc::{AllocError, Global};
use std::io;
use std::io::{Read, Seek, SeekFrom, Write};

/// The bytes of a place.
pub(crate) const PLACE: usize = 131072;

/// The bytes of a chip.
pub(crate) fn length_of(places: u32) -> u64
    ensures { result ≡ chip_length places }
{
    u64::from(places) * PLACE as u64
}

/// So many bytes FF.
pub(crate) fn blank_bytes(alloc: Global, count: usize) -> Result<Vec<u8>, AllocError>
    ensures count { IfOk result (λ bytes. length bytes.items ≡ count) }
    ensures value { IfOk result (λ bytes. All (λ byte. byte ≡ 255) bytes.items) }
{
    vec![in alloc; 0xFF; count]
}

/// Goes to where a sector begins.
fn go_to<F: Seek>(file: &mut F, p: u32, s: u32) -> io::Result<()>
    ensures { MovesTo (F.stream_position file.old) (F.stream_position file.new)
        (sector_start p s) result }
{
    let start = (u64::from(p) * 256 + u64::from(s)) * 512;
    file.seek(SeekFrom::Start(start))?;
    Ok(())
}

/// Reads a sector. After an error the buffer holds anything.
pub(crate) fn read_sector<F: Read + Seek>(
    file: &mut F,
    p: u32,
    s: u32,
    into: &mut [u8; 512],
) -> io::Result<()> {
    go_to(file, p, s)?;
    file.read_exact(into)
}

/// Writes a sector, or the sectors from it on. After an error they hold anything.
pub(crate) fn write_sectors<F: Write + Seek>(
    file: &mut F,
    p: u32,
    s: u32,
    from: &[u8],
) -> io::Result<()> {
    go_to(file, p, s)?;
    file.write_all(from)
}
