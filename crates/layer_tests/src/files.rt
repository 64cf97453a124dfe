//! A chip in a real file, what is refused as one, and a chip that isn't there.
use crate::chip_calls::{ends, erases, programs};
use chip_image::{AttachFault, FileChip, NoChip};
use chip_trait::Chip;
use std::alloc::Global;
use std::fs::File;
use std::io::{Read, Seek, SeekFrom};
use std::os::unix;
use std::test::Fail;
use std::{env, fs, process};

/// The path of a new folder of this process for a test.
fn new_folder(rt: &HostRuntime, alloc: Global, test: &str) -> Result<String, Fail> {
    let name = format!(in alloc; "chip_image-{}-{test}", process::id(rt.process()))?;
    let path = String::from_str(
        alloc,
        env::temp_dir(rt)?.join(alloc, name.as_str())?.as_str(),
    )?;
    fs::create_dir(rt, path.as_str())?;
    Ok(path)
}

#[test]
fn a_file_keeps_what_was_programmed(rt: HostRuntime) -> Result<(), Fail> {
    let alloc = rt.alloc();
    let folder = new_folder(&rt, alloc, "keeps")?;
    let path = format!(in alloc; "{folder}/chip")?;
    let path = path.as_str();

    let mut chip = FileChip::attach(&rt, alloc, path, 5)?;
    assert_eq!(rt; ends(&rt, &mut chip, 4, 255), Some((255, 255)));
    assert!(rt; programs(&rt, &mut chip, 1, 3, 7));
    assert!(rt; programs(&rt, &mut chip, 1, 4, 8));
    assert!(rt; programs(&rt, &mut chip, 2, 0, 9));
    assert!(rt; chip.barrier().is_ok());
    drop(chip);

    // The sector stands where any other program finds it.
    let mut file = File::open(&rt, path)?;
    assert_eq!(rt; file.metadata()?.len(), 5 * 131072);
    let mut bytes = [0; 2];
    file.seek(SeekFrom::Start((256 + 4) * 512 - 1))?;
    file.read_exact(&mut bytes)?;
    assert_eq!(rt; bytes, [7, 8]);

    let mut chip = FileChip::attach(&rt, alloc, path, 5)?;
    assert_eq!(rt; ends(&rt, &mut chip, 1, 3), Some((7, 7)));
    assert!(rt; erases(&rt, &mut chip, 1));
    assert_eq!(rt; ends(&rt, &mut chip, 1, 3), Some((255, 255)));
    assert_eq!(rt; ends(&rt, &mut chip, 2, 0), Some((9, 9)));

    // A file that loses its end under the chip.
    File::options().write(true).open(&rt, path)?.set_len(512)?;
    assert_eq!(rt; ends(&rt, &mut chip, 4, 255), None);
    drop(chip);
    fs::remove_dir_all(&rt, folder.as_str())?;
    Ok(())
}

#[test]
fn what_is_no_chip_file_stays_as_it_is(rt: HostRuntime) -> Result<(), Fail> {
    let alloc = rt.alloc();
    let folder = new_folder(&rt, alloc, "refuses")?;
    fs::write(&rt, format!(in alloc; "{folder}/short")?.as_str(), "short")?;
    unix::fs::symlink(
        &rt,
        "nowhere",
        format!(in alloc; "{folder}/dangling")?.as_str(),
    )?;
    // Its other name leads elsewhere.
    unix::fs::symlink(
        &rt,
        "short",
        format!(in alloc; "{folder}/led.ipl-new")?.as_str(),
    )?;

    for name in ["short", "short/below", "absent/chip", "", "dangling", "led"] {
        let path = format!(in alloc; "{folder}/{name}")?;
        let chip = FileChip::attach(&rt, alloc, path.as_str(), 5);
        assert!(rt; matches!(chip, Err(AttachFault::NoFile)), "{}", name);
    }
    let short = fs::read_to_string(&rt, format!(in alloc; "{folder}/short")?.as_str())?;
    assert_eq!(rt; short.as_str(), "short");
    for name in ["absent", "nowhere", "dangling.ipl-new", "led"] {
        let path = format!(in alloc; "{folder}/{name}")?;
        assert!(rt; !fs::exists(&rt, path.as_str())?, "{}", name);
    }
    fs::remove_dir_all(&rt, folder.as_str())?;
    Ok(())
}

#[test]
fn one_has_a_file_at_a_time(rt: HostRuntime) -> Result<(), Fail> {
    let alloc = rt.alloc();
    let folder = new_folder(&rt, alloc, "locks")?;
    let path = format!(in alloc; "{folder}/chip")?;
    let path = path.as_str();
    let unfinished = format!(in alloc; "{folder}/chip.ipl-new")?;
    let unfinished = unfinished.as_str();

    // Another makes it.
    let maker = File::create_new(&rt, unfinished)?;
    maker.lock()?;
    let early = FileChip::attach(&rt, alloc, path, 5);
    assert!(rt; matches!(early, Err(AttachFault::NoFile)));
    assert!(rt; fs::exists(&rt, unfinished)? && !fs::exists(&rt, path)?);
    maker.set_len(1000)?;
    drop(maker);

    // It was stopped, and what it left is replaced.
    let chip = FileChip::attach(&rt, alloc, path, 5)?;
    assert!(rt; !fs::exists(&rt, unfinished)?);
    assert_eq!(rt; fs::metadata(&rt, path)?.len(), 5 * 131072);

    // One has it, by whatever name.
    let link = format!(in alloc; "{folder}/link")?;
    unix::fs::symlink(&rt, "chip", link.as_str())?;
    for name in [path, link.as_str()] {
        let second = FileChip::attach(&rt, alloc, name, 5);
        assert!(rt; matches!(second, Err(AttachFault::NoFile)), "{}", name);
    }
    drop(chip);
    let linked = FileChip::attach(&rt, alloc, link.as_str(), 5);
    assert!(rt; linked.is_ok());
    drop(linked);
    let other_length = FileChip::attach(&rt, alloc, path, 6);
    assert!(rt; matches!(other_length, Err(AttachFault::NoFile)));
    assert_eq!(rt; fs::metadata(&rt, path)?.len(), 5 * 131072);
    fs::remove_dir_all(&rt, folder.as_str())?;
    Ok(())
}

#[test]
fn a_chip_that_is_not_there_fails(rt: HostRuntime) {
    let mut chip = NoChip::of(5);
    assert_eq!(rt; chip.units(), 5);
    assert_eq!(rt; ends(&rt, &mut chip, 0, 0), None);
    assert!(rt; !programs(&rt, &mut chip, 0, 0, 7));
    assert!(rt; !erases(&rt, &mut chip, 0));
    assert!(rt; chip.barrier().is_err());
}
