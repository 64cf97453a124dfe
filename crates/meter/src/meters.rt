//! The last reading of each meter, over a chip.
ghost use Rattle.std.specs.Prelude.{IfOk};
ghost use Rattle.ipl_store.specs.Calls.{IsSound};
ghost use Rattle.ipl_store.specs.Memories.{IsMemory};
ghost use Rattle.meter.specs.Sound.{IsSoundFor};

use crate::reading::Reading;
use anyhow::bail;
use chip_trait::Chip;
use ipl_base::Geometry;
use ipl_keys::{KeyFault, Keys};
use ipl_store::Memory;
use std::alloc::Global;

/// The keys of a chip that is opened in memory that is lent.
fn opened<C: Chip>(memory: Memory, chip: &mut C) -> anyhow::Result<Keys>
    requires { IsMemory memory }
    ensures { IfOk result (λ keys. IsSound (C.told chip.new).places keys.store) }
{
    match Keys::open(memory, chip) {
        Ok(keys) => Ok(keys),
        Err(unopened) => bail!("{}", unopened.fault),
    }
}

/// A store of keys, one for each meter, with session 0 open; and how many readings wait for a commit.
#[derive(Drop)]
pub struct Meters {
    keys: Keys,
    pending: u32,
}

impl Meters {
    /// Memory for a chip of so many places: for four of its pages, one session, and as many committed
    /// numbers as a board of 128 KB has room for.
    pub fn memory(alloc: Global, places: u32) -> anyhow::Result<Memory>
        ensures { IfOk result IsMemory }
    {
        let Some(geometry) = Geometry::of(places) else {
            bail!("no number of places");
        };
        Ok(Memory::new(alloc, geometry, 4, 1, 1_500)?)
    }

    /// Opens a chip in memory that is lent: what was committed is there, and nothing else.
    pub fn open<C: Chip>(memory: Memory, chip: &mut C) -> anyhow::Result<Meters>
        requires { IsMemory memory }
        ensures { IfOk result (λ meters. IsSoundFor (C.told chip.new) meters) }
    {
        let mut keys = opened(memory, chip)?;
        keys.begin(chip, 0)?;
        Ok(Meters { keys, pending: 0 })
    }

    /// Puts a reading at its meter's key, and commits each fourth. It answers how many it committed.
    pub fn put<C: Chip>(&mut self, chip: &mut C, meter: &str, r: Reading) -> Result<u32, KeyFault>
        requires { IsSoundFor (C.told chip.old) self.old }
        ensures { IsSoundFor (C.told chip.new) self.new }
    {
        self.keys.put(chip, 0, meter.as_bytes(), &r.bytes())?;
        self.pending = self.pending.saturating_add(1);
        if self.pending < 4 {
            return Ok(0);
        }
        self.commit(chip)
    }

    /// Commits what was put since the last commit, all of it or nothing, and answers how many readings that were.
    pub fn commit<C: Chip>(&mut self, chip: &mut C) -> Result<u32, KeyFault>
        requires { IsSoundFor (C.told chip.old) self.old }
        ensures { IsSoundFor (C.told chip.new) self.new }
    {
        self.keys.commit(chip, 0)?;
        self.keys.begin(chip, 0)?;
        Ok(std::mem::replace(&mut self.pending, 0))
    }

    /// The last reading of a meter, if it has one.
    pub fn last<C: Chip>(&mut self, chip: &mut C, meter: &str) -> Result<Option<Reading>, KeyFault>
        requires { IsSoundFor (C.told chip.old) self.old }
        ensures { IsSoundFor (C.told chip.new) self.new }
    {
        let found = self.keys.get(chip, 0, meter.as_bytes())?;
        Ok(found.and_then(|bytes| Reading::of(bytes)))
    }

    /// Commits what was put since the last commit, closes the store in order, and gives its memory back.
    pub fn close<C: Chip>(mut self, chip: &mut C) -> Result<Memory, KeyFault>
        requires { IsSoundFor (C.told chip.old) self }
        ensures { IfOk result IsMemory }
    {
        self.keys.commit(chip, 0)?;
        self.keys.close(chip)?;
        Ok(self.keys.into_memory())
    }
}
