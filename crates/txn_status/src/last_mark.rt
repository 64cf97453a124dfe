//! The close mark that counts.
ghost use Rattle.std.specs.Prelude.{◌≡◌, ◌≤◌, ◌<◌, nat_lt, ℕ, max, Bool, true, Option, Some, None, length};
ghost use Rattle.ipl_format.specs.Mark.{has_unit};
ghost use Rattle.ipl_format.specs.Sector.{Sector};
ghost use Rattle.sector_format.specs.Decode.{sector_of};
ghost use Rattle.ipl_meaning.specs.Chosen.{Winner};
ghost use Rattle.ipl_meaning.specs.Marked.{later_close_mark, is_marked_by};
ghost use Rattle.txn_status.specs.Marks.{MarksRead, none_read, counting, is_later};

use arrayvec::ArrayVec;
use sector_format::Head;
use std::marker::Model;
use unit_layout::has_unit;

/// A close mark: its head, and its payload of at most 132 bytes. A contract sees it as a sector.
#[derive(Drop)]
struct CloseMark {
    head: Head,
    payload: ArrayVec<u8, 132>,
}

impl Model for CloseMark {
    ghost use Rattle.std.specs.Prelude.{◌≤◌, length};
    ghost use Rattle.ipl_format.specs.Sector.{Sector};
    ghost use Rattle.sector_format.specs.Decode.{sector_of};

    ghost Value = { Sector };

    ghost view = { λ s. sector_of s.head s.payload.items };

    ghost invariant = { λ s. length s.payload.items ≤ 132 };
}

impl CloseMark {
    // The mark of this head and payload.
    fn of(head: &Head, payload: &[u8]) -> CloseMark
        requires { length payload.now ≤ 132 }
        ensures { result ≡ sector_of head.now payload.now }
    {
        let mut items = ArrayVec::new();
        let _ = items.try_extend_from_slice(payload);
        CloseMark {
            head: *head,
            payload: items,
        }
    }

    // Its serial.
    fn serial(&self) -> u64
        ensures { result ≡ self.now.serial }
    {
        self.head.serial
    }

    // Whether it has the unit.
    fn has(&self, unit: u32) -> bool
        ensures { result ≡ has_unit self.now.payload unit }
    {
        has_unit(self.payload.as_slice(), unit)
    }
}

/// The close mark that counts among the sectors of a status place that were read so far: the one
/// with the greatest serial, the first on a tie, where no commit sector has a greater one. It takes
/// no memory. A contract sees that mark and the greatest serial of a commit sector.
#[derive(Drop)]
pub struct LastMark {
    best: Option<CloseMark>,
    commits: u64,
}

impl Model for LastMark {
    ghost use Rattle.txn_status.specs.Marks.{MarksRead};

    ghost Value = { MarksRead };

    ghost view = { λ s. record { best = s.best; commits = s.commits } };
}

impl LastMark {
    /// Nothing was read yet.
    pub fn none() -> LastMark
        ensures { result ≡ none_read }
    {
        LastMark {
            best: None,
            commits: 0,
        }
    }

    /// Whether a mark counts, has the unit, and came behind a header of this serial.
    pub fn has(&self, unit: u32, serial: u64) -> bool
        ensures { (home : Winner) → home.head.serial ≡ serial
            → result ≡ is_marked_by (counting self.now) unit (Some home) }
    {
        match &self.best {
            None => false,
            Some(mark) => {
                self.commits <= mark.serial() && serial < mark.serial() && mark.has(unit)
            }
        }
    }

    /// Takes in a commit sector of this serial: from then on no mark of a lower serial counts.
    pub(crate) fn take_commit(&mut self, serial: u64)
        ensures { self.new ≡ record {
          best = self.old.best;
          commits = max self.old.commits serial;
        } }
    {
        self.commits = self.commits.max(serial);
    }

    // Whether a mark of this serial counts from now on.
    fn is_later(&self, serial: u64) -> bool
        ensures { result ≡ is_later self.now.best serial }
    {
        match &self.best {
            None => true,
            Some(mark) => mark.serial() < serial,
        }
    }

    /// Takes in a mark of this head and this payload, of at most 132 bytes: it is kept instead of
    /// the one before where its serial is greater, or where there was none.
    pub(crate) fn take_mark(&mut self, head: &Head, payload: &[u8])
        requires { length payload.now ≤ 132 }
        ensures { self.new ≡ record {
          best = later_close_mark self.old.best (Some (sector_of head.now payload.now));
          commits = self.old.commits;
        } }
    {
        if self.is_later(head.serial) {
            self.best = Some(CloseMark::of(head, payload));
        }
    }
}
