//! What a directory has left.
ghost use Rattle.std.specs.Prelude.{◌≡◌, ◌<◌, ◌≤◌, length};
ghost use Rattle.ipl_base.specs.declared.limits.TheConstants.{LOG_SECTORS};
ghost use Rattle.unit_directory.specs.Reserves.{
  is_retired,
  least_clean_logs,
  least_erases,
  most_erases,
};

use crate::directory::Directory;
use ipl_base::LOG_SECTORS;

impl Directory {
    /// Whether a place is retired.
    pub fn is_retired(&self, place: u32) -> bool
        ensures { result ≡ is_retired self.now place }
    {
        self.retired().contains(&place)
    }

    /// How often that place was erased, as far as is known, that was erased least often of those that
    /// aren't retired: up to 2^32 - 1.
    pub fn least_erases(&self) -> u32
        ensures { result ≡ least_erases self.now }
    {
        let mut least = u32::MAX;
        for place in 0..self.places() {
            if !self.is_retired(place) {
                least = least.min(self.erases(place));
            }
        }
        least
    }

    /// And that which was erased most often.
    pub fn most_erases(&self) -> u32
        ensures { result ≡ most_erases self.now }
    {
        let mut most = 0;
        for place in 0..self.places() {
            if !self.is_retired(place) {
                most = most.max(self.erases(place));
            }
        }
        most
    }

    /// How many log sectors count as clean, 0 to 15, of that unit's place of which fewest do.
    pub fn least_clean_logs(&self) -> u32
        ensures least { result ≡ least_clean_logs self.now }
        ensures in_range { result ≤ LOG_SECTORS }
    {
        let mut least = LOG_SECTORS;
        for unit in 0..self.units() {
            least = least.min(self.clean_logs(unit));
        }
        least
    }
}
