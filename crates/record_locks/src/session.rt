//! One open session.
ghost use Rattle.std.specs.Prelude.{◌≡◌, ◌≤◌, ◌<◌, ◌^◌, ◌+◌, ◌*◌, ◌++◌, ◌∷◌, ◌==◌, ◌/◌, [], length, map, false, IfSome, if◌then◌else◌};
ghost use Rattle.std.specs.Option.{option_map};
ghost use Rattle.ipl_base.specs.declared.limits.TheConstants.{LONG_WEIGHT, SESSION_NAMES, UNIT_NAMES};
ghost use Rattle.ipl_model.specs.Peaks.{weight_of_peak};
ghost use Rattle.record_locks.specs.Held.{is_among, peak_in, new_held, raised, rank_of, weight_listed, with_written, with_shared};

use arrayvec::ArrayVec;
use ipl_base::{Name, UNIT_NAMES};
use ipl_model::weight_of;
use std::marker::Model;

/// An open session: its transaction number, the names that it wrote and those that it shares, at
/// most 256 of each; and beside each that it wrote the most bytes that a write of it takes in its
/// page, 0 where it was deleted alone.
#[derive(Drop)]
pub struct OpenSession {
    number: u64,
    written: ArrayVec<Name, 256>,
    sizes: ArrayVec<u16, 256>,
    shared: ArrayVec<Name, 256>,
}

impl Model for OpenSession {
    ghost use Rattle.std.specs.Prelude.{map, length, ◌≤◌};
    ghost use Rattle.record_locks.specs.Held.{Held};

    ghost Value = { Held };

    ghost view = { λ s. record {
      number = s.number;
      written = map (λ n. n.0) s.written.items;
      sizes = s.sizes.items;
      shared = map (λ n. n.0) s.shared.items;
    } };

    ghost invariant = { λ s. (length s.written.items ≤ 256) × (length s.sizes.items ≤ 256) × (length s.shared.items ≤ 256) };
}

impl OpenSession {
    /// A session that has done nothing yet.
    pub fn new(number: u64) -> OpenSession
        ensures { result ≡ new_held number }
    {
        OpenSession {
            number,
            written: ArrayVec::new(),
            sizes: ArrayVec::new(),
            shared: ArrayVec::new(),
        }
    }

    /// Its transaction number.
    pub fn number(&self) -> u64
        ensures { result ≡ self.now.number }
    {
        self.number
    }

    /// The names that it wrote, the oldest first.
    pub fn written(&self) -> &[Name]
        ensures names { map (λ n. n.0) result.now ≡ self.now.written }
        ensures fits { length result.now ≤ 256 }
    {
        self.written.as_slice()
    }

    /// The greatest size of its writes on each, in the same order.
    pub fn sizes(&self) -> &[u16]
        ensures sizes { result.now ≡ self.now.sizes }
        ensures fits { length result.now ≤ 256 }
    {
        self.sizes.as_slice()
    }

    /// The names that it shares, the oldest first.
    pub fn shared(&self) -> &[Name]
        ensures names { map (λ n. n.0) result.now ≡ self.now.shared }
        ensures fits { length result.now ≤ 256 }
    {
        self.shared.as_slice()
    }

    /// Whether it wrote a name.
    pub fn has_written(&self, name: Name) -> bool
        ensures { result ≡ is_among name.0 self.now.written }
    {
        is_listed(self.written(), name)
    }

    /// Whether it shares a name.
    pub fn has_shared(&self, name: Name) -> bool
        ensures { result ≡ is_among name.0 self.now.shared }
    {
        is_listed(self.shared(), name)
    }

    /// What the names of a unit that it wrote weigh.
    pub(crate) fn weight_in_unit(&self, unit: u32) -> u32
        requires { length self.now.sizes ≡ length self.now.written }
        ensures weight { result ≡ weight_listed self.now.written self.now.sizes unit }
        ensures fits { result ≤ LONG_WEIGHT * SESSION_NAMES }
    {
        weigh(self.written(), self.sizes(), unit)
    }

    /// The peak of a name: one more than the greatest size of its writes on it, 0 where there is none.
    pub fn peak(&self, name: Name) -> u64
        requires { length self.now.sizes ≡ length self.now.written }
        ensures peak { result ≡ peak_in self.now.written self.now.sizes name.0 }
        ensures fits { result ≤ 2 ^ 32 }
    {
        peak_of(self.written(), self.sizes(), name)
    }

    /// Raises the size of a name that it wrote.
    pub(crate) fn raise(&mut self, name: Name, size: u16)
        requires { length self.old.sizes ≡ length self.old.written }
        ensures { self.new ≡ record self.old {
          sizes = raised self.old.written self.old.sizes name.0 size;
        } }
    {
        let rank = rank_of(self.written.as_slice(), name);
        if rank >= self.written.len() {
            return;
        }
        let most = size.max(self.sizes[rank]);
        self.sizes[rank] = most;
    }

    /// Puts a name behind those that it wrote, and its size.
    pub(crate) fn push_written(&mut self, name: Name, size: u16)
        requires names { length self.old.written < 256 }
        requires sizes { length self.old.sizes < 256 }
        ensures { self.new ≡ record self.old {
          written = self.old.written ++ name.0 ∷ [];
          sizes = self.old.sizes ++ size ∷ [];
        } }
    {
        self.written.push(name);
        self.sizes.push(size);
    }

    /// Puts a name behind those that it shares.
    pub(crate) fn push_shared(&mut self, name: Name)
        requires { length self.old.shared < 256 }
        ensures { self.new ≡ record self.old { shared = self.old.shared ++ name.0 ∷ [] } }
    {
        self.shared.push(name);
    }
}

/// The session in a slot, if there is one, shares a name, unless it wrote or shares it already.
pub(crate) fn share_in(slot: &mut Option<OpenSession>, name: Name)
    requires { IfSome slot.old (λ h. is_among name.0 h.written ≡ false
        → is_among name.0 h.shared ≡ false → length h.shared < 256) }
    ensures { slot.new ≡ option_map (with_shared name.0) slot.old }
{
    if let Some(session) = slot
        && !session.has_written(name)
        && !session.has_shared(name)
    {
        session.push_shared(name);
    }
}

/// The session in a slot, if there is one, writes a name, by a write of this size.
pub(crate) fn write_in(slot: &mut Option<OpenSession>, name: Name, size: u16)
    requires sized { IfSome slot.old (λ h. length h.sizes ≡ length h.written) }
    requires room { IfSome slot.old (λ h. is_among name.0 h.written ≡ false
        → length h.written < 256) }
    ensures { slot.new ≡ option_map (with_written name.0 size) slot.old }
{
    if let Some(session) = slot {
        if session.has_written(name) {
            session.raise(name, size);
        } else {
            session.push_written(name, size);
        }
    }
}

/// Whether a name is among these.
pub(crate) fn is_listed(names: &[Name], name: Name) -> bool
    ensures { result ≡ is_among name.0 (map (λ n. n.0) names.now) }
{
    for listed in names {
        if listed.0 == name.0 {
            return true;
        }
    }
    false
}

/// Where a name stands first among these, or how many there are.
fn rank_of(names: &[Name], name: Name) -> usize
    ensures rank { result ≡ rank_of name.0 (map (λ n. n.0) names.now) }
    ensures within { result ≤ length names.now }
{
    let mut rank = 0;
    for listed in names {
        if listed.0 == name.0 {
            return rank;
        }
        rank += 1;
    }
    rank
}

/// The peak of a name: one more than the size that stands beside it, 0 where it isn't there.
fn peak_of(names: &[Name], sizes: &[u16], name: Name) -> u64
    requires { length sizes.now ≡ length names.now }
    ensures peak { result ≡ peak_in (map (λ n. n.0) names.now) sizes.now name.0 }
    ensures fits { result ≤ 2 ^ 32 }
{
    let rank = rank_of(names, name);
    if rank >= names.len() {
        return 0;
    }
    1 + u64::from(sizes[rank])
}

/// What one name weighs, where it is of a unit.
fn weight_at(name: Name, size: u16, unit: u32) -> u32
    ensures weight { result
        ≡ (if name.0 / UNIT_NAMES == unit then weight_of_peak (1 + size) else 0) }
    ensures few { result ≤ LONG_WEIGHT }
{
    if name.0 / UNIT_NAMES == unit {
        weight_of(1 + u64::from(size))
    } else {
        0
    }
}

/// What the names of a unit weigh.
fn weigh(names: &[Name], sizes: &[u16], unit: u32) -> u32
    requires few { length names.now ≤ 256 }
    requires sized { length sizes.now ≡ length names.now }
    ensures weight { result ≡ weight_listed (map (λ n. n.0) names.now) sizes.now unit }
    ensures fits { result ≤ LONG_WEIGHT * SESSION_NAMES }
{
    let mut weight = 0;
    for i in 0..names.len() {
        weight += weight_at(names[i], sizes[i], unit);
    }
    weight
}
