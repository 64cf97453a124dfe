//! A chip with a script to read and somebody to talk to.
ghost use Rattle.std.specs.Prelude.{◌≡◌, ◌<◌, ◌≤◌, length, OnOk, OnErr, IfOk};
ghost use Rattle.chip_trait.specs.declared.event.Event.TheVariants.{Said};
ghost use Rattle.chip_trait.specs.Told.{Told, Appends, Rose, FailsToSay, SayCounts, IsBeside, Takes, TakesNote};

use crate::{Chip, Failed};

/// A chip with the source of a script, a place to say replies and one to note the texts of faults. What it tells of these
/// stands in the chip's own record, so that a chip call is known to leave it.
pub trait Desk: Chip {
    /// Puts the next bytes of the script at the front of `buf`, and answers how many, at most its length. 0 is the end.
    fn read_script(&mut self, buf: &mut [u8]) -> Result<usize, Failed>
        requires { 0 < length buf.old }
        ensures bound { IfOk result (λ n. n ≤ length buf.new) }
        ensures bytes { Takes (Self.told self.old).beside (Self.told self.new).beside result buf.new }
        ensures chip { IsBeside (Self.told self.old) (Self.told self.new) }
        ensures cause { OnErr result (Rose (Self.told self.old).beside.script_faults (Self.told self.new).beside.script_faults) };

    /// Says a piece of 1 to 1,024 bytes. After a failure a beginning of it may have been said.
    fn say(&mut self, piece: &[u8]) -> Result<(), Failed>
        requires some { 0 < length piece.now }
        requires short { length piece.now ≤ 1024 }
        ensures ok { OnOk result (Appends (Said piece.now) (Self.told self.old) (Self.told self.new)) }
        ensures err { OnErr result (FailsToSay piece.now (Self.told self.old) (Self.told self.new)) }
        ensures counts { SayCounts (Self.told self.old) (Self.told self.new) }
        ensures cause { OnErr result (Rose (Self.told self.old).beside.say_faults (Self.told self.new).beside.say_faults) };

    /// Notes the text of a fault. That it can't is told to nobody.
    fn note(&mut self, piece: &[u8])
        ensures { TakesNote piece.now (Self.told self.old) (Self.told self.new) };
}
