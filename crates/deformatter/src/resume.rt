//! A deformatter after a fault: the hunt that begins again, and what is before it.
//!
//! The halfwords and synchronisations are those of the CoreSight Architecture Specification, Arm IHI 0029E (version
//! 3.0), chapter 'Trace Formatter', its section on frames. Where a hunt begins again is this project's profile.

ghost use Rattle.std.specs.Prelude.{◌≡◌, ◌-◌, ◌+◌, ◌≤◌, ◌++◌, ◌∷◌, [], List, None, true, false};
ghost use Rattle.deformatter.specs.Names.{Placed, COUNT_ROOM};
ghost use Rattle.deformatter.specs.Reading.{port_stream};
ghost use Rattle.deformatter.specs.Deformatter.{Stands, is_hunter, is_live, skipped_by, tail_of};
ghost use Rattle.deformatter.specs.Resume.{again, taken_again};

use crate::deformatter::{Deformatter, Phase};
use port_sync::Hunter;

impl Deformatter {
    /// After a fault, whose byte this is: a deformatter that hunts, and has taken the bytes of the halfword or
    /// synchronisation in which the fault is, up to the fault's. They are not kept for that: those before the fault's
    /// are all FF, and the part says how many.
    pub fn hunting_from(&self, byte: u8) -> Deformatter
        requires dead { is_live self.now ≡ false }
        ensures list { (u : List Placed) (x : Placed) → x.unit ≡ byte → Stands self.now (u ++ x ∷ []) →
            (port_stream (is_hunter self.now) u).fault ≡ None →
            Stands result (taken_again (is_hunter self.now) (u ++ x ∷ [])) }
        ensures mode { is_hunter result ≡ true }
        ensures live { is_live result ≡ true }
        ensures few { tail_of result + skipped_by result ≤ 4 }
    {
        let mut port = Deformatter::new(Phase::Hunting);
        let part = self.aligner.len();
        port.hunter = Hunter::after(part);
        port.hunter.push(byte);
        port.skipped = u64::from(part) + 1;
        port
    }

    /// After a fault: how many bytes of the unfinished frame are before those that a hunt takes again.
    pub fn left_over(&self) -> u64
        requires dead { is_live self.now ≡ false }
        requires room { tail_of self.now ≤ COUNT_ROOM + 1 }
        ensures value { (u : List Placed) (x : Placed) → Stands self.now (u ++ x ∷ []) →
            (port_stream (is_hunter self.now) u).fault ≡ None →
            result ≡ (port_stream (is_hunter self.now) (u ++ x ∷ [])).tail - again (is_hunter self.now) (u ++ x ∷ []) }
        ensures few { result ≤ tail_of self.now }
    {
        self.frame.len() as u64 + 2 * self.frame.halves()
    }

    /// After a fault: how many bytes the hunt before the reading skipped; 0 where there was none.
    pub fn passed_over(&self) -> u64
        requires dead { is_live self.now ≡ false }
        ensures value { (w : List Placed) → Stands self.now w →
            result ≡ (port_stream (is_hunter self.now) w).skipped }
        ensures same { result ≡ skipped_by self.now }
    {
        match self.phase {
            Phase::Aligned => 0,
            Phase::Hunting | Phase::Locked => self.skipped,
        }
    }
}
