//! What a capture is read by.

ghost use Rattle.std.specs.Prelude.{◌≡◌, ◌++◌, ◌&&◌, ◌==◌, nat_le};
ghost use Rattle.std.specs.List.{list_any};
ghost use Rattle.source_events.specs.Plan.{are_sound, is_sound, kind_of};

use crate::source_ids::SourceIds;
use arrayvec::ArrayVec;
use stp_grammar::packet::Order;
use trace_values::{FramesMode, PacketsMode, SourceId};

/// What a mapped source sends.
#[derive(Clone, Copy, Debug, PartialEq, Eq, Drop)]
pub enum SourceKind {
    /// Packets of an instrumentation trace macrocell.
    Itm,
    /// Packets of a system trace macrocell.
    Stp,
}

/// How a capture is read, and what its sources send. Each source that is not mapped is raw.
#[derive(Debug, Drop)]
pub struct Plan {
    /// How its port is read.
    pub frames: FramesMode,
    /// Where the reading of its mapped sources begins.
    pub packets: PacketsMode,
    /// The sources that send ITM packets.
    pub itm: SourceIds,
    /// The sources that send STP packets.
    pub stp: SourceIds,
    /// The order of the nibbles in a value of an STP packet.
    pub order: Order,
}

/// How many sources a plan maps at most.
pub const MAPPED_SOURCES: usize = 16;

/// A source of this ID may be mapped: 112 to 126 are not for it, and the null source is not either (CoreSight
/// Architecture Specification, Arm IHI 0029E (version 3.0), chapter 'Trace Formatter', trace source IDs).
fn may_be_mapped(id: SourceId) -> bool
    ensures { result ≡ (nat_le 1 id && nat_le id 111) }
{
    let number = id.number();
    1 <= number && number <= 111
}

/// The ID is one of these.
fn is_among(id: SourceId, ids: &[SourceId]) -> bool
    ensures { result ≡ list_any (λ x. x == id) ids.now }
{
    ids.iter().any(|other| *other == id)
}

/// None of these is twice there, and all may be mapped.
fn are_sound(ids: &[SourceId]) -> bool
    ensures { result ≡ are_sound ids.now }
{
    let Some((id, rest)) = ids.split_first() else {
        return true;
    };
    if !may_be_mapped(*id) {
        return false;
    }
    if is_among(*id, rest) {
        return false;
    }
    are_sound(rest)
}

impl Plan {
    /// All mapped IDs.
    fn mapped(&self) -> ArrayVec<SourceId, MAPPED_SOURCES>
        ensures { result.items ≡ self.now.itm ++ self.now.stp }
    {
        let mut ids = ArrayVec::new();
        for id in self.itm.as_slice() {
            ids.push(*id);
        }
        for id in self.stp.as_slice() {
            ids.push(*id);
        }
        ids
    }

    /// True exactly where all mapped IDs are from 1 to 111, and none is mapped twice.
    pub fn is_sound(&self) -> bool
        ensures { result ≡ is_sound self.now }
    {
        are_sound(self.mapped().as_slice())
    }

    /// What a source sends, if it is mapped.
    pub fn kind_of(&self, id: SourceId) -> Option<SourceKind>
        ensures { result ≡ kind_of self.now id }
    {
        if self.itm.contains(id) {
            Some(SourceKind::Itm)
        } else if self.stp.contains(id) {
            Some(SourceKind::Stp)
        } else {
            None
        }
    }
}
