//! Which items can be written.

ghost use Rattle.std.specs.Prelude.{◌≡◌};
ghost use Rattle.stp_encoder.specs.Fitting.{item_place, item_stamp, is_of_version, is_named, has_content};
ghost use Rattle.stp_encoder.specs.Fitting.{is_unfit};

use stp_grammar::item::{Place, Stamp, StpItem};

/// The place of an item, where it has one.
pub(crate) fn place_of(item: &StpItem) -> Option<Place>
    ensures { result ≡ item_place item.now }
{
    match *item {
        StpItem::MasterError { place, .. }
        | StpItem::Datum { place, .. }
        | StpItem::Flag { place, .. } => Some(place),
        StpItem::Async
        | StpItem::Version(_)
        | StpItem::GlobalError { .. }
        | StpItem::Trigger { .. }
        | StpItem::Frequency { .. }
        | StpItem::NullStamp { .. } => None,
    }
}

/// The timestamp of an item.
fn stamp_of(item: &StpItem) -> Stamp
    ensures { result ≡ item_stamp item.now }
{
    match *item {
        StpItem::Datum { stamp, .. }
        | StpItem::Flag { stamp, .. }
        | StpItem::Trigger { stamp, .. }
        | StpItem::Frequency { stamp, .. }
        | StpItem::NullStamp { stamp } => stamp,
        StpItem::Async
        | StpItem::Version(_)
        | StpItem::MasterError { .. }
        | StpItem::GlobalError { .. } => Stamp::None,
    }
}

/// The timestamp is of this version's kind.
fn is_of_version(version: Option<u8>, stamp: Stamp) -> bool
    ensures { result ≡ is_of_version version stamp }
{
    match stamp {
        Stamp::None => true,
        Stamp::Natural(_) => matches!(version, Some(3)),
        Stamp::Gray(_) => matches!(version, Some(4)),
        Stamp::Raw { .. } => !matches!(version, Some(3 | 4)),
    }
}

/// A place that is there has its numbers.
fn is_named(place: Option<Place>) -> bool
    ensures { result ≡ is_named place }
{
    match place {
        None => true,
        Some(place) => place.master.is_some() && place.channel.is_some(),
    }
}

/// The item isn't a timestamp alone without one.
fn has_content(item: &StpItem) -> bool
    ensures { result ≡ has_content item.now }
{
    !matches!(item, StpItem::NullStamp { stamp: Stamp::None })
}

/// The item can't be written under this version.
pub(crate) fn is_unfit(version: Option<u8>, item: &StpItem) -> bool
    ensures { result ≡ is_unfit version item.now }
{
    !is_of_version(version, stamp_of(item)) || !is_named(place_of(item)) || !has_content(item)
}
