//! How plans are written in a row.

use crate::notation::Words;
use source_events::{KIND_SOURCES, Plan, SourceIds};
use stp_grammar::packet::Order;
use trace_values::{FramesMode, PacketsMode};

/// Adds the source of a word, if it is one and there is room for it.
fn add_id(word: &str, ids: &mut SourceIds) {
    if let Some(id) = (Words { rest: word }).source() {
        if ids.as_slice().len() < KIND_SOURCES {
            ids.push(id);
        }
    }
}

/// The sources `ID,ID,..`, at most 8, or `-`.
fn ids_of(word: &str) -> SourceIds {
    let mut ids = SourceIds::new();
    for id in word.split(',') {
        add_id(id, &mut ids);
    }
    ids
}

/// A plan of these modes: `ITM STP`, the sources that it maps.
pub fn plan_of(frames: FramesMode, packets: PacketsMode, words: &mut Words<'_>) -> Plan {
    Plan {
        frames,
        packets,
        itm: ids_of(words.word()),
        stp: ids_of(words.word()),
        order: Order::Msn,
    }
}

/// `ITM STP`: a plan that maps these sources, where its modes make no difference.
pub fn sources_of(words: &mut Words<'_>) -> Plan {
    plan_of(FramesMode::Bare, PacketsMode::Aligned, words)
}
