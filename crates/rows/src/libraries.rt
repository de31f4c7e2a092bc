//! The rows of calls of libraries.

use crate::notation::Words;
use crate::out::Out;
use crate::{
    buffer_ring_rows, decimal_words_rows, deformatter_rows, dwt_packets_rows, frame_grammar_rows,
    frame_writer_rows, item_tap_rows, itm_grammar_rows, port_slip_rows, port_sync_rows,
    script_text_rows, source_counts_rows, source_events_rows, source_merge_rows, stp_codec_rows,
    stp_encoder_rows, stp_grammar_rows, trace_clock_rows, trace_funnel_rows, trace_text_rows,
    trace_values_rows,
};
use trace_vectors::item_at;

/// Runs a row of all sources.
fn run_sources(library: &str, call: &str, words: Words<'_>, out: &mut Out) {
    match library {
        "item_tap" => item_tap_rows::run(call, words, out),
        "source_counts" => source_counts_rows::run(call, words, out),
        "source_events" => source_events_rows::run(call, words, out),
        "source_merge" => source_merge_rows::run(call, words, out),
        _ => out.put("  ? no such library\n"),
    }
}

/// Runs a row of ports and frames, or of all sources.
fn run_port(library: &str, call: &str, words: Words<'_>, out: &mut Out) {
    match library {
        "buffer_ring" => buffer_ring_rows::run(call, words, out),
        "deformatter" => deformatter_rows::run(call, words, out),
        "frame_grammar" => frame_grammar_rows::run(call, words, out),
        "frame_writer" => frame_writer_rows::run(call, words, out),
        "port_slip" => port_slip_rows::run(call, words, out),
        "port_sync" => port_sync_rows::run(call, words, out),
        "trace_funnel" => trace_funnel_rows::run(call, words, out),
        _ => run_sources(library, call, words, out),
    }
}

/// Runs a row of packets and their times, or of ports.
fn run_packets(library: &str, call: &str, words: Words<'_>, out: &mut Out) {
    match library {
        "dwt_packets" => dwt_packets_rows::run(call, words, out),
        "itm_grammar" => itm_grammar_rows::run(call, words, out),
        "stp_codec" => stp_codec_rows::run(words, out),
        "stp_encoder" => stp_encoder_rows::put(words, out),
        "stp_grammar" => stp_grammar_rows::run(call, words, out),
        "trace_clock" => trace_clock_rows::run(call, words, out),
        _ => run_port(library, call, words, out),
    }
}

/// Runs a row of values and texts, or another. `trace_vectors item_at NUMBER` is the item of the exercise that has this
/// number.
fn run(library: &str, call: &str, mut words: Words<'_>, out: &mut Out) {
    match library {
        "decimal_words" => decimal_words_rows::run(call, words, out),
        "script_text" => script_text_rows::run(call, words, out),
        "trace_text" => trace_text_rows::run(call, words, out),
        "trace_values" => trace_values_rows::run(call, words, out),
        "trace_vectors" => out.value(&item_at(words.quarter())),
        _ => run_packets(library, call, words, out),
    }
}

/// Runs the row of a line.
pub fn run_row(mut words: Words<'_>, out: &mut Out) {
    let (library, call) = (words.word(), words.word());
    run(library, call, words, out);
}
