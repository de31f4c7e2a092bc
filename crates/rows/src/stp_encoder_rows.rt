//! Rows of `stp_encoder`.

use crate::notation::Words;
use crate::out::Out;
use crate::stp_words::{item_of, order_of};
use arrayvec::ArrayVec;
use stp_encoder::StpEncoder;
use stp_grammar::item::StpItem;
use stp_grammar::proper::is_proper_stp;

/// Puts an item, and writes its bytes, or that it does not fit.
fn put_item(encoder: &mut StpEncoder, item: &StpItem, out: &mut Out) {
    if !is_proper_stp(item) {
        return out.put("  ? no item\n");
    }
    let mut bytes = ArrayVec::new();
    if let Err(unfit) = encoder.put(item, &mut bytes) {
        out.error(&unfit);
    }
    out.bytes("  bytes ", bytes.as_slice());
}

/// Writes the bytes of the end, with the version in force.
fn put_end(encoder: StpEncoder, out: &mut Out) {
    let version = encoder.version();
    let mut bytes = ArrayVec::new();
    encoder.finish(&mut bytes);
    out.bytes("  end ", bytes.as_slice());
    out.put_value("  version ", &version);
    out.put("\n");
}

/// `put ORDER ITEM,ITEM..`: the bytes of each item after those before it, or that it does not fit there, and the bytes
/// of the end, with the version in force.
pub fn put(mut words: Words<'_>, out: &mut Out) {
    let mut encoder = StpEncoder::new(order_of(words.word()));
    for text in words.rest.split(',') {
        if !text.is_empty() {
            put_item(&mut encoder, &item_of(Words { rest: text }), out);
        }
    }
    put_end(encoder, out);
}
