//! Packets by their rows.

ghost use Rattle.std.specs.Prelude.{◌≡◌, ◌<◌, ◌^◌, option_map, Bool};
ghost use Rattle.std.specs.Option.{ForSome};
ghost use Rattle.stp_encoder.specs.Names.{sized, WordFits, Plain, line_of, IsProper};
ghost use Rattle.stp_grammar.specs.declared.packet.Row.TheVariants.{Datum};
ghost use Rattle.stp_encoder.specs.Packets.{with_stamp};

use stp_grammar::packet::{Row, StpPacket, Width};

pub(crate) fn datum(width: Width, marked: bool, stamped: bool) -> Row
    ensures { result ≡ Datum width marked stamped }
{
    Row::Datum {
        width,
        marked,
        stamped,
    }
}

pub(crate) fn plain(row: Row, payload: u64) -> StpPacket
    ensures { result ≡ Plain row payload }
{
    StpPacket::Plain { row, payload }
}

/// A packet with this payload: of the row `plain` where there is no timestamp, and else of the row `stamped` with its
/// size and its word.
pub(crate) fn with_stamp(
    plain: Row,
    stamped: Row,
    payload: u64,
    stamp: Option<(u8, u64)>,
) -> StpPacket
    requires plain { payload < 16 ^ (line_of plain).payload }
    requires stamped { payload < 16 ^ (line_of stamped).payload }
    requires fits { ForSome stamp (λ x. WordFits x.0 x.1) }
    ensures packet { result ≡ with_stamp plain stamped payload (option_map (λ x. sized x.0 x.1) stamp) }
    ensures proper { IsProper result }
{
    match stamp {
        None => StpPacket::Plain {
            row: plain,
            payload,
        },
        Some((size, word)) => StpPacket::Stamped {
            row: stamped,
            payload,
            size,
            word,
        },
    }
}
