//! The packets that tell a master or a channel.

ghost use Rattle.std.specs.Prelude.{◌≡◌, ◌<◌, ◌≤◌, ◌^◌, option_to_list, length};
ghost use Rattle.std.specs.Option.{ForSome};
ghost use Rattle.stp_encoder.specs.Names.{line_of, IsProper};
ghost use Rattle.stp_encoder.specs.Bytes.{short_len};
ghost use Rattle.stp_encoder.specs.Packets.{telling};

use stp_grammar::packet::{Row, StpPacket};

/// The packet that tells this number, of the row `low` with its low 8 bits or of the row `whole` with all 16, where
/// `known` is in force.
pub(crate) fn telling(
    low: Row,
    whole: Row,
    known: Option<u16>,
    number: Option<u16>,
) -> Option<StpPacket>
    requires low { (length (line_of low).opcode ≤ 2) × ((line_of low).payload ≡ 2) }
    requires whole { (length (line_of whole).opcode ≤ 2) × ((line_of whole).payload ≡ 4) }
    ensures packet { option_to_list result ≡ telling low whole known number }
    ensures proper { ForSome result IsProper }
    ensures few { ForSome result (λ p. short_len p ≤ 6) }
{
    let number = number?;
    match known {
        Some(known) if known == number => None,
        Some(known) if known / 256 == number / 256 => Some(StpPacket::Plain {
            row: low,
            payload: u64::from(number % 256),
        }),
        _ => Some(StpPacket::Plain {
            row: whole,
            payload: u64::from(number),
        }),
    }
}
