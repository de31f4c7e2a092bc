//! Laws of the names, over the definitions alone.

ghost use Rattle.std.specs.Prelude.{◌≡◌, ◌↔◌, ℕ, IsTrue};
ghost use Rattle.itm_grammar.specs.declared.packet.Size.{Size};
ghost use Rattle.dwt_packets.specs.declared.item.DwtItem.{DwtItem};
ghost use Rattle.dwt_packets.specs.declared.item.DwtItem.TheVariants.{Other};
ghost use Rattle.dwt_packets.specs.Table.{name, is_other, NoRowFits};
ghost use Rattle.dwt_packets.specs.Packet.{packet, IsPacket, IsProperItem};

/// Packets and proper items go to and fro: the item of a packet has that packet, and the packet of a proper
/// item has that item. A packet has another item exactly where no row of the table fits it, and these are
/// the proper ones.
pub fn name_law()
    ensures of_packets { (disc : ℕ) (size : Size) (value : ℕ) → IsPacket disc size value →
        packet (name disc size value) ≡ (disc, size, value) }
    ensures of_items { (item : DwtItem) → IsProperItem item →
        let p = packet item in name p.0 p.1 p.2 ≡ item }
    ensures others { (disc : ℕ) (size : Size) (value : ℕ) →
        IsTrue (is_other (name disc size value)) ↔ NoRowFits disc size value }
    ensures proper_others { (disc : ℕ) (size : Size) (value : ℕ) →
        IsProperItem (Other disc size value) ↔ (IsPacket disc size value × NoRowFits disc size value) }
{}
