//! Laws of value dumps, over their definitions alone.

ghost use Rattle.std.specs.Prelude.{◌≡◌, ◌*◌, ◌^◌, ◌<◌, ◌≤◌, ◌++◌, ◌∷◌, [], ℕ, List, Option, Some, codes, decimal};
ghost use Rattle.std.specs.Prelude.{true, false, get_or, length, flat_map, sum, if◌then◌else◌};
ghost use Rattle.std.specs.Option.{ForSome};
ghost use Rattle.std.specs.Fmt.{digits};
ghost use Rattle.std.specs.List.{All, list_any};
ghost use Rattle.value_dump.specs.Dump.{lines_after, packet_lines, packets_shown, pending, up_to_stamp};
ghost use Rattle.value_dump.specs.Header.{header};
ghost use Rattle.value_dump.specs.Lines.{binary, nanoseconds};
ghost use Rattle.value_dump.specs.Names.{IsProper, ItmPacket, deltas_in, local_after};
ghost use Rattle.value_dump.specs.Reading.{time_read, value_read, value_shown};
ghost use Rattle.value_dump.specs.Signals.{asleep, cmp, exception, is_local, is_overflow, lost, pc, port, signal};
ghost use Rattle.value_dump.specs.Signals.{signals, value_after};
ghost use Rattle.value_dump.specs.Telling.{toggled};

/// The digits of a value are those of its number in binary, without leading zeros.
pub fn binary_law()
    ensures { (value : ℕ) → value < 2 ^ 32 → binary value ≡ digits 2 false value }
{}

/// Times rise with the ticks, and with a clock of n Hz, n ticks are a second.
pub fn time_law()
    ensures rise { (hz less more : ℕ) → 0 < hz → less ≤ more → nanoseconds (Some hz) less ≤ nanoseconds (Some hz) more }
    ensures second { (hz seconds : ℕ) → 0 < hz → nanoseconds (Some hz) (seconds * hz) ≡ seconds * 10 ^ 9 }
{}

/// Each number of a signal is the place of its name in the header, and there are no others.
pub fn signals_law()
    ensures exception { get_or signals exception (signal [] 0) ≡ signal (codes "exception") 9 }
    ensures pc { get_or signals pc (signal [] 0) ≡ signal (codes "pc") 32 }
    ensures asleep { get_or signals asleep (signal [] 0) ≡ signal (codes "asleep") 1 }
    ensures ports { (n : ℕ) → n < 32 →
        get_or signals (port n) (signal [] 0) ≡ signal (codes "port" ++ decimal n) 32 }
    ensures comparators { (n : ℕ) → n < 4 →
        get_or signals (cmp n) (signal [] 0) ≡ signal (codes "cmp" ++ decimal n) 32 }
    ensures lost { get_or signals lost (signal [] 0) ≡ signal (codes "lost") 1 }
    ensures all { length signals ≡ 40 }
{}

/// The signal of losses is 0 at first, and changes at a local timestamp exactly if an overflow packet came since the
/// one before, or since the start.
pub fn losses_law()
    ensures start { value_after [] lost ≡ Some 0 }
    ensures first { (stretch : List ItmPacket) (stamp : ItmPacket) → list_any is_local stretch ≡ false →
        is_local stamp ≡ true → let old = value_after [] lost in
        value_after (stretch ++ stamp ∷ []) lost ≡ (if list_any is_overflow stretch then toggled old else old) }
    ensures next { (packets stretch : List ItmPacket) (before stamp : ItmPacket) → is_local before ≡ true →
        list_any is_local stretch ≡ false → is_local stamp ≡ true →
        let old = value_after (packets ++ before ∷ []) lost in
        value_after (packets ++ before ∷ (stretch ++ stamp ∷ [])) lost ≡
        (if list_any is_overflow stretch then toggled old else old) }
{}

/// A dump reads back. Whoever takes its lines one after the other, as the standard says, has for the name of each
/// signal the last value that the packets up to the last local timestamp tell, and after what is pending that which all
/// tell; what none told is unknown. What is put for a local timestamp is read at its time. So of a whole dump whose
/// ticks do not pass 64 bits a viewer shows at each time the last values up to the last local timestamp that is not
/// later, and from the time of the last of all on those of all packets.
pub fn reading_law()
    ensures stamped { (hz : Option ℕ) (packets : List ItmPacket) (number : ℕ) → All IsProper packets →
        number < length signals → let name = (get_or signals number (signal [] 0)).name in
        value_read name (header hz ++ lines_after hz [] packets) ≡ value_after (up_to_stamp packets) number }
    ensures ended { (hz : Option ℕ) (packets : List ItmPacket) (number : ℕ) → All IsProper packets →
        number < length signals → let name = (get_or signals number (signal [] 0)).name in
        value_read name (header hz ++ (lines_after hz [] packets ++ pending hz packets)) ≡ value_after packets number }
    ensures time { (hz : Option ℕ) (packets : List ItmPacket) (packet : ItmPacket) →
        All IsProper packets → IsProper packet → 0 < length (packet_lines hz packets packet) →
        time_read (header hz ++ (lines_after hz [] packets ++ packet_lines hz packets packet)) ≡
        Some (nanoseconds hz (local_after (packets ++ packet ∷ []))) }
    ensures shown { (hz : Option ℕ) (packets : List ItmPacket) (number time : ℕ) → ForSome hz (λ n. 0 < n) →
        All IsProper packets → sum (flat_map deltas_in packets) < 2 ^ 64 → number < length signals →
        let name = (get_or signals number (signal [] 0)).name in
        value_shown name time (header hz ++ (lines_after hz [] packets ++ pending hz packets)) ≡
        value_after (packets_shown hz time packets) number }
{}
