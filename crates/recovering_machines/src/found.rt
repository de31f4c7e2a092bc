//! Packets of a run that are found, whatever reads them.

ghost use Rattle.std.specs.Prelude.{◌≡◌, ◌+◌, ◌-◌, ◌*◌, ◌<◌, ◌≤◌, IfSome, List, None, Some, length, take, true};
ghost use Rattle.source_events.specs.Fitting.{PacketFits};
ghost use Rattle.source_events.specs.Merge.{told};
ghost use Rattle.source_events.specs.Report.{lifted};
ghost use Rattle.source_machine.specs.Finding.{PassesOver, ToldFits, told_by};
ghost use Rattle.source_machine.specs.Machine.{Stands, held_of, is_live, reading_of, skipped_by};
ghost use Rattle.source_machine.specs.Units.{ReadsAlike};
ghost use Rattle.source_machine.specs.declared.machine.TheConstants.{AHEAD};
ghost use Rattle.trace_values.specs.Placed.{Placed};
ghost use Rattle.trace_values.specs.Taking.{TakesNone, item_at};
ghost use Rattle.trace_values.specs.declared.limits.TheConstants.{COUNT_ROOM};
ghost use Rattle.trace_values.specs.declared.taking.Found.TheVariants.{Ends, Waits};
ghost use Rattle.recovering_machines.specs.Found.{TookPackets, ended, heard_in, packet_of, source_machines};

use crate::receiver::Receiver;
use frame_runs::Run;
use itm_codec::ItmDecoder;
use source_events::Packet;
use source_machine::{Finds, SourceMachine, Told};
use stp_codec::StpDecoder;
use trace_values::{Found, Machine, SourceId, TakenAtOnce};

/// A machine whose packets go to what takes events as what they say, each by the call of its protocol. Which call it
/// is hangs on the machine's type alone, so that the loop over its packets has no other.
pub trait HearsTold: Finds {
    /// Gives what a packet says that was taken up to the byte at this offset, where it says something.
    fn give_found<V: Receiver>(
        id: SourceId,
        at: u64,
        taken: TakenAtOnce<Told>,
        out: &mut V,
        to: &mut V::To,
    )
        requires fits { IfSome taken.item (λ t. ToldFits t × (told_by t ≡ Self.kind)) }
        requires own { V.takes out.old id Self.kind }
        requires room { 1 ≤ V.room (out.old, to.old) }
        ensures received { V.gets (out.old, to.old)
            (told (Some id) (lifted (heard_in (ended taken.half at (packet_of taken.item))))) (out.new, to.new) }
        ensures room { V.room (out.old, to.old) ≤ V.room (out.new, to.new) + 1 };
}

impl HearsTold for ItmDecoder {
    #[inline(always)]
    fn give_found<V: Receiver>(
        id: SourceId,
        at: u64,
        taken: TakenAtOnce<Told>,
        out: &mut V,
        to: &mut V::To,
    ) {
        // It is matched in two steps, since by one pattern the packet would go to memory, too.
        if let Some(said) = taken.item {
            if let Told::Itm(packet) = said {
                out.give_itm(to, at, taken.half, id, packet);
            }
        }
    }
}

impl HearsTold for StpDecoder {
    #[inline(always)]
    fn give_found<V: Receiver>(
        id: SourceId,
        at: u64,
        taken: TakenAtOnce<Told>,
        out: &mut V,
        to: &mut V::To,
    ) {
        if let Some(Told::Stp(said)) = taken.item {
            out.give_said(to, at, taken.half, id, said);
        }
    }
}

/// Looks for the end of the unfinished packet, as the machine does, where packets may be given as what they say. Else
/// nothing is known of the bytes.
#[inline(always)]
fn look<M: Finds>(
    machine: &mut M,
    takes_told: bool,
    ahead: &[u8],
    count: usize,
    is_piece: bool,
) -> Found<M::Parts>
    requires live { M.live machine.old ≡ true }
    requires ahead { count + AHEAD ≤ length ahead.now }
    ensures own { (parts : M.Parts) → result ≡ Ends parts → takes_told ≡ true }
    ensures same { (M.reads machine.new ≡ M.reads machine.old)
        × ReadsAlike (M.source machine.old) (M.source machine.new) }
    ensures live { M.live machine.new ≡ true }
    ensures ends { (parts : M.Parts) → result ≡ Ends parts →
        M.ends machine.new ahead.now parts × (M.bytes_in parts ≤ count) }
    ensures waits { result ≡ Waits →
        PassesOver (M.reads machine.old) (M.stands machine.old) (M.stands machine.new) (take count ahead.now) None }
    ensures few { result ≡ Waits → M.held_units machine.new + M.skipped_units machine.new ≤
        M.held_units machine.old + M.skipped_units machine.old + 2 * count }
    ensures idles { (result ≡ Waits → ⊥) →
        TakesNone M.stands M.held_units M.skipped_units machine.old machine.new }
{
    if takes_told {
        machine.find(ahead, count, is_piece)
    } else {
        Found::Unknown
    }
}

/// Takes packets of a run of this source from this index on, as long as the machine finds them, and gives them. Answers
/// the index after them.
#[inline(never)]
fn take_packets<M: HearsTold, R: Run, V: Receiver>(
    machine: &mut M,
    id: SourceId,
    run: &R,
    from: usize,
    out: &mut V,
    to: &mut V::To,
) -> usize
    requires live { M.live machine.old ≡ true }
    requires from { from ≤ length (R.cells run.now) }
    requires room { 2 * (length (R.cells run.now) - from) ≤ V.room (out.old, to.old) }
    ensures { TookPackets (record {
      reading = M.reads;
      stands = M.stands;
      live = M.live;
      held = M.held_units;
      skipped = M.skipped_units;
    }) M.source V.gets V.room id (R.cells run.now) from result machine.old machine.new
        (out.old, to.old) (out.new, to.new) }
{
    let takes_told = out.takes_told(id, machine.kind());
    let ahead = run.ahead();
    let mut done = from;
    while done < run.len() {
        match look(
            machine,
            takes_told,
            &ahead[done..],
            run.len() - done,
            run.is_piece(),
        ) {
            Found::Ends(parts) => {
                let taken = machine.end(&ahead[done..], parts, run.is_piece());
                done += taken.bytes;
                M::give_found(id, run.cell(done - 1).at, taken, out, to);
            }
            Found::Waits => done = run.len(),
            Found::Unknown => return done,
        }
    }
    done
}

/// Takes packets as above, with the machine of either protocol.
#[inline(always)]
pub fn take_found<R: Run, V: Receiver>(
    machine: &mut SourceMachine,
    id: SourceId,
    run: &R,
    from: usize,
    out: &mut V,
    to: &mut V::To,
) -> usize
    requires live { is_live machine.old ≡ true }
    requires from { from ≤ length (R.cells run.now) }
    requires room { 2 * (length (R.cells run.now) - from) ≤ V.room (out.old, to.old) }
    ensures took { TookPackets source_machines (λ m. m) V.gets V.room id (R.cells run.now) from result
        machine.old machine.new (out.old, to.old) (out.new, to.new) }
    ensures live { is_live machine.new ≡ true }
{
    match machine {
        SourceMachine::Itm(decoder) => take_packets(decoder, id, run, from, out, to),
        SourceMachine::Stp(decoder) => take_packets(decoder, id, run, from, out, to),
    }
}

/// Takes bytes within the unfinished packet up to the one in which it ends, or all of them, where none of them is a
/// fault. None says nothing of the bytes.
#[inline]
pub fn take_bytes(machine: &mut SourceMachine, bytes: &[u8]) -> Option<TakenAtOnce<Packet>>
    requires live { is_live machine.old ≡ true }
    requires room { held_of machine.old + skipped_by machine.old + 2 * length bytes.now ≤ COUNT_ROOM }
    ensures alike { ReadsAlike machine.old machine.new }
    ensures live { is_live machine.new ≡ true }
    ensures bytes { IfSome result (λ taken. (0 < taken.bytes) × (taken.bytes ≤ length bytes.now)) }
    ensures passes { IfSome result (λ taken. PassesOver (reading_of machine.old) (Stands machine.old)
        (Stands machine.new) (take taken.bytes bytes.now) (item_at taken.half taken.item)) }
    ensures fits { IfSome result (λ taken. IfSome taken.item PacketFits) }
    ensures few { IfSome result (λ taken. held_of machine.new + skipped_by machine.new ≤
        held_of machine.old + skipped_by machine.old + 2 * taken.bytes) }
    ensures none { result ≡ None → ((u : List Placed) → Stands machine.old u → Stands machine.new u)
        × (held_of machine.new + skipped_by machine.new ≤ held_of machine.old + skipped_by machine.old) }
{
    match machine {
        SourceMachine::Itm(decoder) => decoder.take(bytes),
        SourceMachine::Stp(decoder) => decoder.take(bytes),
    }
}
