//! The action `rebuild`.

ghost use Rattle.std.specs.Prelude.{◌≡◌, ◌≢◌, ◌≤◌, ◌<◌, ◌+◌, ◌*◌, ◌++◌, ◌==◌, ℕ, List, All, length, take, slice_index};
ghost use Rattle.std.specs.Prelude.{false, true, None, Err, option_map, is_some};
ghost use Rattle.std.specs.Option.{ForSome};
ghost use Rattle.std.specs.Result.{IfOk, OnErr};
ghost use Rattle.script_rebuild.specs.Names.{BadLine, Paid, GREATEST_CAPTURE, OUTLET_ROOM, ACTION_ROOM};
ghost use Rattle.script_rebuild.specs.Names.{Line2, line_of};
ghost use Rattle.trace_funnel.specs.SoundTurns.{IsSoundTurns};
ghost use Rattle.script_rebuild.specs.Versions.{says};
ghost use Rattle.script_rebuild.specs.Spending.{CanSpend, Spends};
ghost use Rattle.script_rebuild.specs.Writer.{count_of, kept_by, CanBePut2, Stands as StandsForLines};
ghost use Rattle.script_rebuild.specs.Writer.{debt_of as debt_of_writer};
ghost use Rattle.script_rebuild.specs.PutLine.{PutsText, AnswersTo, IsFor, fits_after, says_placed};
ghost use Rattle.script_rebuild.specs.Rebuilt.{port_of};
ghost use Rattle.script_rebuild.specs.Script.{in_order};

use crate::LineWriter;
use crate::plan::{RebuildPlan, ScriptFault};
use crate::version::{Version, is_header};
use arrayvec::ArrayVec;
use memchr::memchr;
use port_formatter::Formatter;
use script_text::{LINE_BYTES, Line, Line2, LineFault, read_into, read_new};
use source_events::Plan;
use std::alloc::{AllocError, Global};
use trace_stream::{Action, Outlet, Progress, put_owed};

/// A script as it is read: its open line, and the writer of what the lines before it put. After its making it allocates
/// nothing.
#[derive(Drop)]
pub struct Rebuild {
    plan: RebuildPlan,
    /// The bytes of the open line.
    line: ArrayVec<u8, LINE_BYTES>,
    /// How many lines ended.
    lines: u64,
    /// What they tell of the script's version.
    version: Version,
    writer: LineWriter,
    /// How many bytes were taken.
    count: u64,
    fault: Option<ScriptFault>,
    /// After the script's end how many of the last bytes that the writer keeps are still to be put.
    owed: Option<usize>,
    ghost few: { lines ≤ count },
    ghost frames: { owed ≡ None → count_of writer ≤ 100 * count },
    ghost small: { count ≤ GREATEST_CAPTURE },
    ghost suits: { IsFor plan writer },
    ghost owes: { ForSome owed (λ n. n ≤ length (kept_by writer)) },
}

/// How many of the first bytes are no line feed, at most this many.
fn plain_len(piece: &[u8], most: usize) -> usize
    ensures bound { result ≤ length piece.now }
    ensures few { result ≤ most }
    ensures plain { All (λ b. (b == 10) ≡ false) (take result piece.now) }
    ensures rest { result < length piece.now → slice_index piece.now result ≢ 10 → result ≡ most }
{
    let end = piece.len().min(most);
    match memchr(b'\n', &piece[..end]) {
        Some(at) => at,
        None => end,
    }
}

/// Appends bytes to the open line, for which there is room.
fn append(line: &mut ArrayVec<u8, LINE_BYTES>, bytes: &[u8])
    requires room { length line.old.items + length bytes.now ≤ 256 }
    ensures { line.new.items ≡ line.old.items ++ bytes.now }
{
    let _ = line.try_extend_from_slice(bytes);
}

/// What a line says whose words are those of no line of version 1: nothing as the header, or a line of version 2.
/// Apart, so that lines of version 1 need no room for it.
#[inline(never)]
fn read_later(version: Version, text: &[u8]) -> Result<Line2, LineFault>
    ensures said { (plan : Plan) (lines : List Line2) → line_of plan text.now ≡ Err BadLine →
        says plan version lines text.now ≡ fits_after lines result }
    ensures can { (stp : List ℕ) → IfOk result (λ line. CanBePut2 stp line) }
{
    match version {
        Version::Second => read_new(text),
        Version::Unknown if is_header(text) => Ok(Line2::One(Line::Nothing)),
        _ => Err(LineFault::BadLine),
    }
}

/// What a line says.
fn read_line(plan: &Plan, version: Version, text: &[u8]) -> Result<Line2, LineFault>
    ensures said { (lines : List Line2) → says plan.now version lines text.now ≡ fits_after lines result }
    ensures can { IfOk result (λ line. CanBePut2 (in_order plan.now.stp) line) }
{
    let mut said = Line::Nothing;
    match read_into(text, plan, &mut said) {
        Ok(()) => Ok(Line2::One(said)),
        Err(fault) => match fault {
            LineFault::BadLine => read_later(version, text),
            _ => Err(fault),
        },
    }
}

/// Puts what a line says. At a fault the writer is as before.
#[inline(always)]
fn put_line(
    writer: &mut LineWriter,
    plan: &RebuildPlan,
    version: Version,
    text: &[u8],
) -> Result<(), LineFault>
    requires plan { IsFor plan.now writer.old }
    requires room { CanSpend 200 writer.old.formatter }
    ensures plan { IsFor plan.now writer.new }
    ensures same { OnErr result (writer.new ≡ writer.old) }
    ensures puts { (lines : List Line2) → StandsForLines writer.old (port_of plan.now) lines →
        PutsText plan.now version text.now writer.old writer.new lines result }
    ensures spent { Spends 200 writer.old.formatter writer.new.formatter }
{
    let mut said = Line::Nothing;
    match read_into(text, &plan.plan, &mut said) {
        Ok(()) => writer.put(&said),
        Err(fault) => match fault {
            LineFault::BadLine => {
                let later = read_later(version, text)?;
                writer.put2(&later)
            }
            _ => Err(fault),
        },
    }
}

impl Rebuild {
    ghost use Rattle.std.specs.Prelude.{[], ◌∷◌};
    ghost use Rattle.script_rebuild.specs.Names.{with_debt, no_segments};
    ghost use Rattle.trace_io.specs.Bytes.{TakesSome};
    ghost use Rattle.script_rebuild.specs.Rebuilt.{routed_so_far, routed_script};
    ghost use Rattle.port_formatter.specs.Formatter as formatters;
    ghost use Rattle.script_rebuild.specs.Rebuilder.{told, plan_of, taken_by, debt_of, open_len, IsLive, Reads, Stands};
    ghost use Rattle.script_rebuild.specs.Rebuilder.{HasEnded, HasMoved, IsOpen, Feeds, MayTake, TakesByte};

    /// Nothing is read yet, and no funnel is before the port.
    pub fn new(plan: RebuildPlan) -> Rebuild
        requires few { plan.halves ≤ 8 }
        requires straight { plan.funnel ≡ None }
        ensures plan { plan_of result ≡ plan }
        ensures stands { Stands result [] }
        ensures count { taken_by result ≡ 0 }
        ensures paid { debt_of result ≡ Paid }
        ensures live { IsLive result }
    {
        let formatter = Formatter::new(plan.every, plan.halves);
        Rebuild::over(plan, formatter)
    }

    /// Nothing is read yet, and a funnel is before the port. It takes all its memory here, and fails only for want of
    /// it.
    pub fn through(alloc: Global, plan: RebuildPlan) -> Result<Rebuild, AllocError>
        requires few { plan.halves ≤ 8 }
        requires sound { ForSome plan.funnel IsSoundTurns }
        ensures plan { IfOk result (λ r. plan_of r ≡ plan) }
        ensures fresh { IfOk result (λ r. Stands r [] × (taken_by r ≡ 0) × (debt_of r ≡ Paid) × IsLive r) }
    {
        let Some(turns) = &plan.funnel else {
            return Ok(Rebuild::new(plan));
        };
        let formatter = Formatter::through(alloc, plan.every, plan.halves, turns)?;
        Ok(Rebuild::over(plan, formatter))
    }

    /// Over a formatter for the plan that was given nothing.
    fn over(plan: RebuildPlan, formatter: Formatter) -> Rebuild
        requires fresh { formatters.Stands formatter (port_of plan) no_segments }
        requires turns { formatters.turns_of formatter ≡ plan.funnel }
        requires kept { formatters.kept_by formatter ≡ [] }
        requires count { formatters.count_of formatter ≡ 0 }
        ensures plan { plan_of result ≡ plan }
        ensures stands { Stands result [] }
        ensures count { taken_by result ≡ 0 }
        ensures paid { debt_of result ≡ Paid }
        ensures live { IsLive result }
    {
        let writer = LineWriter::new(&plan.plan.stp, plan.plan.order, formatter);
        Rebuild {
            plan,
            line: ArrayVec::new(),
            lines: 0,
            version: Version::Unknown,
            writer,
            count: 0,
            fault: None,
            owed: None,
        }
    }

    /// The first fault where the script is at its end: the open line is its last then.
    pub fn last_fault(&self) -> Option<ScriptFault>
        ensures { (seen : List ℕ) → Stands self.now seen →
            option_map told result ≡ (routed_script (plan_of self.now) seen).fault }
    {
        if let Some(fault) = self.fault {
            return Some(fault);
        }
        if self.owed.is_some() {
            return None;
        }
        match self.last_fits() {
            Ok(()) => None,
            Err(fault) => Some(ScriptFault {
                line: self.lines + 1,
                fault,
            }),
        }
    }

    /// Whether what the open line says can be put, if it is the last.
    fn last_fits(&self) -> Result<(), LineFault>
        ensures few { open_len self.now ≤ 256 }
        ensures said { (lines : List Line2) → StandsForLines self.now.writer (port_of self.now.plan) lines →
            AnswersTo (says_placed self.now.plan self.now.version lines self.now.line.items) result }
    {
        let line = read_line(&self.plan.plan, self.version, self.line.as_slice())?;
        self.writer.fits(&line)
    }

    /// The script is at its end: what its last line says is put, and the segment is ended, or the line's fault is kept.
    fn end(&mut self)
        requires reading { self.old.owed ≡ None }
        requires paid { debt_of_writer self.old.writer ≡ Paid }
        ensures same { plan_of self.new ≡ plan_of self.old }
        ensures count { taken_by self.new ≡ taken_by self.old }
        ensures ended { (seen : List ℕ) → Reads self.old seen → HasEnded self.new seen }
    {
        self.owed = Some(0);
        if self.fault.is_some() {
            return;
        }
        match put_line(
            &mut self.writer,
            &self.plan,
            self.version,
            self.line.as_slice(),
        ) {
            Ok(()) => self.writer.flush(),
            Err(fault) => {
                self.fault = Some(ScriptFault {
                    line: self.lines + 1,
                    fault,
                });
            }
        }
    }

    /// Takes the first bytes up to a line feed, as many as the line may have.
    fn add_front(&mut self, piece: &[u8]) -> usize
        requires live { IsLive self.old }
        requires count { taken_by self.old + length piece.now ≤ GREATEST_CAPTURE }
        ensures moved { HasMoved self.old self.new result }
        ensures live { IsLive self.new }
        ensures bound { result ≤ length piece.now }
        ensures reads { (seen : List ℕ) → Reads self.old seen → Reads self.new (seen ++ take result piece.now) }
        ensures read { (seen : List ℕ) → Reads self.old seen →
            routed_so_far (plan_of self.old) (seen ++ take result piece.now) ≡
            routed_so_far (plan_of self.old) seen }
        ensures writer { self.new.writer ≡ self.old.writer }
        ensures rest { result < length piece.now → slice_index piece.now result ≢ 10 → open_len self.new ≡ 256 }
    {
        let len = plain_len(piece, LINE_BYTES - self.line.len());
        append(&mut self.line, &piece[..len]);
        self.count += len as u64;
        len
    }

    /// Takes a byte after a front: a line feed, or one with which the line is too long. Answers whether it has a fault.
    fn take_byte(&mut self, byte: u8, outlet: &mut Outlet) -> bool
        requires ready { MayTake self.old 1 outlet.old }
        requires last { byte ≢ 10 → open_len self.old ≡ 256 }
        ensures moved { HasMoved self.old self.new 1 }
        ensures taken { (seen : List ℕ) → Reads self.old seen →
            TakesByte self.old self.new seen byte outlet.old outlet.new }
        ensures reading { self.new.owed ≡ None }
        ensures fault { result ≡ is_some self.new.fault }
    {
        if byte == b'\n' {
            let mut text = ArrayVec::new();
            append(&mut text, self.line.as_slice());
            self.end_line(text.as_slice(), outlet)
        } else {
            self.count += 1;
            self.fault = Some(ScriptFault {
                line: self.lines + 1,
                fault: LineFault::LongLine,
            });
            true
        }
    }

    /// A line of this text is at its end: what it says is put, or its fault is kept. Answers whether it has one.
    #[inline(always)]
    fn end_line(&mut self, text: &[u8], outlet: &mut Outlet) -> bool
        requires ready { MayTake self.old 1 outlet.old }
        requires few { length text.now ≤ 256 }
        ensures moved { HasMoved self.old self.new 1 }
        ensures taken { (mid : Rebuild) (seen : List ℕ) → IsOpen mid self.old text.now → Reads mid seen →
            TakesByte mid self.new seen 10 outlet.old outlet.new }
        ensures reading { self.new.owed ≡ None }
        ensures fault { result ≡ is_some self.new.fault }
    {
        self.count += 1;
        match put_line(&mut self.writer, &self.plan, self.version, text) {
            Ok(()) => {
                self.writer.give(outlet);
                self.line.clear();
                self.lines += 1;
                self.version = self.version.after(text);
                false
            }
            Err(fault) => {
                self.fault = Some(ScriptFault {
                    line: self.lines + 1,
                    fault,
                });
                true
            }
        }
    }

    /// Takes a whole line and its line feed, where no line is open. It is read where it lies.
    #[inline(always)]
    fn take_line(&mut self, text: &[u8], outlet: &mut Outlet) -> Progress
        requires ready { MayTake self.old (length text.now + 1) outlet.old }
        requires closed { open_len self.old ≡ 0 }
        requires few { length text.now ≤ 256 }
        requires plain { All (λ b. (b == 10) ≡ false) text.now }
        ensures bytes { result.bytes ≡ length text.now + 1 }
        ensures count { taken_by self.new ≡ taken_by self.old + result.bytes }
        ensures fed { Feeds self.old self.new (text.now ++ 10 ∷ []) outlet.old outlet.new result.is_faulty }
    {
        self.count += text.len() as u64;
        let is_faulty = self.end_line(text, outlet);
        Progress {
            bytes: text.len() + 1,
            is_faulty,
        }
    }

    /// Takes more of the open line: the bytes up to a line feed, and that.
    fn feed_open(&mut self, piece: &[u8], outlet: &mut Outlet) -> Progress
        requires ready { MayTake self.old (length piece.now) outlet.old }
        requires some { 0 < length piece.now }
        ensures front { TakesSome piece.now result.bytes }
        ensures count { taken_by self.new ≡ taken_by self.old + result.bytes }
        ensures fed { Feeds self.old self.new (take result.bytes piece.now) outlet.old outlet.new result.is_faulty }
    {
        let len = self.add_front(piece);
        if len == piece.len() {
            return Progress {
                bytes: len,
                is_faulty: false,
            };
        }
        let is_faulty = self.take_byte(piece[len], outlet);
        Progress {
            bytes: len + 1,
            is_faulty,
        }
    }
}

impl Action for Rebuild {
    ghost use Rattle.script_rebuild.specs.Rebuilder.{plan_of, taken_by, debt_of, IsLive, Stands};
    ghost use Rattle.script_rebuild.specs.Rebuilt.{rebuild_meaning};
    ghost use Rattle.script_rebuild.specs.RebuiltLaws.{rebuild_lawful};

    type Plan = RebuildPlan;

    ghost plan = { plan_of };

    ghost live = { IsLive };

    ghost taken = { taken_by };

    ghost stands = { Stands };

    ghost debt = { debt_of };

    ghost meaning = { rebuild_meaning };

    ghost lawful = { rebuild_lawful };

    #[inline]
    fn pour(&mut self, outlet: &mut Outlet) -> bool {
        match self.owed {
            None => self.writer.give(outlet),
            Some(owed) => {
                let (first, second) = self.writer.kept();
                self.owed = Some(put_owed(first, second, owed, outlet));
                owed > 0
            }
        }
    }

    /// Takes the bytes up to a line feed, and that.
    fn feed(&mut self, piece: &[u8], outlet: &mut Outlet, _notes: &mut Outlet) -> Progress {
        if self.line.is_empty() {
            let len = plain_len(piece, LINE_BYTES);
            if len < piece.len() && piece[len] == b'\n' {
                return self.take_line(&piece[..len], outlet);
            }
        }
        self.feed_open(piece, outlet)
    }

    /// Owes what the last line puts, and the rest of the capture.
    fn finish(&mut self, _outlet: &mut Outlet) {
        if self.owed.is_none() {
            self.end();
        }
        let (first, second) = self.writer.kept();
        self.owed = Some(first.len() + second.len());
    }

    fn is_due(&self) -> bool {
        false
    }
}
