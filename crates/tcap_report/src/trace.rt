//! Reads a trace and judges each of its dialogues as soon as no entry of it can follow.

ghost use Rattle.std.specs.Io.KnownBytes.{IsAtEnd};
ghost use Rattle.std.specs.Prelude.{◌≡◌, ◌⊎◌, ◌||◌, [], ◌∷◌, ◌++◌, ℕ, Bool, List, Some, Contains, cond, false, true, not, is_some, IfOk, OnOk};
ghost use Rattle.tcap_dialogues.specs.Course.{Course, Heading, courses_so_far};
ghost use Rattle.tcap_dialogues.specs.CutDialogues.{AreCompleteDialogues, IsCompleteDialogue};
ghost use Rattle.tcap_dialogues.specs.CutState.{IsCut};
ghost use Rattle.tcap_dialogues.specs.DialoguesOfList.{IdOf};
ghost use Rattle.tcap_dialogues.specs.declared.reuse.Reuse.{Reuse as Reusing};
ghost use Rattle.tcap_traces.specs.declared.verdict.Verdict.TheVariants as verdicts;
ghost use Rattle.tcap_traces.specs.Case.{after_of, dialogue_in};
ghost use Rattle.tcap_traces.specs.IdsBeforeMarks.{Notes};
ghost use Rattle.tcap_traces.specs.JudgedTrace.{all_in, is_broken, is_fail};
ghost use Rattle.tcap_traces.specs.PieceReader.{piece_as};
ghost use Rattle.tcap_traces.specs.Pieces.{Entry, Mark, Piece as Meant};
ghost use Rattle.tcap_traces.specs.Segments.{may_go_on};
ghost use Rattle.tcap_traces.specs.TraceProgress.{AreAligned};
ghost use Rattle.tcap_traces.specs.TraceState.{State, after_piece, after_pieces, start};
ghost use Rattle.tcap_traces.specs.UnreadableEntries.{notes_in};
ghost use Rattle.tcap_report.specs.declared.trace.TraceOptions.{TraceOptions as OptionsOf};
ghost use Rattle.tcap_report.specs.Answer.{Answers};
ghost use Rattle.tcap_report.specs.Counts.{HasJudged, more, no_counts, with_one};
ghost use Rattle.tcap_report.specs.KeptState.{AreSeparate, HoldsEntry, IsAt, IsBefore, IsReading, Keeps, asked_of, before_item, courses_at, no_id};
ghost use Rattle.tcap_report.specs.TraceReading.{HasRead, IsFormHalt, Reads, ReadsOn};

use crate::end_names::EndNames;
use crate::fault::{FormFault, Halt, Stop};
use crate::sinks::{Lines, Sinks};
use crate::sum::{Counts, Sum};
use crate::trace_reader::TraceReader;
use crate::unheard::{is_named, passes_unheard};
use crate::watch::Watch;
use std::alloc::{AllocError, Global};
use std::collections::BTreeMap;
use std::mem;
use tcap_ber::{Failed, Read, Write};
use tcap_books::Book;
use tcap_dialogues::{CompleteDialogue, Cut, HeadingView, Reuse};
use tcap_record::{End, PIECE_LEN};
use tcap_traces::{
    BeforeMarks, Case, JudgedDialogue, NextItem, Piece, TraceEntry, Unread, Verdict, judge,
};

/// The options for judging a trace.
#[derive(Clone, Copy, Debug)]
pub struct TraceOptions<'a> {
    /// The end to judge, or None for both.
    pub of: Option<End>,
    /// The rule for using transaction IDs again.
    pub reuse: Reuse,
    /// True if none of a dialogue's messages is in transit when one of its IDs is used again.
    pub settled: bool,
    /// True if a dialogue that is open at the end of the trace, or at a quiet mark, does not pass, but is inconclusive.
    pub complete: bool,
    /// True if an end that did not hear each message of its peer does not pass, but is inconclusive.
    pub heard: bool,
    /// The operation tables.
    pub book: &'a Book,
}

/// The state of a trace that is being read.
#[derive(Drop)]
pub(crate) struct Trace<'a> {
    pub(crate) alloc: Global,
    pub(crate) name: &'a str,
    pub(crate) options: TraceOptions<'a>,
    cut: Cut,
    // The entries of the segment that wait to be judged, by their numbers in the segment.
    pub(crate) held: BTreeMap<u64, TraceEntry>,
    // The number of entries of the segment and, in `before`, of the trace before the segment, quiet marks included.
    pub(crate) count: u64,
    pub(crate) before: u64,
    pub(crate) unread: Unread,
    // The number in the segment of the first entry after the directive `under way`.
    pub(crate) under_way: Option<u64>,
    // The transaction IDs that were in use before the segment.
    pub(crate) marks: BeforeMarks,
    // The names that the trace gives its ends.
    pub(crate) names: EndNames,
    // The text to print if the trace says that it is broken off.
    pub(crate) broken_off: Option<String>,
    pub(crate) messages: u64,
    // The entries whose kind can be read.
    pub(crate) readable: u64,
    pub(crate) dialogues: Counts,
    pub(crate) unheard: u64,
}

impl<'a> Trace<'a> {
    /// Creates the state before the first octet.
    pub(crate) fn new(alloc: Global, name: &'a str, options: TraceOptions<'a>) -> Trace<'a>
        ensures reading { IsReading options.entry start result }
        ensures nothing { (result.readable ≡ 0) × (result.messages ≡ 0) × (result.unheard ≡ 0)
            × (result.dialogues ≡ no_counts) }
    {
        Trace {
            alloc,
            name,
            options,
            cut: Cut::new(alloc, options.reuse),
            held: BTreeMap::new(alloc),
            count: 0,
            before: 0,
            unread: Unread::new(alloc),
            under_way: None,
            marks: BeforeMarks::new(alloc),
            names: EndNames::new(),
            broken_off: None,
            messages: 0,
            readable: 0,
            dialogues: Counts::new(),
            unheard: 0,
        }
    }

    /// Takes an entry, and returns the dialogues whose IDs are free after it.
    fn hold(&mut self, entry: TraceEntry) -> Result<Vec<CompleteDialogue>, Stop>
        ensures { (options : OptionsOf) (s : State) → IsReading options s self.old
            → IfOk result (λ given. HoldsEntry options s entry given.items self.new) }
    {
        let mut done = Vec::new(self.alloc);
        let heading = self.heading_of(&entry);
        self.note(heading);
        let begins = self.cut.take(heading, &mut done)?;
        self.unread.note(self.count, heading, begins)?;
        if self.held.insert(self.count, entry).is_err() {
            return Err(Stop::Memory);
        }
        let Some(count) = self.count.checked_add(1) else {
            return Err(Stop::Memory);
        };
        self.count = count;
        Ok(done)
    }

    /// Takes an entry, and judges the dialogues whose IDs are free after it.
    fn enter<W: Write, J: Lines, P: Watch>(
        &mut self,
        entry: TraceEntry,
        sinks: &mut Sinks<W, J, P>,
    ) -> Result<(), Stop>
        ensures reading { (options : OptionsOf) (s : State) → IsReading options s self.old
            → OnOk result (IsReading options (after_piece (asked_of options) s (Entry entry)) self.new) }
        ensures same_sum { sinks.new.sum ≡ sinks.old.sum }
    {
        let done = self.hold(entry)?;
        self.judge_all(done, NextItem::More, sinks)
    }

    /// Counts an entry with this heading.
    fn note(&mut self, heading: HeadingView)
        ensures messages { self.new.messages ≡ more self.old.messages 1 }
        ensures readable { self.new.readable
            ≡ cond (is_some heading.entry.kind) (more self.old.readable 1) self.old.readable }
        ensures rest { self.new ≡ record self.old { messages = self.new.messages; readable = self.new.readable } }
    {
        self.messages = self.messages.saturating_add(1);
        if heading.kind.is_some() {
            self.readable = self.readable.saturating_add(1);
        }
    }

    /// Takes the live dialogues out of the segment, and begins an empty one.
    fn finished(&mut self) -> Result<Vec<CompleteDialogue>, AllocError>
        ensures live { (reuse : Reusing) (headings : List Heading) → IsCut reuse headings self.old.cut
            → IfOk result (λ given. AreCompleteDialogues (courses_so_far reuse headings).live given.items) }
        ensures cut { IsCut self.old.options.reuse [] self.new.cut }
        ensures rest { self.new ≡ record self.old { cut = self.new.cut } }
    {
        let mut given = Vec::new(self.alloc);
        let cut = mem::replace(&mut self.cut, Cut::new(self.alloc, self.options.reuse));
        cut.finish(&mut given)?;
        Ok(given)
    }

    /// Judges the live dialogues of the segment, which ends before `next`, and begins an empty cut.
    fn judge_live<W: Write, J: Lines, P: Watch>(
        &mut self,
        next: NextItem,
        sinks: &mut Sinks<W, J, P>,
    ) -> Result<(), Stop>
        ensures keeps { (options : OptionsOf) (s : State) (names : IdOf → Bool) → IsAt options s names self.old
            → OnOk result
            (Keeps options (before_item (after_of next) s) (all_in (courses_at options s)) [] names self.new) }
        ensures cut { OnOk result (IsCut self.old.options.reuse [] self.new.cut) }
        ensures same_sum { sinks.new.sum ≡ sinks.old.sum }
    {
        let given = self.finished()?;
        self.judge_all(given, next, sinks)
    }

    /// Begins the segment after a quiet mark.
    fn begin_segment(&mut self)
        ensures unread { notes_in self.new.unread ≡ ([], true) }
        ensures rest { self.new
            ≡ record self.old { before = self.new.before; count = 0; unread = self.new.unread; under_way = None } }
    {
        self.before = self.before.saturating_add(self.count).saturating_add(1);
        self.count = 0;
        self.unread = Unread::new(self.alloc);
        self.under_way = None;
    }

    /// Takes a quiet mark in this line: judges the live dialogues of the segment, and begins the next one.
    fn pass_mark<W: Write, J: Lines, P: Watch>(
        &mut self,
        line: u64,
        sinks: &mut Sinks<W, J, P>,
    ) -> Result<(), Stop>
        ensures reading { (options : OptionsOf) (s : State) → IsReading options s self.old
            → OnOk result (IsReading options (after_piece (asked_of options) s (Mark line)) self.new) }
        ensures same_sum { sinks.new.sum ≡ sinks.old.sum }
    {
        let number = self.before.saturating_add(self.count);
        self.marks.note_sent(&self.cut)?;
        self.judge_live(NextItem::Mark { line, number }, sinks)?;
        self.begin_segment();
        self.marks.mark()?;
        Ok(())
    }

    /// Judges these dialogues, one after another.
    fn judge_all<W: Write, J: Lines, P: Watch>(
        &mut self,
        given: Vec<CompleteDialogue>,
        next: NextItem,
        sinks: &mut Sinks<W, J, P>,
    ) -> Result<(), Stop>
        ensures keeps { (options : OptionsOf) (s : State) (names : IdOf → Bool) (done waiting those : List Course)
            → AreAligned those given.items → AreSeparate options s (those ++ waiting)
            → ((d : Course) → Contains those d → IsBefore next s d)
            → Keeps options s done (those ++ waiting) names self.old
            → OnOk result (Keeps options s (done ++ those) waiting names self.new) }
        ensures same { OnOk result ((self.new.cut ≡ self.old.cut) × (self.new.count ≡ self.old.count)) }
        ensures same_sum { sinks.new.sum ≡ sinks.old.sum }
    {
        let mut left = given.len();
        for gathered in given {
            self.judge(gathered, next, sinks)?;
            left = left.saturating_sub(1);
            let waiting = self.cut.live_count().saturating_add(left);
            sinks.watch.look(&self.so_far(sinks.sum), waiting);
        }
        Ok(())
    }

    /// Judges a dialogue and reports the verdict.
    fn judge<W: Write, J: Lines, P: Watch>(
        &mut self,
        gathered: CompleteDialogue,
        next: NextItem,
        sinks: &mut Sinks<W, J, P>,
    ) -> Result<(), Stop>
        ensures keeps { (options : OptionsOf) (s : State) (names : IdOf → Bool) (done waiting : List Course)
            (d : Course)
            → IsCompleteDialogue d gathered → AreSeparate options s (d ∷ waiting) → IsBefore next s d
            → Keeps options s done (d ∷ waiting) names self.old
            → OnOk result (Keeps options s (done ++ d ∷ []) waiting names self.new) }
        ensures same { OnOk result ((self.new.cut ≡ self.old.cut) × (self.new.count ≡ self.old.count)) }
        ensures same_sum { sinks.new.sum ≡ sinks.old.sum }
    {
        let case = self.case_of(gathered, next)?;
        let judged = judge(self.alloc, &case, self.options.book)?;
        self.report(&case, &judged, sinks)
    }

    /// Counts and reports the verdict on a dialogue. If a fault ends the trace before the dialogue is over, only a fail
    /// is counted and reported.
    fn report<W: Write, J: Lines, P: Watch>(
        &mut self,
        case: &Case,
        judged: &JudgedDialogue,
        sinks: &mut Sinks<W, J, P>,
    ) -> Result<(), Stop>
        ensures counted { OnOk result
            (self.new.dialogues ≡ cond (not (is_broken (after_of case.now.next)) || is_fail judged.now.verdict)
            (with_one judged.now.verdict self.old.dialogues) self.old.dialogues) }
        ensures marks { OnOk result
            (Notes (may_go_on (dialogue_in case.now)) case.now.gathered self.old.marks self.new.marks) }
        ensures rest { OnOk result (self.new
            ≡ record self.old { marks = self.new.marks; dialogues = self.new.dialogues; unheard = self.new.unheard }) }
        ensures same_sum { sinks.new.sum ≡ sinks.old.sum }
    {
        self.marks.note(&case.gathered, case.may_go_on())?;
        if !is_reported(case, judged) {
            return Ok(());
        }
        let before = self.unheard;
        self.count(case, judged);
        sinks.report_case(
            self.alloc,
            self.name,
            &self.names,
            case,
            judged,
            self.options.of,
            is_named(before, self.unheard),
        )
    }

    /// Counts the verdict on a dialogue.
    fn count(&mut self, case: &Case, judged: &JudgedDialogue)
        ensures { self.new ≡ record self.old
            { dialogues = with_one judged.now.verdict self.old.dialogues; unheard = self.new.unheard } }
    {
        self.dialogues.add(judged.verdict);
        if passes_unheard(case, judged, self.options.of) {
            self.unheard = self.unheard.saturating_add(1);
        }
    }

    /// Takes each piece in the octets read so far.
    fn read_on<W: Write, J: Lines, P: Watch>(
        &mut self,
        octets: &mut TraceReader,
        sinks: &mut Sinks<W, J, P>,
    ) -> Result<(), Halt>
        ensures reads { (options : OptionsOf) (read : List ℕ) (ps : List Meant) → HasRead read ps octets.old.pieces
            → IsReading options (after_pieces (asked_of options) start ps) self.old
            → ReadsOn options read result octets.new.pieces self.new }
        ensures ended { octets.new.pieces.ended ≡ octets.old.pieces.ended }
        ensures same_sum { sinks.new.sum ≡ sinks.old.sum }
    {
        for _ in 0..u64::MAX {
            match octets.next()? {
                Some(piece) => if let Err(stop) = self.take_piece(piece, sinks) {
                    return Err(Halt::Stop(stop));
                },
                None => return Ok(()),
            }
        }
        Err(self.unreadable()?)
    }

    /// Takes a piece of the trace.
    fn take_piece<W: Write, J: Lines, P: Watch>(
        &mut self,
        piece: Piece,
        sinks: &mut Sinks<W, J, P>,
    ) -> Result<(), Stop>
        ensures reading { (options : OptionsOf) (s : State) → IsReading options s self.old
            → OnOk result (IsReading options (after_piece (asked_of options) s (piece_as piece)) self.new) }
        ensures same_sum { sinks.new.sum ≡ sinks.old.sum }
    {
        match piece {
            Piece::Entry(entry) => self.enter(entry, sinks),
            Piece::UnderWay(_) => {
                self.under_way = Some(self.under_way.unwrap_or(self.count));
                Ok(())
            }
            Piece::BrokenOff(line, missing) => {
                self.broken_off = Some(broken_off_text(self.alloc, line, &missing)?);
                Ok(())
            }
            Piece::About(_, end, text) => {
                let text = String::from_utf8_lossy(self.alloc, &text)?;
                self.names.set(end, text);
                Ok(())
            }
            Piece::Mark(line) => self.pass_mark(line, sinks),
        }
    }

    /// Reads the trace to its end, and judges each of its dialogues.
    ///
    /// Returns `Halt::Form` if the trace's form has a fault or the reader fails, and `Halt::Stop` if the run stops.
    fn read_all<R: Read, W: Write, J: Lines, P: Watch>(
        &mut self,
        reader: &mut R,
        octets: &mut TraceReader,
        sinks: &mut Sinks<W, J, P>,
    ) -> Result<(), Halt>
        requires fresh { HasRead [] [] octets.old.pieces }
        requires more { octets.old.pieces.ended ≡ false }
        ensures reads { (options : OptionsOf) → IsReading options start self.old
            → Reads options (R.remaining reader.old) (R.remaining reader.new) (R.failures reader.old)
            (R.failures reader.new) result self.new }
        ensures same_sum { sinks.new.sum ≡ sinks.old.sum }
    {
        let mut piece = [0; PIECE_LEN];
        for _ in 0..u64::MAX {
            let returned = match reader.read(&mut piece) {
                Ok(returned) => returned,
                Err(Failed) => return Err(self.unreadable()?),
            };
            sinks.watch.read(returned);
            octets.feed(&piece[..returned])?;
            self.read_on(octets, sinks)?;
            sinks.flush()?;
            sinks
                .watch
                .look(&self.so_far(sinks.sum), self.cut.live_count());
            if returned == 0 {
                return match self.judge_live(NextItem::End, sinks) {
                    Ok(()) => Ok(()),
                    Err(stop) => Err(Halt::Stop(stop)),
                };
            }
        }
        Err(self.unreadable()?)
    }

    /// Reads the trace to its end, reports the verdict on it, and returns the verdict.
    fn run<R: Read, W: Write, J: Lines, P: Watch>(
        &mut self,
        reader: &mut R,
        octets: &mut TraceReader,
        sinks: &mut Sinks<W, J, P>,
    ) -> Result<Verdict, Stop>
        requires fresh { HasRead [] [] octets.old.pieces }
        requires more { octets.old.pieces.ended ≡ false }
        ensures answers { (options : OptionsOf) → IsReading options start self.old → IfOk result (λ verdict.
            Answers options (R.remaining reader.old) (R.remaining reader.new) (R.failures reader.old)
            (R.failures reader.new) verdict
            sinks.old.sum.now sinks.new.sum.now) }
        ensures same_sum { sinks.new.sum.ghost_name ≡ sinks.old.sum.ghost_name }
    {
        match self.read_all(reader, octets, sinks) {
            Ok(()) => self.end_whole(sinks),
            Err(Halt::Form(fault)) => {
                self.judge_live(NextItem::Fault, sinks)?;
                self.end(Some(fault), octets.hint(), sinks)
            }
            Err(Halt::Stop(stop)) => Err(stop),
        }
    }

    /// Returns the fault that the trace can't be read.
    fn unreadable(&self) -> Result<Halt, AllocError>
        ensures { IfOk result IsFormHalt }
    {
        let mut text = String::new(self.alloc);
        text.push_str("it can't be read")?;
        Ok(Halt::Form(FormFault { line: None, text }))
    }
}

/// Returns the text to print for the directive `broken off` in this line, with its text on missing messages.
fn broken_off_text(alloc: Global, line: u64, missing: &[u8]) -> Result<String, AllocError> {
    let missing = String::from_utf8_lossy(alloc, missing)?;
    let mut text = String::new(alloc);
    write!(text, "line {line}: the trace was broken off")?;
    text.push_str(&missing)?;
    Ok(text)
}

/// Returns whether a judged dialogue is reported: always, unless a fault ends the trace before the dialogue is over and
/// the dialogue does not fail.
fn is_reported(case: &Case, judged: &JudgedDialogue) -> bool
    ensures { result ≡ not (is_broken (after_of case.now.next)) || is_fail judged.now.verdict }
{
    match (case.next, judged.verdict) {
        (NextItem::Fault, Verdict::Fail) => true,
        (NextItem::Fault, _) => false,
        _ => true,
    }
}

/// Judges each dialogue of the trace in `reader`, reports to `sinks` under this name, and returns the verdict on the
/// trace.
///
/// A fault of the trace's form ends the reading, and the verdict is an error. The dialogues that are over by then are
/// reported; the others are reported only if they fail.
///
/// # Errors
/// `Stop::Memory` if memory runs out, `Stop::Write` if a sink fails.
pub fn run_trace<R: Read, W: Write, J: Lines, P: Watch>(
    alloc: Global,
    name: &str,
    reader: &mut R,
    options: TraceOptions,
    sinks: &mut Sinks<W, J, P>,
) -> Result<Verdict, Stop>
    ensures answers { IfOk result
        (λ verdict. Answers options.entry (R.remaining reader.old) (R.remaining reader.new) (R.failures reader.old)
        (R.failures reader.new) verdict sinks.old.sum.now sinks.new.sum.now) }
    ensures counted { IfOk result (λ verdict. HasJudged (verdict ∷ []) sinks.old.sum.now sinks.new.sum.now) }
    ensures nothing { R.remaining reader.old ≡ Some [] → IfOk result (λ verdict. verdict ≡ verdicts.Error) }
    ensures all { IfOk result (λ verdict. (verdict ≡ verdicts.Error)
        ⊎ IsAtEnd (R.remaining reader.new) × (R.failures reader.new ≡ R.failures reader.old)) }
    ensures same_sum { sinks.new.sum.ghost_name ≡ sinks.old.sum.ghost_name }
{
    let mut trace = Trace::new(alloc, name, options);
    let mut octets = TraceReader::new(alloc);
    trace.run(reader, &mut octets, sinks)
}
