//! Judges each trace of a run.

ghost use Rattle.std.specs.Prelude.{◌≡◌, ◌+◌, [], ◌∷◌, ℕ, List, Option, length, IfOk, OnOk};
ghost use Rattle.tcap_report.specs.Counts.{HasJudged, worst_of};
ghost use Rattle.tcap_report.specs.RunAnswer.{AnswersEach, CountsUnopened, IsAnswered, Opens, unread_after};

use crate::ending::report_unread;
use crate::fault::Stop;
use crate::sinks::{Lines, Sinks};
use crate::trace::{TraceOptions, run_trace};
use crate::watch::Watch;
use std::alloc::Global;
use tcap_ber::{Read, Write};
use tcap_traces::Verdict;

/// A trace of a run, opened or not.
#[derive(Drop)]
pub enum Opened<R> {
    /// A reader of the trace's octets, and their number if it is known.
    Octets(R, Option<u64>),
    /// The reason why the trace can't be read.
    Unread(String),
}

/// The traces of a run, in their order. They are opened one at a time.
pub trait Traces {
    /// The reader of a trace.
    type Octets: Read + Drop;

    // The octets of each trace, by its number from 0, if they are known.
    ghost octets: { Self → ℕ → Option (List ℕ) };

    // The number of traces that were opened.
    ghost opened: { Self → ℕ };

    // The number of traces that could not be opened, or whose reader failed, at most 2 ^ 64 - 1.
    ghost unread: { Self → ℕ };

    /// Opens the next trace.
    ///
    /// # Errors
    /// `Stop::Memory` if memory runs out.
    fn open(&mut self) -> Result<Opened<Self::Octets>, Stop>
        ensures opens { IfOk result (λ given.
            Opens Self.Octets.remaining Self.Octets.failures (octets self.old (opened self.old)) given) }
        ensures next { OnOk result (opened self.new ≡ opened self.old + 1) }
        ensures counts { IfOk result (λ given. CountsUnopened (unread self.old) (unread self.new) given) }
        ensures same { OnOk result (octets self.new ≡ octets self.old) };

    /// Takes the reader of a trace back.
    fn close(&mut self, reader: Self::Octets)
        ensures counts { unread self.new ≡ unread_after (Self.Octets.failures reader) (unread self.old) }
        ensures same { (octets self.new ≡ octets self.old) × (opened self.new ≡ opened self.old) };
}

/// Opens and judges the next trace. It is reported under this name.
fn test_trace<T: Traces, W: Write, J: Lines, P: Watch>(
    alloc: Global,
    traces: &mut T,
    name: &str,
    options: TraceOptions,
    sinks: &mut Sinks<W, J, P>,
) -> Result<Verdict, Stop>
    ensures answers { IfOk result
        (λ verdict. IsAnswered options.entry (T.octets traces.old (T.opened traces.old)) verdict
        sinks.old.sum.now sinks.new.sum.now (T.unread traces.old) (T.unread traces.new)) }
    ensures counted { IfOk result (λ verdict. HasJudged (verdict ∷ []) sinks.old.sum.now sinks.new.sum.now) }
    ensures next { OnOk result (T.opened traces.new ≡ T.opened traces.old + 1) }
    ensures same { OnOk result (T.octets traces.new ≡ T.octets traces.old) }
    ensures same_sum { sinks.new.sum.ghost_name ≡ sinks.old.sum.ghost_name }
{
    match traces.open()? {
        Opened::Octets(mut reader, len) => {
            sinks.watch.begin(len);
            let verdict = run_trace(alloc, name, &mut reader, options, sinks)?;
            traces.close(reader);
            Ok(verdict)
        }
        Opened::Unread(why) => report_unread(alloc, name, options, &why, sinks),
    }
}

/// Opens and judges the next traces, one for each name, and reports them under these names to `sinks`. Returns the
/// worst verdict in the sum over all traces.
///
/// # Errors
/// `Stop::Memory` if memory runs out, `Stop::Write` if a sink fails.
pub fn run_test<T: Traces, W: Write, J: Lines, P: Watch>(
    alloc: Global,
    traces: &mut T,
    names: &[&str],
    options: TraceOptions,
    sinks: &mut Sinks<W, J, P>,
) -> Result<Verdict, Stop>
    ensures answers { OnOk result
        (AnswersEach options.entry (T.octets traces.old) (T.opened traces.old) (length names.now)
        sinks.old.sum.now sinks.new.sum.now (T.unread traces.old) (T.unread traces.new)) }
    ensures opened { OnOk result (T.opened traces.new ≡ T.opened traces.old + length names.now) }
    ensures worst { IfOk result (λ verdict. verdict ≡ worst_of sinks.new.sum.now) }
    ensures same_sum { sinks.new.sum.ghost_name ≡ sinks.old.sum.ghost_name }
{
    for name in names {
        test_trace(alloc, traces, *name, options, sinks)?;
    }
    Ok(sinks.sum.worst())
}
