ghost use Rattle.std.specs.Prelude.{◌≡◌, ◌<◌, ℕ, List, Some, true, length, slice_get, IfOk};
ghost use Rattle.std.specs.Option.{option_map};
ghost use Rattle.tcap_traces.specs.TraceMeaning.{MeansPass};
ghost use Rattle.tcap_report.specs.KeptState.{asked_of};

use std::alloc::Global;
use tcap_ber::Counted;
use tcap_report::{NoWatch, Opened, Sinks, Stop, Sum, TraceOptions, Traces, laws, run_test};
use tcap_traces::{Verdict, laws as trace_laws};

/// Traces whose octets are in memory.
#[derive(Drop)]
struct InMemory<'a> {
    alloc: Global,
    traces: &'a [&'a [u8]],
    opened: u64,
    unread: u64,
}

impl<'a> Traces for InMemory<'a> {
    type Octets = Counted<&'a [u8]>;

    ghost octets = { λ traces number. option_map (λ trace. trace.now) (slice_get traces.traces.now number) };

    ghost opened = { λ traces. traces.opened };

    ghost unread = { λ traces. traces.unread };

    fn open(&mut self) -> Result<Opened<Counted<&'a [u8]>>, Stop> {
        let Some(next) = self.opened.checked_add(1) else {
            return Err(Stop::Memory);
        };
        let number = self.opened as usize;
        self.opened = next;
        match self.traces.get(number) {
            Some(trace) => Ok(Opened::Octets(Counted::new(*trace), None)),
            None => {
                let mut why = String::new(self.alloc);
                why.push_str("there is no such trace")?;
                self.unread = self.unread.saturating_add(1);
                Ok(Opened::Unread(why))
            }
        }
    }

    fn close(&mut self, reader: Counted<&'a [u8]>) {
        if reader.failures() > 0 {
            self.unread = self.unread.saturating_add(1);
        }
    }
}

/// Returns whether all these traces, whose octets are in memory, pass. If they do, each of their entries is in a
/// dialogue, and in each dialogue each judged end may have sent its part.
pub fn do_pass(
    alloc: Global,
    traces: &[&[u8]],
    names: &[&str],
    options: TraceOptions,
) -> Result<bool, Stop>
    ensures { IfOk result (λ pass. pass ≡ true → (number : ℕ) (trace : List ℕ) → number < length names.now
        → option_map (λ trace. trace.now) (slice_get traces.now number) ≡ Some trace
        → MeansPass (asked_of options.entry) trace) }
{
    laws::pass_of_run_is_of_each_trace();
    trace_laws::pass_is_lawful();
    let (mut text, mut watch, mut sum) = (Counted::new(Vec::new(alloc)), NoWatch, Sum::new());
    let mut json: Option<Counted<Vec<u8>>> = None;
    let mut sinks = Sinks {
        text: &mut text,
        json: json.as_mut(),
        page: None,
        junit: None,
        sum: &mut sum,
        watch: &mut watch,
    };
    let mut given = InMemory {
        alloc,
        traces,
        opened: 0,
        unread: 0,
    };
    Ok(run_test(alloc, &mut given, names, options, &mut sinks)? == Verdict::Pass)
}
