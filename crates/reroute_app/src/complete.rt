//! The law that runs are complete.
ghost use Rattle.std.specs.Prelude.{map, string_bytes};
ghost use Rattle.reroute_app.specs.Complete.{CompletesUnlessFault};

use crate::run;
use host_edge::{Folder, Sink};
use report_text::Status;
use route_search::Tally;
use std::alloc::Global;
use std::thread::Threads;

/// `run`, with the law that it is complete.
///
/// Where the arguments have a form, the folder exposes its files, the files that the arguments name
/// are within their limits, the diagram is valid, no read failed, the sink met no fault and memory
/// sufficed, the sink got the whole output, and the status is `Refused`, `BadLine` or `AuditNo`
/// where the cause of that holds, else `Done`.
pub fn run_to_completion<R: Threads + Sync, F: Folder, O: Sink>(
    rt: &R,
    alloc: Global,
    words: &[String],
    folder: &mut F,
    out: &mut O,
    tally: &mut Tally,
) -> Status
    ensures complete { CompletesUnlessFault (map string_bytes words.now) (F.files folder.old) (F.notes folder.old)
        (F.notes folder.new) (O.held out.old) (O.held out.new) (O.faults out.old) (O.faults out.new) result }
{
    run(rt, alloc, words, folder, out, tally)
}
