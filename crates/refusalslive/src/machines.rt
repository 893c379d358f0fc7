//! The lines and the clock of the machine.

ghost use Rattle.std.specs.Prelude.{◌≡◌, IfOk, Some, codes, option_map, string_bytes};
ghost use Rattle.std.specs.Int.NonZero.{non_zero_u64_get};

use commandoptions::LineWord;
use daliframe::BusNumber;
use livehouse::{Devices, DownWatch, End, HostLine, HostSite, Site, SiteFault, StopAt};
use liveline::LiveClock;
use std::alloc::{AllocError, Global};
use std::num::NonZeroU64;
use std::rt::Files;
use std::sync::{Arc, Wait};
use std::thread::Threads;
use std::time::Clock as Timer;

/// `the_machine_reads_what_it_is_to_write`, `the_machine_writes_to_what_it_reads`: of two paths one
/// was read and written.
pub fn machine_reads_the_first_path_and_writes_the_second<
    'h,
    R: Files + Timer + Threads + Wait + Eprint + Clone + Send + Sync + Drop + 'static,
    D: Devices<R::File> + Clone + Send + 'static,
>(
    site: &HostSite<'h, R, D>,
    alloc: Global,
    line: LineWord,
    number: BusNumber,
    watch: &Arc<DownWatch>,
) -> Result<HostLine<R, D>, AllocError>
where
    R::File: Send + 'static,
    requires from { line.from.now ≡ codes "in" }
    requires to { option_map (λ path. path.now) line.to ≡ Some (codes "out") }
    ensures from { IfOk result (λ bus. string_bytes bus.set.opener.from ≡ codes "in") }
    ensures to { IfOk result
        (λ bus. option_map string_bytes bus.set.opener.to ≡ Some (codes "out")) }
{
    site.line(alloc, line, number, 1000, watch)
}

/// `the_machine_has_a_third_of_the_ticks`, `the_machine_looks_for_no_file`: the machine's clock had
/// another period, or was not ended by the file.
pub fn clock_of_the_machine_has_its_period_and_its_file<
    'h,
    R: Files + Timer + Threads + Wait + Eprint + Clone + Send + Sync + Drop + 'static,
    D: Devices<R::File> + Clone + Send + 'static,
>(
    site: &HostSite<'h, R, D>,
    alloc: Global,
    period: NonZeroU64,
    end: End,
) -> Result<LiveClock<&'h R, StopAt<'h, R>>, SiteFault>
where
    R::File: Send + 'static,
    requires { option_map (λ path. path.now) end.stop ≡ Some (codes "stop") }
    ensures period { IfOk result (λ clock. clock.period ≡ non_zero_u64_get period) }
    ensures stop { IfOk result
        (λ clock. option_map string_bytes clock.stop.path ≡ Some (codes "stop")) }
{
    site.clock(alloc, period, 0, end)
}
