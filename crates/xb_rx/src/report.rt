// What is written of keys, as they end.
ghost use Rattle.std.specs.Prelude.{◌≡◌};
ghost use Rattle.xb_rx.specs.Faults.{reported_page};

use crate::keyed::Keyed;
use crate::listing::Listing;
use crate::objects::Objects;
use crate::page::{Page, PageFault};
use crate::parts::{Parts, Sheet};
use crate::request::Written;
use crate::timed::ReportFault;
use jiff_core::Timestamp;
use std::alloc::Global;
use std::io::Write;
use xb_measured::Heard;
use xb_shown::{Picture, Sections};

/// The page of keys, or its differences from what was keyed, or a line for each key, or the objects of keys and
/// entries, or what shows the keyings.
#[derive(Drop)]
pub(crate) enum Report {
    // The page of their keyings, which is written, or compared.
    Page(Page),
    // A line for each key.
    Keys(Listing),
    // An object for each key, and for each entry.
    Objects(Objects),
    // A section for each keying, and for each key in none, or one picture.
    Parts(Parts),
}

// What comes of a page, or of lines, is what comes of what is written.
fn reported_page(written: Result<(), PageFault>) -> Result<(), ReportFault>
    ensures { result ≡ reported_page written }
{
    match written {
        Ok(()) => Ok(()),
        Err(fault) => Err(ReportFault::Page(fault)),
    }
}

impl Report {
    ghost use Rattle.std.specs.Prelude.{◌≡◌, ◌≤◌, ◌<◌, ◌+◌, ◌^◌, ◌++◌, IfErr, OnOk};
    ghost use Rattle.xb_clock.specs.Clocks.{Clock, IsClockSince};
    ghost use Rattle.xb_measured.specs.Receivers.{listed};
    ghost use Rattle.xb_rx.specs.Pages.{Ends, Writes, fresh_against};
    ghost use Rattle.xb_rx.specs.Faults.{IsLateFault};
    ghost use Rattle.xb_rx.specs.Reports.{IsReady, count_of, fresh_report, on_page, report_rest, reported, told_rest};
    ghost use Rattle.xb_rx.specs.Styled.{EndsBy, WritesBy};
    ghost use Rattle.xb_rx.specs.Timed.{Timing, timing_by, untimed};

    /// What is written where no key has come yet.
    pub(crate) fn new(alloc: Global, written: Written) -> Report
        ensures { (timing : Timing) → reported timing result ≡ fresh_report timing written }
    {
        match written {
            Written::Page(line, trunk) => Report::Page(Page::new(alloc, line, trunk)),
            Written::Keys => Report::Keys(Listing { last: None }),
            Written::Objects => Report::Objects(Objects::new(alloc)),
            Written::Sections => Report::Parts(Parts::new(alloc, Sheet::Page(Sections::new()))),
            Written::Picture => {
                Report::Parts(Parts::new(alloc, Sheet::Picture(Picture::new(alloc))))
            }
        }
    }

    /// The differences from what was keyed, where no key has come yet.
    pub(crate) fn against(alloc: Global, keyed: Vec<Keyed>) -> Report
        ensures { (timing : Timing) → reported timing result ≡ on_page (fresh_against keyed.items) }
    {
        Report::Page(Page::against(alloc, keyed))
    }

    /// Takes the key that ended, if one did, and writes what it makes plain: objects with their times of day, where the
    /// one is given at which the sound begins. On an `Err` the beginning of this was written.
    pub(crate) fn take<W: Write, E: Write>(
        &mut self,
        alloc: Global,
        since: Option<Timestamp>,
        key: Option<Heard>,
        out: &mut W,
        err: &mut E,
    ) -> Result<(), ReportFault>
        requires ready { IsReady (reported untimed self.old) }
        requires count { count_of (reported untimed self.old) + 1 < 2 ^ 64 }
        ensures page { (clock : Clock) → IsClockSince since clock →
            WritesBy (report_rest (reported (timing_by since clock) self.old)) (listed key)
            (report_rest (reported (timing_by since clock) self.new))
            result (W.contents out.old) (W.contents out.new) }
        ensures told { (timing : Timing) →
            Writes (λ later. told_rest (reported timing self.old) (listed key ++ later))
            (told_rest (reported timing self.new))
            result (E.contents err.old) (E.contents err.new) }
        ensures late { IfErr result (IsLateFault since) }
        ensures count { count_of (reported untimed self.new) ≤ count_of (reported untimed self.old) + 1 }
        ensures ready { OnOk result (IsReady (reported untimed self.new)) }
    {
        match self {
            Report::Page(page) => reported_page(page.take(alloc, key, out, err)),
            Report::Keys(listing) => reported_page(listing.take(alloc, key, out)),
            Report::Objects(objects) => objects.take(alloc, since, key, out),
            Report::Parts(parts) => reported_page(parts.take(alloc, key, out)),
        }
    }

    /// Takes the key that sounds at the end, if one does, and writes what is left. On an `Err` the beginning of this was
    /// written.
    pub(crate) fn end<W: Write, E: Write>(
        &mut self,
        alloc: Global,
        since: Option<Timestamp>,
        key: Option<Heard>,
        out: &mut W,
        err: &mut E,
    ) -> Result<(), ReportFault>
        requires ready { IsReady (reported untimed self.old) }
        requires count { count_of (reported untimed self.old) + 1 < 2 ^ 64 }
        ensures page { (clock : Clock) → IsClockSince since clock →
            EndsBy (report_rest (reported (timing_by since clock) self.old) (listed key)) result
            (W.contents out.old) (W.contents out.new) }
        ensures told { (timing : Timing) →
            Ends (told_rest (reported timing self.old) (listed key)) result
            (E.contents err.old) (E.contents err.new) }
        ensures late { IfErr result (IsLateFault since) }
    {
        match self {
            Report::Page(page) => reported_page(page.end(alloc, key, out, err)),
            Report::Keys(listing) => reported_page(listing.take(alloc, key, out)),
            Report::Objects(objects) => objects.take(alloc, since, key, out),
            Report::Parts(parts) => reported_page(parts.end(alloc, key, out)),
        }
    }
}
