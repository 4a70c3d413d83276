//! What the definitions of `specs/` come to: each law is the contract of a function that does nothing.
ghost use Rattle.xb_csv.specs.LostEdges.{LostEdgesAreSaid};
ghost use Rattle.xb_csv.specs.WorkedEdges.{EdgesAreRead, WiresAreNamed};
ghost use Rattle.xb_csv.specs.WorkedRates.{PeriodsAreCut, RatesAreRead};
ghost use Rattle.xb_csv.specs.WorkedTables.{SecondsAreRead, TablesAreRead};
ghost use Rattle.xb_csv.specs.Written.{LinesAreNamed, WrittenEdgesAreRead, WrittenRowsAreRead};
ghost use Rattle.xb_csv.specs.WrittenTables.{ExponentsAreRead, SaleaeIsRead, SigrokCutTimesAreRead, SigrokSamplesAreRead, SigrokTimesAreRead, TablesAreWritten};

/// What some times in seconds say.
pub fn seconds_are_read()
    ensures { SecondsAreRead }
{}

/// A number with an exponent is that many nanoseconds, of which no part is kept.
pub fn exponents_are_read()
    ensures { ExponentsAreRead }
{}

/// Which rates some texts are.
pub fn rates_are_read()
    ensures { RatesAreRead }
{}

/// The whole units of a sample at some rates.
pub fn periods_are_cut()
    ensures { PeriodsAreCut }
{}

/// What some tables say, and why others say nothing.
pub fn tables_are_read()
    ensures { TablesAreRead }
{}

/// Which names a wire has of which gpiomon writes some texts, and which it has not; and that the name which is found of
/// any text is one of its wire.
pub fn wires_are_named()
    ensures { WiresAreNamed }
{}

/// A line of a chip that has a name, as libgpiod 2 writes it where the chip is given, is found by its number,
/// by its name, with quotes or without, by both together, by all of it, and by nothing else.
pub fn lines_are_named()
    ensures { LinesAreNamed }
{}

/// What some lines of gpiomon say, and why others say nothing.
pub fn edges_are_read()
    ensures { EdgesAreRead }
{}

/// Edges, written as gpiomon writes them, are read back as they are: each at its time, of its wire, in order. The wires
/// have names of their own, each rises and falls in turn, no time is before the one above, and all are below 2^62 ns.
pub fn written_edges_are_read()
    ensures { WrittenEdgesAreRead }
{}

/// What is said of a wire of gpiomon are the levels after its edges, so a lost edge is a level that is said again. Unless
/// edges may be lost, a recording with a lost edge is refused; one without says the same either way, and where they may be
/// lost none is refused for that.
pub fn lost_edges_are_said()
    ensures { LostEdgesAreSaid }
{}

/// Rows of times and levels, written without a header, are read back as they are: at each time the level of each wire.
/// The wires are at most 65,535, no time is before the one above, and all are below 2^62 ns.
pub fn written_rows_are_read()
    ensures { WrittenRowsAreRead }
{}

/// A table of samples, written as sigrok writes it with comments for its version, the channels and the rate,
/// is read back as it is: at each sample, a tick each, the level of each wire that is asked for. The channels
/// have names of their own, fewer than 65,536, and the rate is a whole number of Hz, kHz, MHz or GHz.
pub fn sigrok_samples_are_read()
    ensures { SigrokSamplesAreRead }
{}

/// The same of a table with a column of times, in seconds, ms, us, ns or ps, where a sample is some whole
/// units, or a unit is longer: at each time the level of each wire that is asked for. No time is before the
/// one above, and all are below 2^63.
pub fn sigrok_times_are_read()
    ensures { SigrokTimesAreRead }
{}

/// The same where a sample is no whole units, and a unit is shorter: sigrok cuts the rest off, and counts
/// times by what is left. Each is read as exactly its sample, a tick each.
pub fn sigrok_cut_times_are_read()
    ensures { SigrokCutTimesAreRead }
{}

/// A table as Saleae Logic writes it, or with the label of DSView or WaveForms, is read back as it is: at each time, in
/// seconds to the nanosecond, with a sign before 0 s, the level of each wire that is asked for. No time is
/// before the one above, and all are nearer to 0 s than 2^62 ns.
pub fn saleae_is_read()
    ensures { SaleaeIsRead }
{}

/// What is written of some levels, each table written by hand.
pub fn tables_are_written()
    ensures { TablesAreWritten }
{}
