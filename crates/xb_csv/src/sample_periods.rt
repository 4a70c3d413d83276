// Times that sigrok counts by the units of a sample, of which it cuts off what is not whole.
ghost use Rattle.std.specs.Prelude.{◌≡◌, ◌<◌};
ghost use Rattle.xb_csv.specs.Tables.{counts_periods, cut_by, cut_times, in_periods};

/// How times are counted where something is cut off.
#[derive(Clone, Copy, Debug, PartialEq, Eq)]
pub struct CutTimes {
    /// So many units of the time column are a second,
    pub units: u64,
    /// and so many samples.
    pub rate: u64,
    /// The units by which the time of a sample is later than that of the one before.
    pub period: u64,
}

// The whole units of a sample, of which there are so many in a second.
fn cut_by(units: u64, rate: u64) -> CutTimes
    requires { 0 < rate }
    ensures { result ≡ cut_by units rate }
{
    CutTimes {
        units,
        rate,
        period: units / rate,
    }
}

// How times are counted of so many units a second, if something is cut off.
pub(crate) fn cut_times(units: u64, rate: Option<u64>) -> Option<CutTimes>
    ensures { result ≡ cut_times units rate }
{
    let rate = rate?;
    if rate > 0 && rate < units && units % rate != 0 {
        Some(cut_by(units, rate))
    } else {
        None
    }
}

// The periods that a time is, if they are whole.
pub(crate) fn in_periods(period: u64, time: u64) -> Option<u64>
    ensures { result ≡ in_periods period time }
{
    if period > 0 && time % period == 0 {
        Some(time / period)
    } else {
        None
    }
}

// Whether the first time is some whole periods.
pub(crate) fn counts_periods(period: u64, time: Option<u64>) -> bool
    ensures { result ≡ counts_periods period time }
{
    match time {
        Some(time) => time > 0 && in_periods(period, time).is_some(),
        None => false,
    }
}
