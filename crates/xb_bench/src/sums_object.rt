// The JSON objects of what the digits of a line come to, and of the windows by which they are judged.
ghost use Rattle.std.specs.Prelude.{◌≡◌, IfOk};
ghost use Rattle.serde_json.specs.View.{view};
ghost use Rattle.xb_bench.specs.Objects.{series_data, summary_object, summary_of_parts, verdicts_data, window_data};
ghost use Rattle.xb_bench.specs.Objects.{windows_object, windows_of_parts};

use crate::digit_object::{extent_data, figure_data};
use serde_json::Value;
use std::alloc::{AllocError, Global};
use xb_contact::Scale;
use xb_json::{Member, object_of};
use xb_model::LineNo;
use xb_turns::{Series, Sums, Verdicts, Window, Windows, mean_of, tenths_of_ms};

// What figures come to.
fn series_data(alloc: Global, series: Series) -> Result<Value, AllocError>
    ensures { IfOk result (λ value. view value ≡ series_data series) }
{
    let members = [
        ("count", Member::Number(series.count)),
        ("least", figure_data(series.least)),
        ("mean", figure_data(mean_of(series))),
        ("most", figure_data(series.most)),
    ];
    object_of(alloc, &members)
}

// How often each verdict was given.
fn verdicts_data(alloc: Global, verdicts: Verdicts) -> Result<Value, AllocError>
    ensures { IfOk result (λ value. view value ≡ verdicts_data verdicts) }
{
    let members = [
        ("FAST", Member::Number(verdicts.fast)),
        ("GOOD", Member::Number(verdicts.good)),
        ("HIGH", Member::Number(verdicts.high)),
        ("LOW", Member::Number(verdicts.low)),
        ("PASS", Member::Number(verdicts.pass)),
        ("SLOW", Member::Number(verdicts.slow)),
    ];
    object_of(alloc, &members)
}

// What stands in the object of a summary, or of windows, as an object of its own.
#[derive(Drop)]
struct ThreeParts {
    first: Value,
    second: Value,
    third: Value,
}

// The object of a summary with these parts.
fn summary_of_parts(
    alloc: Global,
    line: LineNo,
    scale: Scale,
    sums: Sums,
    parts: &ThreeParts,
) -> Result<Value, AllocError>
    ensures { IfOk result (λ value. view value ≡ summary_of_parts line scale sums
        (view parts.now.first) (view parts.now.second) (view parts.now.third)) }
{
    let members = [
        (
            "bounce_ms_tenths",
            figure_data(tenths_of_ms(scale, sums.bounce)),
        ),
        ("digits", Member::Number(sums.digits)),
        ("event", Member::Word("SUMMARY")),
        ("line", Member::Number(u64::from(line.get()))),
        ("open_permille", Member::Value(&parts.first)),
        ("speed_tenths", Member::Value(&parts.second)),
        ("spoiled", Member::Number(sums.spoiled)),
        ("verdicts", Member::Value(&parts.third)),
    ];
    object_of(alloc, &members)
}

/// The object of what the digits of a line come to. `Err` says that memory ran out.
pub(crate) fn summary_object(
    alloc: Global,
    line: LineNo,
    scale: Scale,
    sums: Sums,
) -> Result<Value, AllocError>
    ensures { IfOk result (λ value. view value ≡ summary_object line scale sums) }
{
    let parts = ThreeParts {
        first: series_data(alloc, sums.share)?,
        second: series_data(alloc, sums.speed)?,
        third: verdicts_data(alloc, sums.verdicts)?,
    };
    summary_of_parts(alloc, line, scale, sums, &parts)
}

// A window.
fn window_data(alloc: Global, window: Window) -> Result<Value, AllocError>
    ensures { IfOk result (λ value. view value ≡ window_data window) }
{
    let (least, most) = (u128::from(window.least), u128::from(window.most));
    extent_data(alloc, Some(least), Some(most))
}

// The object of windows with these parts.
fn windows_of_parts(alloc: Global, parts: &ThreeParts) -> Result<Value, AllocError>
    ensures { IfOk result (λ value. view value ≡ windows_of_parts
        (view parts.now.first) (view parts.now.second) (view parts.now.third)) }
{
    let members = [
        ("accept_speed_tenths", Member::Value(&parts.first)),
        ("adjust_speed_tenths", Member::Value(&parts.second)),
        ("event", Member::Word("WINDOWS")),
        ("open_permille", Member::Value(&parts.third)),
    ];
    object_of(alloc, &members)
}

/// The object of the windows by which digits are judged. `Err` says that memory ran out.
pub(crate) fn windows_object(alloc: Global, windows: Windows) -> Result<Value, AllocError>
    ensures { IfOk result (λ value. view value ≡ windows_object windows) }
{
    let parts = ThreeParts {
        first: window_data(alloc, windows.accept)?,
        second: window_data(alloc, windows.adjust)?,
        third: window_data(alloc, windows.share)?,
    };
    windows_of_parts(alloc, &parts)
}
