// The JSON object of a digit.
ghost use Rattle.std.specs.Prelude.{◌≡◌, IfOk, Some};
ghost use Rattle.serde_json.specs.Find.{of_integer};
ghost use Rattle.serde_json.specs.View.{view};
ghost use Rattle.xb_json.specs.Objects.{data_of};
ghost use Rattle.xb_bench.specs.Objects.{digit_object, digit_of_parts, drift_data, event_of, extent_data};
ghost use Rattle.xb_bench.specs.Objects.{figure_data, name_data, signed_of, spread_data, verdict_data, wrong_data};

use crate::setting::Setting;
use serde_json::Value;
use std::alloc::{AllocError, Global};
use xb_contact::Scale;
use xb_json::{Member, object_of};
use xb_model::{Limits, LineNo, MOST_PULSES};
use xb_report::{fault_name, limit_of};
use xb_turns::{
    Drift, Spread, Train, Verdict, Wrong, drift_of, share_of, speed_of, tenths_of_ms, verdict_of,
    word_of,
};

/// A figure in tenths, or null; it stops at 2^64 - 1.
pub(crate) fn figure_data(figure: Option<u128>) -> Member<'static>
    ensures { data_of result ≡ figure_data figure }
{
    match figure {
        Some(tenths) => Member::Number(tenths.min(u128::from(u64::MAX)) as u64),
        None => Member::Null,
    }
}

// Tenths with their sign; they stop at 2^63 - 1.
fn signed_of(is_below: bool, tenths: u128) -> i64
    ensures { result ≡ signed_of is_below tenths }
{
    let most = tenths.min(9_223_372_036_854_775_807) as i64;
    if is_below { 0 - most } else { most }
}

// How the periods change, or null.
fn drift_data(drift: Drift) -> Member<'static>
    ensures { data_of result ≡ drift_data drift }
{
    match drift.tenths {
        Some(tenths) => Member::Signed(signed_of(drift.is_below, tenths)),
        None => Member::Null,
    }
}

/// The least and the most of some figures. `Err` says that memory ran out.
pub(crate) fn extent_data(
    alloc: Global,
    least: Option<u128>,
    most: Option<u128>,
) -> Result<Value, AllocError>
    ensures { IfOk result (λ value. view value ≡ extent_data least most) }
{
    let members = [("least", figure_data(least)), ("most", figure_data(most))];
    object_of(alloc, &members)
}

// The least and the most of some times, or null.
fn spread_data(alloc: Global, scale: Scale, spread: Option<Spread>) -> Result<Value, AllocError>
    ensures { IfOk result (λ value. view value ≡ spread_data scale spread) }
{
    match spread {
        Some(Spread { least, most }) => {
            extent_data(alloc, tenths_of_ms(scale, least), tenths_of_ms(scale, most))
        }
        None => Ok(Value::Null),
    }
}

// The digit that a pause ended, or null where none did, or where it is spoiled.
fn name_data(ended: bool, train: &Train) -> Member<'static>
    ensures { data_of result ≡ name_data ended train.now }
{
    match train.wrong {
        None if ended => Member::Number(train.pulses as u64 % u64::from(MOST_PULSES)),
        _ => Member::Null,
    }
}

// What spoils it, or null.
fn wrong_data(alloc: Global, limits: Limits, wrong: Option<Wrong>) -> Result<Value, AllocError>
    ensures { IfOk result (λ value. view value ≡ wrong_data limits wrong) }
{
    let Some(Wrong { fault, ms }) = wrong else {
        return Ok(Value::Null);
    };
    let members = [
        ("kind", Member::Word(fault_name(fault))),
        ("limit", Member::Number(u64::from(limit_of(limits, fault)))),
        ("ms", Member::Number(ms)),
    ];
    object_of(alloc, &members)
}

// How it is judged, or null.
fn verdict_data(verdict: Option<Verdict>) -> Member<'static>
    ensures { data_of result ≡ verdict_data verdict }
{
    match verdict {
        Some(verdict) => Member::Word(word_of(Some(verdict))),
        None => Member::Null,
    }
}

// What pulses are: a digit, where a pause ended them.
fn event_of(ended: bool) -> &'static str
    ensures { result.now ≡ event_of ended }
{
    if ended { "DIGIT" } else { "UNFINISHED" }
}

// What stands in the object of a digit as an object of its own, or null.
#[derive(Drop)]
struct DigitParts {
    breaks: Value,
    fault: Value,
    makes: Value,
}

// The object of pulses with these parts.
fn digit_of_parts(
    setting: Setting,
    line: LineNo,
    scale: Scale,
    ended: bool,
    train: &Train,
    bounce: u64,
    parts: &DigitParts,
) -> Result<Value, AllocError>
    ensures { IfOk result (λ value. view value
        ≡ digit_of_parts setting line scale ended train.now bounce
        (view parts.now.breaks) (view parts.now.fault) (view parts.now.makes)) }
{
    let (speed, share) = (speed_of(scale, train), share_of(train));
    let verdict = verdict_of(setting.windows, train.pulses, speed, share);
    let members = [
        ("bounce_ms_tenths", figure_data(tenths_of_ms(scale, bounce))),
        ("breaks_ms_tenths", Member::Value(&parts.breaks)),
        ("digit", name_data(ended, train)),
        ("drift_permille", drift_data(drift_of(train))),
        ("event", Member::Word(event_of(ended))),
        ("fault", Member::Value(&parts.fault)),
        ("line", Member::Number(u64::from(line.get()))),
        ("makes_ms_tenths", Member::Value(&parts.makes)),
        ("open_permille", figure_data(share)),
        ("pulses", Member::Number(train.pulses as u64)),
        ("speed_tenths", figure_data(speed)),
        ("verdict", verdict_data(verdict)),
    ];
    object_of(setting.alloc, &members)
}

/// The object of pulses, and whether a pause ended them. `Err` says that memory ran out.
pub(crate) fn digit_object(
    setting: Setting,
    line: LineNo,
    scale: Scale,
    ended: bool,
    train: &Train,
    bounce: u64,
) -> Result<Value, AllocError>
    ensures { IfOk result (λ value. view value
        ≡ digit_object setting line scale ended train.now bounce) }
{
    let parts = DigitParts {
        breaks: spread_data(setting.alloc, scale, Some(train.breaks))?,
        fault: wrong_data(setting.alloc, setting.limits, train.wrong)?,
        makes: spread_data(setting.alloc, scale, train.makes)?,
    };
    digit_of_parts(setting, line, scale, ended, train, bounce, &parts)
}
