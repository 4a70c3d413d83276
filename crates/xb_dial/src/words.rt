// What the words of the command line ask for.
ghost use Rattle.std.specs.Prelude.{◌≡◌, IfErr, IfOk};
ghost use Rattle.xb_dial.specs.Options.{IsNothing, Say, SayOptions, form_of, has_idle_seed, manner_of, standard_speed, up_to, wear_of};

use crate::Bouncing;
use crate::fault_words::faults_said;
use crate::request::{Asked, Form, Manner, Request};
use std::alloc::Global;
use xb_calls::{RowOrder, Speed};
use xb_command::{Answer, FLAG, NOTHING, Program, Value, Word, Words};
use xb_model::Plan;
use xb_worn::Wear;

// The most percent by which each pulse of a digit is longer for each pulse before it (own limit).
const MOST_SLOW_PERCENT: u32 = 1_000;

// The most ms by which a time is longer or shorter (own limit).
const MOST_JITTER_MS: u32 = 10_000;

// The least and the most us in which all bounces end (own limits).
const LEAST_BOUNCE_US: u32 = 8;

const MOST_BOUNCE_US: u32 = 100_000;

/// The program and its words.
pub const PROGRAM: Program<'static> = Program {
    name: "mfdial",
    about: "Prints the loop rows (CSV) that dial calls. Each line of CALLS is a call: the line, a blank, and the digits, which
may be grouped by blanks and hyphens. Blanks are spaces and tabs. Lines that are blank or begin with # are passed
over.

    echo '7 234-5678' | mfdial
    ( cat routes.toml; echo ---; mfdial calls.txt ) | mfbank

The status is 0 for rows, 1 for a fault, 2 where the words are refused, and 141 where the reader of the rows goes
away.",
    words: &[
        Word {
            name: "CALLS",
            value: Value::MayStand,
            help: "the calls, a file; without it, or with -, standard input",
            ..FLAG
        },
        Word {
            name: "speed",
            value: Value::OneOf(&["10", "20"]),
            shown: "N",
            default: Some("10"),
            help: "pulses a second",
            ..FLAG
        },
        Word {
            name: "break",
            value: Value::Number(0, u32::MAX),
            shown: "MS",
            help: "the break of a pulse (60 at 10 pulses a second, 30 at 20)",
            ..FLAG
        },
        Word {
            name: "make",
            value: Value::Number(0, u32::MAX),
            shown: "MS",
            help: "the make between two pulses of a digit (40 at 10 pulses a second, 20 at 20)",
            ..FLAG
        },
        Word {
            name: "pause",
            value: Value::Number(0, u32::MAX),
            shown: "MS",
            default: Some("600"),
            help: "the make after a digit",
            ..FLAG
        },
        Word {
            name: "seize",
            value: Value::Number(0, u32::MAX),
            shown: "MS",
            default: Some("500"),
            help: "the make before the first digit",
            ..FLAG
        },
        Word {
            name: "hang-up",
            value: Value::Number(0, u32::MAX),
            shown: "MS",
            default: Some("400"),
            help: "the break between two calls of a line",
            ..FLAG
        },
        Word {
            name: "slow",
            value: Value::Number(0, MOST_SLOW_PERCENT),
            shown: "PERCENT",
            default: Some("0"),
            help: "a governor that slows down: each pulse of a digit is longer by so much for each before it",
            ..FLAG
        },
        Word {
            name: "jitter",
            value: Value::Number(0, MOST_JITTER_MS),
            shown: "MS",
            help: "each break, and each make between two pulses, is longer or shorter by up to so many ms (0)",
            ..FLAG
        },
        Word {
            name: "fault",
            value: Value::Text,
            shown: "PLACE:WHAT,..",
            help: "faults: 1.3.2:break=MS, 1.3.2:lost and 1.3.2:extra of call 1, digit 3, pulse 2;
        1.3:pause=MS and 1.3:flash=MS after digit 3; 1:preliminary=MS before the first digit",
            ..FLAG
        },
        Word {
            name: "out-of-limits",
            help: "times beyond the limits of an office too",
            ..FLAG
        },
        Word {
            name: "vcd",
            help: "the contact of the one line that dials, as a VCD in us, in place of rows",
            ..FLAG
        },
        Word {
            name: "bounce",
            value: Value::Number(LEAST_BOUNCE_US, MOST_BOUNCE_US),
            shown: "US",
            wants: &["vcd"],
            help: "the contact bounces within so many us of each change",
            ..FLAG
        },
        Word {
            name: "seed",
            value: Value::Number(0, u32::MAX),
            shown: "N",
            wants: &["jitter", "bounce"],
            help: "which jitter or bounces they are (0)",
            ..FLAG
        },
        Word {
            name: "plan",
            value: Value::OneOf(&["7", "10"]),
            shown: "N",
            default: Some("7"),
            help: "how many digits the plan has by which numbers have to be complete",
            ..FLAG
        },
        Word {
            name: "in-turn",
            not_with: &["vcd"],
            help: "one row of each line in turn, in place of line by line",
            ..FLAG
        },
        Word {
            name: "incomplete",
            help: "any digits, complete or not",
            ..FLAG
        },
    ],
    reads: Some(&["CALLS"]),
    writes_sound: false,
    usage: "",
};

// What the options of the command line say, but for the faults.
#[derive(Clone, Copy)]
pub(crate) struct Options<'a> {
    pub(crate) calls: Option<&'a str>,
    pub(crate) speed: Option<u32>,
    pub(crate) break_ms: Option<u32>,
    pub(crate) make_ms: Option<u32>,
    pub(crate) pause_ms: Option<u32>,
    pub(crate) seize_ms: Option<u32>,
    pub(crate) hang_up_ms: Option<u32>,
    pub(crate) slow: Option<u32>,
    pub(crate) jitter: Option<u32>,
    pub(crate) bounce: Option<u32>,
    pub(crate) seed: Option<u32>,
    pub(crate) plan: Option<u32>,
    pub(crate) beyond: bool,
    pub(crate) vcd: bool,
    pub(crate) in_turn: bool,
    pub(crate) any: bool,
}

// What the words say.
fn options_of<'a>(words: &Words<'a>) -> Options<'a>
    ensures { SayOptions words.now result }
{
    Options {
        calls: words.text("CALLS"),
        speed: words.number("speed"),
        break_ms: words.number("break"),
        make_ms: words.number("make"),
        pause_ms: words.number("pause"),
        seize_ms: words.number("seize"),
        hang_up_ms: words.number("hang-up"),
        slow: words.number("slow"),
        jitter: words.number("jitter"),
        bounce: words.number("bounce"),
        seed: words.number("seed"),
        plan: words.number("plan"),
        beyond: words.flag("out-of-limits"),
        vcd: words.flag("vcd"),
        in_turn: words.flag("in-turn"),
        any: words.flag("incomplete"),
    }
}

// The standard speed of so many pulses a second.
fn standard_speed(pulses: u32) -> Option<Speed>
    ensures { result ≡ standard_speed pulses }
{
    match pulses {
        10 => Some(Speed::ten()),
        20 => Some(Speed::twenty()),
        _ => None,
    }
}

// The number of an option that is 0 unless it is given, where it is not greater.
fn up_to(most: u32, given: Option<u32>) -> Option<u32>
    ensures { result ≡ up_to most given }
{
    let number = given.unwrap_or(0);
    if number <= most { Some(number) } else { None }
}

// How the dial is worn, of this standard speed but for the times that are given in place of its own.
fn wear_of(options: Options<'_>, standard: Speed) -> Option<Wear>
    ensures { result ≡ wear_of options.entry standard }
{
    let slow = up_to(MOST_SLOW_PERCENT, options.slow)?;
    let jitter = up_to(MOST_JITTER_MS, options.jitter)?;
    Some(Wear {
        speed: Speed {
            break_ms: options.break_ms.unwrap_or(standard.break_ms),
            make_ms: options.make_ms.unwrap_or(standard.make_ms),
            pause_ms: options.pause_ms.unwrap_or(standard.pause_ms),
            seize_ms: options.seize_ms.unwrap_or(standard.seize_ms),
            hang_up_ms: options.hang_up_ms.unwrap_or(standard.hang_up_ms),
        },
        slow_percent: slow as u16,
        jitter_ms: jitter as u16,
        seed: u64::from(options.seed.unwrap_or(0)),
    })
}

// What is printed; `None` where bounces are asked for and no dump, or they take a time that is none.
fn form_of(options: Options<'_>) -> Option<Form>
    ensures { result ≡ form_of options.entry }
{
    let seed = u64::from(options.seed.unwrap_or(0));
    match (options.vcd, options.bounce) {
        (false, None) => Some(Form::Rows),
        (true, None) => Some(Form::Trace(Bouncing { us: 0, seed })),
        (true, Some(us)) if LEAST_BOUNCE_US <= us && us <= MOST_BOUNCE_US => {
            Some(Form::Trace(Bouncing { us, seed }))
        }
        _ => None,
    }
}

// Whether a seed is given for nothing: no time swings, and no contact bounces.
fn has_idle_seed(options: Options<'_>) -> bool
    ensures { result ≡ has_idle_seed options.entry }
{
    options.seed.is_some() && options.jitter.is_none() && options.bounce.is_none()
}

// How the dial is, and what is printed; `None` where there is no such standard speed or plan, a number is out of its range,
// a seed is given for nothing, or an order of lines for the contact of one.
fn manner_of(options: Options<'_>) -> Option<Manner>
    ensures { result ≡ manner_of options.entry }
{
    if has_idle_seed(options) || (options.vcd && options.in_turn) {
        return None;
    }
    let standard = standard_speed(options.speed.unwrap_or(10))?;
    let plan = Plan::of_digits(options.plan.unwrap_or(7))?;
    Some(Manner {
        wear: wear_of(options, standard)?,
        beyond: options.beyond,
        order: if options.in_turn {
            RowOrder::InTurn
        } else {
            RowOrder::ByLine
        },
        whole: if options.any { None } else { Some(plan) },
        form: form_of(options)?,
    })
}

/// What the words ask for: the standard speed of 10 or 20 pulses a second with each time that is given in place of its
/// own, how the dial is worn, what is wrong at single places, the order of the lines, the plan, unless any digits are
/// taken, and rows, or the contact of one line as a dump.
#[tactic(auto, using(crate::proofs::Unfit::no_faults))]
pub(crate) fn asked_of<'a>(alloc: Global, words: &Words<'a>) -> Result<Asked<'a>, Answer<'a>>
    ensures says { IfOk result (λ asked. Say words.now asked) }
    ensures nothing { IfErr result (IsNothing words.now) }
{
    let options = options_of(words);
    let Some(manner) = manner_of(options) else {
        return Err(Answer::Unfit(NOTHING));
    };
    match faults_said(alloc, words.text("fault")) {
        Ok(faults) => Ok(Asked {
            calls: options.calls,
            request: Request { manner, faults },
        }),
        Err(answer) => Err(answer),
    }
}
