// The plain types.
ghost use Rattle.std.specs.Prelude.{◌<◌, length};
ghost use Rattle.xb_model.specs.declared.digits.TheConstants.{NUMBER_DIGITS};

use xb_model::{
    Contact, Dialled, Digit, Key, KeyDigits, Limits, LineNo, Mark, NumberDigits, On, OnLine, Order,
    Plan, PrefixDigits, Reason, Relays, Row, RowFault, Signal, Tone, Trunk, mf, plan_len,
};

/// The states of a contact.
pub const CONTACTS: [Contact; 3] = [Contact::Make, Contact::Brk, Contact::Close];

/// Why an attempt is refused.
pub const REASONS: [Reason; 4] = [
    Reason::Mutilated,
    Reason::Unknown,
    Reason::Abandoned,
    Reason::TimedOut,
];

/// The plans of numbers.
pub const PLANS: [Plan; 2] = [Plan::Seven, Plan::Ten];

/// Why loop rows are refused.
pub const ROW_FAULTS: [RowFault; 8] = [
    RowFault::Read,
    RowFault::Header,
    RowFault::Fields(1),
    RowFault::Line(1),
    RowFault::Contact(1),
    RowFault::Ms(1),
    RowFault::TooMany,
    RowFault::NoMemory,
];

/// What is heard on a line.
pub const SIGNALS: [Signal; 5] = [
    Signal::Seize,
    Signal::Digit(11, false),
    Signal::TimeOut,
    Signal::Release,
    Signal::Close,
];

/// Makes numbers that have a range.
pub fn make_numbers(
    line: u16,
    trunk: u16,
    digit: u8,
) -> (Option<LineNo>, Option<Trunk>, Option<Digit>) {
    (LineNo::new(line), Trunk::new(trunk), Digit::new(digit))
}

/// Reads them.
pub fn read_numbers(line: LineNo, trunk: Trunk, digit: Digit) -> (u16, u16, u8) {
    (line.get(), trunk.get(), digit.get())
}

/// Makes the three lists of digits.
pub fn make_lists(
    digits: &[Digit],
) -> (
    Option<NumberDigits>,
    Option<KeyDigits>,
    Option<PrefixDigits>,
) {
    (
        NumberDigits::of(digits),
        KeyDigits::of(digits),
        PrefixDigits::of(digits),
    )
}

/// Reads them.
pub fn read_lists<'a>(
    number: &'a NumberDigits,
    keyed: &'a KeyDigits,
    prefix: &'a PrefixDigits,
) -> [&'a [Digit]; 3] {
    [number.digits(), keyed.digits(), prefix.digits()]
}

/// Puts a digit into one.
pub fn push_digit(number: &mut NumberDigits, digit: Digit)
    requires { length number.old < NUMBER_DIGITS }
{
    number.push(digit)
}

/// Makes a row.
pub fn make_row(line: LineNo, contact: Contact, ms: u32) -> Option<Row> {
    Row::new(line, contact, ms)
}

/// Reads it.
pub fn read_row(row: &Row) -> (LineNo, Contact, u32) {
    (row.line(), row.contact(), row.ms())
}

/// Puts something on a line.
pub fn put_on<T>(line: LineNo, what: T) -> On<T> {
    On { line, what }
}

/// The line of an item.
pub fn line_of<T: OnLine>(item: &T) -> LineNo {
    item.line()
}

/// The lines of a row and of a mark.
pub fn lines_of(row: &Row, mark: &On<Mark>) -> [LineNo; 2] {
    [line_of(row), line_of(mark)]
}

/// How long a number is.
pub fn length_of_number(plan: Plan, digits: &[Digit]) -> Option<u8> {
    plan_len(plan, digits)
}

/// The standard limits, in ms.
pub fn standard_limits() -> [u32; 6] {
    let standard = Limits::standard();
    [
        standard.pulse_min,
        standard.pulse_max,
        standard.make_min,
        standard.pause,
        standard.release,
        standard.timeout,
    ]
}

/// The patterns of two out of five.
pub fn patterns(count: u8, bad: bool, bits: [bool; 5]) -> [Relays; 2] {
    [Relays::of_count(count, bad), Relays::of_bits(bits)]
}

/// Reads one.
pub fn read_pattern(relays: Relays) -> (bool, Option<Digit>) {
    (relays.check(), relays.digit())
}

/// The keys.
pub fn keys(digit: Digit) -> [Key; 3] {
    [Key::Digit(digit), Key::Kp, Key::St]
}

/// The two frequencies of a key, in Hz.
pub fn pair_of(key: Key) -> (u16, u16) {
    let Tone { low, high } = mf(key);
    (low, high)
}

/// What comes of an attempt.
pub fn outcomes(number: NumberDigits, reason: Reason, heard: u8) -> [Dialled; 2] {
    [Dialled::Number(number), Dialled::Refused(reason, heard)]
}

/// What a sender is told.
pub fn orders(trunk: Trunk, digits: KeyDigits, reason: Reason, heard: u8) -> [Order; 2] {
    [Order::Key(trunk, digits), Order::Refused(reason, heard)]
}

/// What stands on a tape.
pub fn marks(trunk: Trunk, key: Key, tone: Tone, reason: Reason, heard: u8) -> [Mark; 3] {
    [
        Mark::Trunk(trunk),
        Mark::Tone(key, tone),
        Mark::Refused(reason, heard),
    ]
}

// A copy of what is behind a reference.
fn copy_of<T: Copy>(item: &T) -> T {
    *item
}

/// What may be copied.
pub fn copies(row: &Row, mark: &On<Mark>) -> (Row, Mark, On<Mark>) {
    (copy_of(row), copy_of(&mark.what), copy_of(mark))
}

/// What has a default, as a list of fixed room asks of its items.
pub fn defaults() -> (Digit, On<Signal>, On<Dialled>, On<Order>, On<Mark>) {
    (
        Digit::default(),
        On::default(),
        On::default(),
        On::default(),
        On::default(),
    )
}
