// Why clap refuses words, in a line and in plain words.
ghost use Rattle.std.specs.Prelude.{◌≡◌, IfOk, map};
ghost use Rattle.xb_command.specs.Answers.{IsOneLine, in_line};

use crate::table::{Program, Value};
use crate::usage::range_text;
use std::alloc::{AllocError, Global};

// A byte of a line: a control character is none.
fn in_line(byte: u8) -> u8
    ensures { result ≡ in_line byte }
{
    if byte < 32 || byte == 127 { b'?' } else { byte }
}

/// A text in one line: a control character of it is `?`.
pub(crate) fn line_of(alloc: Global, text: &[u8]) -> Result<Vec<u8>, AllocError>
    ensures { IfOk result (λ line. line.items ≡ map in_line text.now) }
{
    let mut line = Vec::new(alloc);
    for byte in text {
        line.push(in_line(*byte))?;
    }
    Ok(line)
}

// What clap says, and what that is in plain words.
const PLAIN: [(&str, &str); 7] = [
    ("\n  ", " "),
    ("unexpected argument '-", "there is no option '-"),
    ("unexpected argument ", "there is one word too many, "),
    ("' found", "'"),
    ("cannot be used multiple times", "cannot be given twice"),
    ("invalid digit found in string", "a whole number is wanted"),
    (
        "cannot parse integer from empty string",
        "a whole number is wanted",
    ),
];

// A message in plain words.
fn in_plain_words(alloc: Global, text: &str) -> Result<String, AllocError> {
    let mut plain = text.to_string(alloc)?;
    for (theirs, ours) in &PLAIN {
        plain = plain.replace(alloc, *theirs, *ours)?;
    }
    Ok(plain)
}

// Whether a message is of the value of this option.
fn is_of(alloc: Global, message: &str, name: &str) -> Result<bool, AllocError> {
    let option = format!(in alloc; "for '--{name} <")?;
    Ok(message.contains(option.as_str()))
}

// The numbers that the option of a message takes, where it is of one that takes numbers and does not name them.
fn range_in(alloc: Global, program: &Program<'_>, message: &str) -> Result<String, AllocError> {
    if message.contains("..=") {
        return Ok(String::new(alloc));
    }
    for word in program.words {
        if let Value::Number(least, most) = word.value {
            if is_of(alloc, message, word.name)? {
                return range_text(alloc, least, most);
            }
        }
    }
    Ok(String::new(alloc))
}

// Whether a message is of a word that looks like a number below 0.
fn is_of_negative(message: &str) -> bool {
    match message.strip_prefix("unexpected argument '-") {
        Some(rest) => rest.starts_with(|c: char| c.is_ascii_digit() || c == '.'),
        None => false,
    }
}

// How a value that begins with `-` is given to the option before it, if the words end with such two.
fn given_with_equals(alloc: Global, words: &[String]) -> Result<String, AllocError> {
    match words {
        [.., option, value] if option.starts_with("--") => {
            format!(in alloc; "; a value that begins with - needs =, as in {option}={value}")
        }
        _ => Ok(String::new(alloc)),
    }
}

// The name of the option that a word is where a dash more stands before it, as `ring` of `-ring`.
fn name_after_dash<'a>(program: &Program<'a>, words: &[String]) -> Option<&'a str> {
    let [.., word] = words else {
        return None;
    };
    let name = word.strip_prefix('-')?;
    for option in program.words {
        if option.name == name {
            return Some(option.name);
        }
    }
    None
}

// Whether a word is letters after one dash, of which clap names the first alone.
fn is_letters(word: &str) -> bool {
    match word.strip_prefix('-') {
        Some(letters) => !letters.starts_with('-') && letters.len() > 1,
        None => false,
    }
}

// A message about the last of these words, which it names whole.
fn with_whole_word(alloc: Global, words: &[String], message: &str) -> Result<String, AllocError> {
    match words {
        [.., word] if message.starts_with("unexpected argument '-") && is_letters(word) => {
            format!(in alloc; "unexpected argument '{word}' found")
        }
        _ => message.to_string(alloc),
    }
}

// The name that may be meant, if clap knows one.
fn similar_name(tips: &str) -> Option<&str> {
    let tip = tips.trim_start().strip_prefix("tip: a similar ")?;
    match tip.split_once('\n') {
        Some((first, _)) => Some(first),
        None => Some(tip),
    }
}

// What helps beside a message about the last of these words: how a value below 0 is given, or the name that may be meant.
fn help_beside(
    alloc: Global,
    program: &Program<'_>,
    words: &[String],
    message: &str,
    tips: &str,
) -> Result<String, AllocError> {
    if is_of_negative(message) {
        return given_with_equals(alloc, words);
    }
    if let Some(name) = name_after_dash(program, words) {
        return format!(in alloc; "; a similar argument exists: '--{name}'");
    }
    match similar_name(tips) {
        Some(name) => format!(in alloc; "; a similar {name}"),
        None => Ok(String::new(alloc)),
    }
}

/// Why clap refuses words, in one line: its message up to the first line that is empty, and what helps.
pub(crate) fn reason_of(
    alloc: Global,
    program: &Program<'_>,
    words: &[String],
    message: &str,
) -> Result<Vec<u8>, AllocError>
    ensures { IfOk result (λ line. IsOneLine line.items) }
{
    let text = message.strip_prefix("error: ").unwrap_or(message);
    let (first, tips) = text.split_once("\n\n").unwrap_or((text.trim_end(), ""));
    let whole = with_whole_word(alloc, words, first)?;
    let plain = in_plain_words(alloc, &whole)?;
    let range = range_in(alloc, program, &whole)?;
    let help = help_beside(alloc, program, words, &whole, tips)?;
    let line = format!(in alloc; "{plain}{range}{help}")?;
    line_of(alloc, line.as_bytes())
}
