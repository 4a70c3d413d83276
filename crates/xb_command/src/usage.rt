// How a program is called, and its help, by its table.
ghost use Rattle.std.specs.Prelude.{◌≡◌, ◌++◌, IfOk, OnOk, string_bytes};
ghost use Rattle.xb_command.specs.Usage.{default_text, help_by, help_line, help_lines, is_lone, joined, mark_by};
ghost use Rattle.xb_command.specs.Usage.{marks_by, named, or_names, or_words, plain_mark, range_text, rule_text, usage_by};
ghost use Rattle.xb_command.specs.Usage.{about_text, more_text, rules_text, value_text};

use crate::table::{Program, Value, Word};
use std::alloc::{AllocError, Global};

// Puts texts after a text.
pub(crate) fn push_all(out: &mut Vec<u8>, parts: &[&str]) -> Result<(), AllocError>
    ensures { OnOk result (out.new.items ≡ out.old.items ++ joined parts.now) }
{
    for part in parts {
        out.extend_from_slice(part.as_bytes())?;
    }
    Ok(())
}

// Whether a name is of a word that stands alone: such a name is in capitals.
fn is_lone(name: &str) -> bool
    ensures { result ≡ is_lone name.now }
{
    match name.as_bytes() {
        [first, ..] => b'A' <= *first && *first <= b'Z',
        [] => false,
    }
}

// Puts a word after a text as it is written on a command line, but for its value.
pub(crate) fn push_named(out: &mut Vec<u8>, name: &str) -> Result<(), AllocError>
    ensures { OnOk result (out.new.items ≡ out.old.items ++ named name.now) }
{
    if is_lone(name) {
        push_all(out, &[name])
    } else {
        push_all(out, &["--", name])
    }
}

// Puts each further word after a text.
pub(crate) fn push_or_names(out: &mut Vec<u8>, names: &[&str]) -> Result<(), AllocError>
    ensures { OnOk result (out.new.items ≡ out.old.items ++ or_names names.now) }
{
    for name in names {
        push_all(out, &[" or "])?;
        push_named(out, *name)?;
    }
    Ok(())
}

// Puts a word with the name of its value after a text.
fn push_plain(out: &mut Vec<u8>, word: &Word<'_>) -> Result<(), AllocError>
    ensures { OnOk result (out.new.items ≡ out.old.items ++ plain_mark word.now) }
{
    push_named(out, word.name)?;
    if word.shown.is_empty() {
        Ok(())
    } else {
        push_all(out, &[" ", word.shown])
    }
}

// Puts a word after a text between two others.
fn push_between(
    out: &mut Vec<u8>,
    before: &str,
    word: &Word<'_>,
    after: &str,
) -> Result<(), AllocError>
    ensures { OnOk result (out.new.items ≡ out.old.items ++ (before.now ++ (plain_mark word.now ++ after.now))) }
{
    push_all(out, &[before])?;
    push_plain(out, word)?;
    push_all(out, &[after])
}

// Puts a word after a text, as the usage has it.
fn push_mark(out: &mut Vec<u8>, word: &Word<'_>) -> Result<(), AllocError>
    ensures { OnOk result (out.new.items ≡ out.old.items ++ mark_by word.now) }
{
    match word.value {
        Value::Texts | Value::AnyThatFollow => push_between(out, " [", word, "]..."),
        Value::SomeTexts | Value::AllThatFollow => push_between(out, " ", word, "..."),
        Value::Itself => push_between(out, " ", word, ""),
        Value::Nothing | Value::Number(_, _) | Value::OneOf(_) | Value::Text | Value::MayStand => {
            push_between(out, " [", word, "]")
        }
    }
}

// Puts each word after a text.
fn push_marks(out: &mut Vec<u8>, words: &[Word<'_>]) -> Result<(), AllocError>
    ensures { OnOk result (out.new.items ≡ out.old.items ++ marks_by words.now) }
{
    for word in words {
        push_mark(out, word)?;
    }
    Ok(())
}

// Puts how a program is called after a text.
fn push_usage(out: &mut Vec<u8>, program: &Program<'_>) -> Result<(), AllocError>
    ensures { OnOk result (out.new.items ≡ out.old.items ++ usage_by program.now) }
{
    push_all(out, &["usage: ", program.name])?;
    push_marks(out, program.words)?;
    push_all(out, &["\n"])
}

// The numbers that an option takes.
pub(crate) fn range_text(alloc: Global, least: u32, most: u32) -> Result<String, AllocError>
    ensures { IfOk result (λ text. string_bytes text ≡ range_text least most) }
{
    if most == u32::MAX {
        format!(in alloc; ", from {least}")
    } else {
        format!(in alloc; ", {least} to {most}")
    }
}

// Puts after a text what an option takes, where that is a range or one of several words.
fn push_value(alloc: Global, out: &mut Vec<u8>, value: Value<'_>) -> Result<(), AllocError>
    ensures { OnOk result (out.new.items ≡ out.old.items ++ value_text value.entry) }
{
    match value {
        Value::Number(least, most) => {
            let text = range_text(alloc, least, most)?;
            out.extend_from_slice(text.as_bytes())
        }
        Value::OneOf([first, rest @ ..]) => {
            push_all(out, &[": ", *first])?;
            push_or_words(out, rest)
        }
        _ => Ok(()),
    }
}

// Puts each further one of several words after a text.
fn push_or_words(out: &mut Vec<u8>, words: &[&str]) -> Result<(), AllocError>
    ensures { OnOk result (out.new.items ≡ out.old.items ++ or_words words.now) }
{
    for word in words {
        push_all(out, &[" or ", *word])?;
    }
    Ok(())
}

// Puts after a text what stands where an option is not given.
fn push_default(out: &mut Vec<u8>, default: Option<&str>) -> Result<(), AllocError>
    ensures { OnOk result (out.new.items ≡ out.old.items ++ default_text default.entry) }
{
    match default {
        Some(text) => push_all(out, &[" (", text, ")"]),
        None => Ok(()),
    }
}

// Puts after a text a rule on other words, where there is one.
fn push_rule(out: &mut Vec<u8>, rule: &str, names: &[&str]) -> Result<(), AllocError>
    ensures { OnOk result (out.new.items ≡ out.old.items ++ rule_text rule.now names.now) }
{
    match names {
        [first, rest @ ..] => {
            push_all(out, &[rule])?;
            push_named(out, *first)?;
            push_or_names(out, rest)
        }
        [] => Ok(()),
    }
}

// Puts after a text what is said of an option beside its help: its values, its default, and its rules on others.
fn push_rules(alloc: Global, out: &mut Vec<u8>, word: &Word<'_>) -> Result<(), AllocError>
    ensures { OnOk result (out.new.items ≡ out.old.items ++ rules_text word.now) }
{
    push_value(alloc, out, word.value)?;
    push_default(out, word.default)?;
    push_rule(out, "; it wants ", word.wants)?;
    push_rule(out, "; not with ", word.not_with)
}

// Puts what help says of a word after a text.
fn push_help(alloc: Global, out: &mut Vec<u8>, word: &Word<'_>) -> Result<(), AllocError>
    ensures { OnOk result (out.new.items ≡ out.old.items ++ help_line word.now) }
{
    push_between(out, "  ", word, "\n        ")?;
    push_all(out, &[word.help])?;
    push_rules(alloc, out, word)?;
    push_all(out, &["\n"])
}

// Puts what help says of each word after a text.
fn push_helps(alloc: Global, out: &mut Vec<u8>, words: &[Word<'_>]) -> Result<(), AllocError>
    ensures { OnOk result (out.new.items ≡ out.old.items ++ help_lines words.now) }
{
    for word in words {
        push_help(alloc, out, word)?;
    }
    Ok(())
}

// Puts after a text what a program does.
fn push_about(out: &mut Vec<u8>, program: &Program<'_>) -> Result<(), AllocError>
    ensures { OnOk result (out.new.items ≡ out.old.items ++ about_text program.now) }
{
    push_all(out, &["\n", program.about, "\n\n"])
}

// Puts after a text where more is said.
fn push_more(out: &mut Vec<u8>, program: &Program<'_>) -> Result<(), AllocError>
    ensures { OnOk result (out.new.items ≡ out.old.items ++ more_text program.now) }
{
    push_all(out, &["\nman ", program.name, " says more.\n"])
}

/// The help of a program: how it is called, what it does, and each word with its line.
pub fn help_of(alloc: Global, program: &Program<'_>) -> Result<Vec<u8>, AllocError>
    ensures { IfOk result (λ text. text.items ≡ help_by program.now) }
{
    let mut text = Vec::new(alloc);
    push_usage(&mut text, program)?;
    push_about(&mut text, program)?;
    push_helps(alloc, &mut text, program.words)?;
    push_more(&mut text, program)?;
    Ok(text)
}
