// The texts of faults.
use std::alloc::Global;
use std::fmt::Display;
use std::test::Fail;

/// Checks that each of these values is written as the text beside it. A failure tells both.
pub fn check_texts<T: Display>(alloc: Global, texts: &[(T, &str)]) -> Result<(), Fail> {
    for (value, text) in texts {
        let written = format!(in alloc; "{value}")?;
        if written.as_str() != *text {
            return Err(Fail::new(format_args!("\"{written}\", wanted \"{text}\"")));
        }
    }
    Ok(())
}
