//! A command's words, and a journal's records, of their texts.

use std::alloc::{AllocError, Global};
use vx_io::{Records, Words};

/// Records of their texts.
pub fn records_of(alloc: Global, texts: &[&str]) -> Result<Records, AllocError> {
    let mut records = Records::new(alloc);
    for text in texts {
        records.push(text.as_bytes())?;
    }
    Ok(records)
}

/// The words of a command, the first thousand of them.
pub fn words_of(alloc: Global, line: &[&str]) -> Result<Words, AllocError> {
    let mut words = Words::new(alloc);
    for word in line {
        if words.count() < 1000 {
            words.push(word)?;
        }
    }
    Ok(words)
}
