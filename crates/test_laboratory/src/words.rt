//! The words of a line.

use crate::trouble::Trouble;
use fe_disk::Torn;

/// The first word of the text, and the text after the space that ends the word.
pub fn first_word(text: &str) -> (&str, &str) {
    match text.split_once(' ') {
        Some(parts) => parts,
        None => (text, ""),
    }
}

/// The word as a number.
pub fn number(word: &str) -> Result<u64, Trouble> {
    match word.parse::<u64>() {
        Ok(number) => Ok(number),
        Err(_) => Err(Trouble::Syntax),
    }
}

/// The first word as a number, and the text after it.
pub fn first_number(text: &str) -> Result<(u64, &str), Trouble> {
    let (word, rest) = first_word(text);
    Ok((number(word)?, rest))
}

fn digit(letter: u8) -> Result<u8, Trouble> {
    match letter {
        b'0'..=b'9' => Ok(letter - b'0'),
        b'a'..=b'f' => Ok(letter - b'a' + 10),
        _ => Err(Trouble::Syntax),
    }
}

/// The byte spelled by two hexadecimal digits.
pub fn byte_of(pair: &[u8]) -> Result<u8, Trouble> {
    match pair {
        [high, low] => Ok(digit(*high)?.wrapping_mul(16) | digit(*low)?),
        _ => Err(Trouble::Syntax),
    }
}

/// The kind of stop: `kept`, `lost`, or a byte as two hexadecimal digits.
pub fn torn_of(word: &str) -> Result<Torn, Trouble> {
    match word {
        "kept" => Ok(Torn::Kept),
        "lost" => Ok(Torn::Lost),
        _ => Ok(Torn::Byte(byte_of(word.as_bytes())?)),
    }
}
