//! Bytes as a script spells them, and names for bytes.

use crate::trouble::Trouble;
use crate::words::{byte_of, number};
use std::alloc::Global;

#[derive(Drop)]
struct Named {
    name: String,
    bytes: Vec<u8>,
}

/// The names and their bytes.
#[derive(Drop)]
pub struct Names {
    alloc: Global,
    list: Vec<Named>,
}

impl Names {
    /// No names yet.
    pub fn new(alloc: Global) -> Names {
        Names {
            alloc,
            list: Vec::new(alloc),
        }
    }

    /// Gives these bytes the name, even if other bytes have it.
    pub fn set(&mut self, name: &str, bytes: Vec<u8>) -> Result<(), Trouble> {
        for named in self.list.iter_mut() {
            if named.name.as_str() == name {
                named.bytes = bytes;
                return Ok(());
            }
        }
        let name = String::from_str(self.alloc, name)?;
        self.list.push(Named { name, bytes })?;
        Ok(())
    }

    fn get(&self, name: &str) -> Result<&[u8], Trouble> {
        for named in self.list.iter() {
            if named.name.as_str() == name {
                return Ok(named.bytes.as_slice());
            }
        }
        Err(Trouble::Syntax)
    }

    /// The bytes that the words of a text spell, one after another.
    pub fn bytes_of(&self, text: &str) -> Result<Vec<u8>, Trouble> {
        let mut out = Vec::new(self.alloc);
        for word in text.split_whitespace() {
            self.put_word(word, &mut out)?;
        }
        Ok(out)
    }

    // A piece, or `PIECE*COUNT`.
    fn put_word(&self, word: &str, out: &mut Vec<u8>) -> Result<(), Trouble> {
        match word.split_once('*') {
            None => self.put_piece(word, out),
            Some((piece, count)) => {
                let mut once = Vec::new(self.alloc);
                self.put_piece(piece, &mut once)?;
                repeat(once.as_slice(), number(count)?, out)
            }
        }
    }

    // `$NAME`, `$NAME:FROM:TO`, `"TEXT"`, `WIDTH:NUMBER`, or hexadecimal digits.
    fn put_piece(&self, piece: &str, out: &mut Vec<u8>) -> Result<(), Trouble> {
        if let Some(name) = piece.strip_prefix('$') {
            return self.put_named(name, out);
        }
        if let Some(text) = piece.strip_prefix('"') {
            let text = text.strip_suffix('"').ok_or(Trouble::Syntax)?;
            out.extend_from_slice(text.as_bytes())?;
            return Ok(());
        }
        match piece.split_once(':') {
            Some((width, value)) => put_number(number(width)?, number(value)?, out),
            None => put_hex(piece.as_bytes(), out),
        }
    }

    fn put_named(&self, name: &str, out: &mut Vec<u8>) -> Result<(), Trouble> {
        match name.split_once(':') {
            None => out.extend_from_slice(self.get(name)?)?,
            Some((name, part)) => {
                let (from, to) = part.split_once(':').ok_or(Trouble::Syntax)?;
                let bytes = part_of(self.get(name)?, number(from)?, number(to)?)?;
                out.extend_from_slice(bytes)?;
            }
        }
        Ok(())
    }
}

fn part_of(bytes: &[u8], from: u64, to: u64) -> Result<&[u8], Trouble> {
    bytes.get(from as usize..to as usize).ok_or(Trouble::Syntax)
}

fn repeat(once: &[u8], count: u64, out: &mut Vec<u8>) -> Result<(), Trouble> {
    for _ in 0..count {
        out.extend_from_slice(once)?;
    }
    Ok(())
}

// The last bytes of a number, big-endian.
fn put_number(width: u64, value: u64, out: &mut Vec<u8>) -> Result<(), Trouble> {
    let bytes = value.to_be_bytes();
    let first = 8u64.checked_sub(width).ok_or(Trouble::Syntax)?;
    out.extend_from_slice(part_of(&bytes, first, 8)?)?;
    Ok(())
}

fn put_hex(digits: &[u8], out: &mut Vec<u8>) -> Result<(), Trouble> {
    for pair in digits.chunks(2) {
        out.push(byte_of(pair)?)?;
    }
    Ok(())
}
