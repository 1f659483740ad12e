//! The lines that follow a directive, and the bytes that they stand for.
use pb_outside::Memory;
use std::alloc::Global;

/// Bytes with a name.
#[derive(Drop)]
pub(crate) struct Text {
    pub(crate) name: String,
    pub(crate) bytes: Vec<u8>,
}

impl Text {
    pub(crate) fn of(alloc: Global, name: &str, bytes: &[u8]) -> Result<Text, Memory> {
        let name = String::from_str(alloc, name)?;
        let bytes = bytes.to_vec(alloc)?;
        Ok(Text { name, bytes })
    }
}

// The bytes of the first text of this name.
pub(crate) fn find_text<'a>(texts: &'a [Text], name: &str) -> Option<&'a [u8]> {
    for text in texts {
        if text.name.as_str() == name {
            return Some(&text.bytes);
        }
    }
    None
}

// The byte that a backslash and this byte stand for.
fn escaped(byte: u8) -> u8 {
    match byte {
        b'r' => b'\r',
        b'n' => b'\n',
        b't' => b'\t',
        b's' => b' ',
        b'!' => 255,
        other => other,
    }
}

// Appends what a piece stands for.
fn add_piece(out: &mut Vec<u8>, piece: &str) -> Result<(), Memory> {
    let mut is_escaped = false;
    for byte in piece.as_bytes() {
        if is_escaped {
            out.push(escaped(*byte))?;
            is_escaped = false;
        } else if *byte == b'\\' {
            is_escaped = true;
        } else {
            out.push(*byte)?;
        }
    }
    Ok(())
}

// Appends the lines of a text from one number to another, counted from 1.
fn add_lines(out: &mut Vec<u8>, text: &[u8], from: u64, to: u64) -> Result<(), Memory> {
    let mut number = 1_u64;
    for byte in text {
        if from <= number && number <= to {
            out.push(*byte)?;
        }
        if *byte == b'\n' {
            number = number.saturating_add(1);
        }
    }
    Ok(())
}

// The number that a word spells, or another if there is no word.
pub(crate) fn number_or(word: Option<&str>, other: u64) -> Option<u64> {
    match word {
        None => Some(other),
        Some(word) => word.parse::<u64>().ok(),
    }
}

// Appends lines of a text, as `NAME`, `NAME LINE` or `NAME FROM TO` says.
fn add_copy(out: &mut Vec<u8>, texts: &[Text], asked: &str) -> Result<bool, Memory> {
    let mut words = asked.split(' ');
    let Some(text) = find_text(texts, words.next().unwrap_or("")) else {
        return Ok(false);
    };
    let first = words.next();
    let is_whole = first.is_none();
    let Some(from) = number_or(first, 1) else {
        return Ok(false);
    };
    let last = if is_whole { u64::MAX } else { from };
    let Some(to) = number_or(words.next(), last) else {
        return Ok(false);
    };
    add_lines(out, text, from, to)?;
    Ok(true)
}

// Appends a piece so many times, as `COUNT PIECE` says.
fn add_times(alloc: Global, out: &mut Vec<u8>, asked: &str) -> Result<bool, Memory> {
    let Some((count, rest)) = asked.split_once(' ') else {
        return Ok(false);
    };
    let Some(count) = number_or(Some(count), 0) else {
        return Ok(false);
    };
    let mut piece = Vec::new(alloc);
    add_piece(&mut piece, rest)?;
    for _ in 0..count {
        out.extend_from_slice(&piece)?;
    }
    Ok(true)
}

// Appends what a line below a directive stands for. Gives whether it is in form.
pub(crate) fn add_line(
    alloc: Global,
    out: &mut Vec<u8>,
    texts: &[Text],
    line: &str,
) -> Result<bool, Memory> {
    if let Some(rest) = line.strip_prefix("|") {
        add_piece(out, rest)?;
        out.push(b'\n')?;
        Ok(true)
    } else if let Some(rest) = line.strip_prefix(">") {
        add_piece(out, rest)?;
        Ok(true)
    } else if let Some(rest) = line.strip_prefix("=") {
        add_copy(out, texts, rest)
    } else if let Some(rest) = line.strip_prefix("*") {
        add_times(alloc, out, rest)
    } else {
        Ok(false)
    }
}
