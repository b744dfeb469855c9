use crate::cases::{Case, NamedFile, Part, Stream};
use crate::content::add_content;
use crate::errors::CaseError;
use std::alloc::Global;

// A number in decimal.
fn number(text: &str) -> Result<u64, CaseError> {
    text.parse().map_err(|_| CaseError::Unreadable)
}

// Adds numbers between single blanks.
fn add_numbers(numbers: &mut Vec<u64>, text: &str) -> Result<(), CaseError> {
    for word in text.split(' ') {
        numbers.push(number(word)?)?;
    }
    Ok(())
}

// Adds words between single blanks; none where there is no text.
fn add_words(alloc: Global, words: &mut Vec<Vec<u8>>, text: &str) -> Result<(), CaseError> {
    if !text.is_empty() {
        for word in text.split(' ') {
            words.push(word.as_bytes().to_vec(alloc)?)?;
        }
    }
    Ok(())
}

// Takes a line on a sink in.
fn take_stream(stream: &mut Stream, key: &str, text: &str) -> Result<(), CaseError> {
    match key {
        "room" => stream.room = number(text)? as usize,
        "piece" => stream.piece = number(text)? as usize,
        "fail" => add_numbers(&mut stream.fail, text)?,
        _ => return Err(CaseError::Unreadable),
    }
    Ok(())
}

// Takes a line in that is complete in itself.
fn take_closed(alloc: Global, case: &mut Case, key: &str, text: &str) -> Result<(), CaseError> {
    match key {
        "words" => add_words(alloc, &mut case.words, text),
        "read_piece" => {
            case.read_piece = number(text)? as usize;
            Ok(())
        }
        "read_fail" => add_numbers(&mut case.read_fail, text),
        "status" if case.status.is_none() => {
            case.status = Some(text.parse().map_err(|_| CaseError::Unreadable)?);
            Ok(())
        }
        _ => match key.split_once('_') {
            Some(("out", rest)) => take_stream(&mut case.out, rest, text),
            Some(("err", rest)) => take_stream(&mut case.err, rest, text),
            _ => Err(CaseError::Unreadable),
        },
    }
}

// Takes a key line in.
fn take_key(alloc: Global, case: &mut Case, key: &str, text: &str) -> Result<(), CaseError> {
    case.part = match key {
        "word" => {
            case.words.push(text.as_bytes().to_vec(alloc)?)?;
            Part::Word
        }
        "file" => {
            let name = text.as_bytes().to_vec(alloc)?;
            let bytes = Vec::new(alloc);
            case.files.push(NamedFile { name, bytes })?;
            Part::File
        }
        "name" if text.is_empty() => Part::Name,
        "out" if text.is_empty() => Part::Out,
        "err" if text.is_empty() => Part::Err,
        _ => {
            take_closed(alloc, case, key, text)?;
            Part::Closed
        }
    };
    Ok(())
}

// The bytes that content lines extend.
fn open_bytes(case: &mut Case) -> Option<&mut Vec<u8>> {
    match case.part {
        Part::Closed => None,
        Part::Word => case.words.last_mut(),
        Part::File => case.files.last_mut().map(|file| &mut file.bytes),
        Part::Name => case.files.last_mut().map(|file| &mut file.name),
        Part::Out => Some(&mut case.out.wanted),
        Part::Err => Some(&mut case.err.wanted),
    }
}

// Takes a line of a case in.
fn take_line(alloc: Global, case: &mut Case, line: &str) -> Result<(), CaseError> {
    match line.as_bytes() {
        [] | [b'#', ..] => Ok(()),
        [b'|' | b':' | b'=' | b'*', ..] => match open_bytes(case) {
            Some(bytes) => add_content(alloc, bytes, line),
            None => Err(CaseError::Unreadable),
        },
        _ => {
            let (key, text) = line.split_once(' ').unwrap_or((line, ""));
            take_key(alloc, case, key, text)
        }
    }
}

/// The case that these lines are of.
pub fn read_case(alloc: Global, lines: &str) -> Result<Case, CaseError> {
    let mut case = Case::new(alloc);
    for line in lines.split('\n') {
        take_line(alloc, &mut case, line)?;
    }
    Ok(case)
}
