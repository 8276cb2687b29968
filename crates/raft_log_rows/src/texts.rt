//! Settings and their text, names of files, signatures, a checksum.

use crate::writing::version;
use raft_log_files::{
    Config, Error, FileNameExt, build_reserved_file_name, is_file_seq, parse_reserved_file_name,
};
use raft_log_records::{FileId, LogFileContext, LogQueue, crc32};
use raft_rows::{Answer, bytes, number};
use std::alloc::{AllocError, Global};

/// A line for each word, in which `_` stands for a space.
fn lines_of(alloc: Global, words: &[&str]) -> Result<String, AllocError> {
    let mut text = String::new(alloc);
    for word in words {
        for letter in word.chars() {
            text.push(if letter == '_' { ' ' } else { letter })?;
        }
        text.push('\n')?;
    }
    Ok(text)
}

fn read(config: &mut Config, alloc: Global, words: &[&str]) -> Result<(), Error> {
    let text = lines_of(alloc, words)?;
    *config = Config::from_toml(alloc, text.as_str())?;
    Ok(())
}

fn sanitize(config: &mut Config) -> Result<(), Error> {
    config.sanitize()
}

/// The answer to a row that changes the settings.
pub fn set(config: &mut Config, alloc: Global, words: &[&str]) -> Option<Answer> {
    let told = match words {
        ["settings", lines @ ..] => read(config, alloc, lines),
        ["sanitize"] => sanitize(config),
        _ => return told_of(config, alloc, words),
    };
    Some(Answer::shown(alloc, &told))
}

/// The lines of the text that gives the settings whose keys begin so, without ends of lines.
fn lines(config: &Config, alloc: Global, key: &str) -> Result<Vec<u8>, Error> {
    let text = config.to_toml(alloc)?;
    let mut found = Vec::new(alloc);
    for line in text.as_str().lines() {
        if line.starts_with(key) {
            found.extend_from_slice(line.as_bytes())?;
            found.push(b' ')?;
        }
    }
    Ok(found)
}

fn id_of(name: &str) -> Option<FileId> {
    FileId::parse_file_name(name)
}

fn reserved_seq(name: &str) -> Option<u64> {
    parse_reserved_file_name(name)
}

fn queue(word: &str) -> LogQueue {
    if word == "append" {
        LogQueue::Append
    } else {
        LogQueue::Rewrite
    }
}

/// The name of a file of a queue, or of a reserved one. Numbers that no file has are 0 here.
fn name(alloc: Global, word: &str, seq: u64) -> Result<String, AllocError> {
    let seq = if is_file_seq(seq) { seq } else { 0 };
    if word == "reserved" {
        build_reserved_file_name(alloc, seq)
    } else {
        FileId::new(queue(word), seq).build_file_name(alloc)
    }
}

fn signature(word: &str, seq: u64) -> Option<u32> {
    let id = FileId::new(LogQueue::Append, seq);
    LogFileContext::new(id, version(word)).get_signature()
}

fn checksum(alloc: Global, word: &str) -> Result<u32, AllocError> {
    Ok(crc32(&bytes(alloc, word)?))
}

/// The answer to a row about settings, names, signatures or a checksum.
fn told_of(config: &Config, alloc: Global, words: &[&str]) -> Option<Answer> {
    Some(match *words {
        ["text"] => Answer::bytes(alloc, lines(config, alloc, "")),
        ["text", key] => Answer::bytes(alloc, lines(config, alloc, key)),
        ["recycle-capacity"] => Answer::shown(alloc, &config.recycle_capacity()),
        ["prefill-capacity"] => Answer::shown(alloc, &config.prefill_capacity()),
        ["file-id", name] => Answer::shown(alloc, &id_of(name)),
        _ => return named(alloc, words),
    })
}

fn named(alloc: Global, words: &[&str]) -> Option<Answer> {
    Some(match *words {
        ["name", word, seq] => Answer::shown(alloc, &name(alloc, word, number(seq))),
        ["reserved-seq", name] => Answer::shown(alloc, &reserved_seq(name)),
        ["signature", word, seq] => Answer::shown(alloc, &signature(word, number(seq))),
        ["crc32", word] => Answer::shown(alloc, &checksum(alloc, word)),
        _ => return None,
    })
}
