// Files that are read and written, and the words of the command line.
use crate::trouble::Trouble;
use std::alloc::AllocError;
use std::env::{Env, FillError};
use std::fs;
use std::fs::{File, Metadata, Permissions};
use std::io::{ErrorKind, Read, Write};
use std::os::unix::fs::MetadataExt;

// A word of the command line is asked for with room for this many bytes, and then with twice as many and so on.
const WORD_ROOM: usize = 256;

// The bytes of a file.
pub(crate) fn read_file<'a>(rt: &HostRuntime, path: &'a str) -> Result<Vec<u8>, Trouble<'a>> {
    fs::read(rt, path).map_err(|error| Trouble::unread(path, error))
}

// The bytes of standard input.
pub(crate) fn read_input<'a>(rt: &HostRuntime) -> Result<Vec<u8>, Trouble<'a>> {
    let mut bytes = Vec::new(rt.alloc());
    match rt.stdin().read_to_end(&mut bytes) {
        Ok(_) => Ok(bytes),
        Err(error) => Err(Trouble::input(error)),
    }
}

// The word i of the command line, if it has so many. Word 0 is the program's name.
fn argument(rt: &HostRuntime, i: usize) -> Result<Option<Vec<u8>>, AllocError> {
    let mut room = WORD_ROOM;
    for _ in 0..usize::BITS {
        let mut word = vec![in rt.alloc(); 0u8; room]?;
        match rt.arg(i, &mut word) {
            Ok(len) => {
                word.truncate(len);
                return Ok(Some(word));
            }
            Err(FillError::NotPresent) => return Ok(None),
            Err(FillError::TooLong) => room = room.saturating_mul(2),
        }
    }
    Ok(None)
}

// The words after the program's name, as bytes: a word that is not UTF-8 is told of where it is used.
pub(crate) fn arguments(rt: &HostRuntime) -> Result<Vec<Vec<u8>>, AllocError> {
    let mut words = Vec::new(rt.alloc());
    for i in 1..usize::MAX {
        let Some(word) = argument(rt, i)? else {
            break;
        };
        words.push(word)?;
    }
    Ok(words)
}

// What is known of the file that is to be written, if there is one.
fn found<'a>(rt: &HostRuntime, path: &'a str) -> Result<Option<Metadata>, Trouble<'a>> {
    match fs::metadata(rt, path) {
        Ok(metadata) => Ok(Some(metadata)),
        Err(error) if error.kind() == ErrorKind::NotFound => Ok(None),
        Err(error) => Err(Trouble::unwritten(path, error)),
    }
}

// Whether a file that was read is the one that is to be written.
pub(crate) fn is_same_file<'a>(
    rt: &HostRuntime,
    from: &'a str,
    to: &'a str,
) -> Result<bool, Trouble<'a>> {
    let Some(target) = found(rt, to)? else {
        return Ok(false);
    };
    match fs::metadata(rt, from) {
        Ok(source) => Ok(source.dev() == target.dev() && source.ino() == target.ino()),
        Err(error) => Err(Trouble::unread(from, error)),
    }
}

// Writes a file anew under another name beside its own, and gives it its own once it is whole.
fn replace<'a>(
    rt: &HostRuntime,
    path: &'a str,
    target: &str,
    bytes: &[u8],
    permissions: Option<Permissions>,
) -> Result<(), Trouble<'a>> {
    let unfinished = format!(in rt.alloc(); "{target}.unfinished")?;
    let mut file = match File::create_new(rt, unfinished.as_str()) {
        Ok(file) => file,
        Err(error) if error.kind() == ErrorKind::AlreadyExists => {
            return Err(Trouble::InTheWay(path, unfinished));
        }
        Err(error) => return Err(Trouble::unwritten(path, error)),
    };
    let mut written = file.write_all(bytes);
    if let (Ok(()), Some(permissions)) = (&written, permissions) {
        written = fs::set_permissions(rt, unfinished.as_str(), permissions);
    }
    if written.is_ok() {
        written = fs::rename(rt, unfinished.as_str(), target);
    }
    if let Err(error) = written {
        // what was written is of no use; that it cannot be removed is not worth a word beside the error
        let _ = fs::remove_file(rt, unfinished.as_str());
        return Err(Trouble::unwritten(path, error));
    }
    Ok(())
}

// Writes a file, which is as it was where that fails. A device or a pipe is written to as it is.
pub(crate) fn write_file<'a>(
    rt: &HostRuntime,
    path: &'a str,
    bytes: &[u8],
) -> Result<(), Trouble<'a>> {
    let Some(metadata) = found(rt, path)? else {
        return replace(rt, path, path, bytes, None);
    };
    if !metadata.is_file() {
        return fs::write(rt, path, bytes).map_err(|error| Trouble::unwritten(path, error));
    }
    // the file itself, where the name is a link to it
    match fs::canonicalize(rt, path) {
        Ok(target) => replace(
            rt,
            path,
            target.as_str(),
            bytes,
            Some(metadata.permissions()),
        ),
        Err(error) => Err(Trouble::unwritten(path, error)),
    }
}
