//! The journal of a store: a line for each restore and undo that changed something.
use crate::digests::{Digests, FileDigest};
use crate::files::{read_regular, regular_size};
use crate::record::{Change, change_word};
use crate::sealing::is_long_and_damaged;
use crate::store_folders::StoreFolders;
use crate::taking::Taken;
use cs_file_system::SystemFiles;
use cs_folders::FileLimits;
use cs_reports::object::{Object, sites};
use cs_schema::FileName;
use cs_shelf::{JOURNAL, Work};
use jiff::Timestamp;
use serde_json::Value;
use std::alloc::{AllocError, Global};
use std::io::ErrorKind;
use std::rt::Files;
use std::time::Clock;
use std::{fs, io};

/// The size and the digest of the regular file at this path; null if there is none. The digest is null if the file has more
/// than `limit` bytes, or is long and damaged. It is read only if its digest isn't known.
fn file_value<R: Files>(
    alloc: Global,
    rt: &R,
    path: &str,
    known: Option<FileDigest>,
    limit: u64,
) -> io::Result<Value> {
    let Some(size) = regular_size(rt, path)? else {
        return Ok(Value::Null);
    };
    match known {
        Some(digest) if digest.bytes == size => return digest_value(alloc, size, Some(digest)),
        _ => {}
    }
    let limit = if is_long_and_damaged(rt, path)? {
        0
    } else {
        limit
    };
    let read = read_regular(alloc, rt, path, limit)?;
    let digest = read.map(|bytes| FileDigest::of(bytes.as_slice()));
    digest_value(alloc, size, digest)
}

/// A size, and a digest or null, as an object.
fn digest_value(alloc: Global, bytes: u64, digest: Option<FileDigest>) -> io::Result<Value> {
    let object = Object::new(alloc).number("bytes", bytes);
    let Some(digest) = digest else {
        return Ok(object.member("sha256", Ok(Value::Null)).finish()?);
    };
    let sha256 = hex::encode(alloc, &digest.sha256)?;
    Ok(object.text("sha256", sha256.as_str()).finish()?)
}

/// The file that stood under a name before, in the folder that has it. It may have been replaced because it can't be read:
/// then its digest is null.
fn old_value<R: Files>(
    alloc: Global,
    rt: &R,
    folder: &str,
    name: FileName,
    known: Option<FileDigest>,
    limits: FileLimits,
) -> io::Result<Value> {
    let path = format!(in alloc; "{folder}/{name}")?;
    match file_value(alloc, rt, path.as_str(), known, limits.limit_of(name)) {
        Err(e) if e.kind() != ErrorKind::OutOfMemory => file_value(
            alloc,
            rt,
            path.as_str(),
            None,
            0,
        ),
        value => value,
    }
}

/// The file that stands under a name. What was moved back there is an old one.
fn after_value<R: Files>(
    alloc: Global,
    rt: &R,
    folder: &str,
    name: FileName,
    taken: &Taken,
    digests: &Digests,
) -> io::Result<Value> {
    if taken.moves.as_slice().contains(&name) {
        return old_value(alloc, rt, folder, name, None, digests.limits);
    }
    let path = format!(in alloc; "{folder}/{name}")?;
    let limit = digests.limits.limit_of(name);
    file_value(alloc, rt, path.as_str(), digests.now(name), limit)
}

/// What became of each name: the file before, if there was one, and after.
fn change_values<R: Files>(
    alloc: Global,
    rt: &R,
    folders: &StoreFolders,
    taken: &Taken,
    digests: &Digests,
) -> io::Result<Value> {
    let mut list = Vec::new(alloc);
    let Some(changes) = &taken.record.changes else {
        return Ok(Value::Array(list));
    };
    for (name, change) in changes {
        let folder = folders.reach(&mut SystemFiles(rt), *name)?;
        let before = match change {
            Change::New => Value::Null,
            Change::Replaces => {
                let kept = format!(in alloc; "{folder}/replaced/{}", taken.record.kept)?;
                let known = digests.before(*name);
                old_value(alloc, rt, kept.as_str(), *name, known, digests.limits)?
            }
        };
        let after = after_value(alloc, rt, folder, *name, taken, digests)?;
        let path = name.path();
        let object = Object::new(alloc)
            .text("path", path.as_str())
            .text("what", change_word(*change))
            .member("before", Ok(before))
            .member("after", Ok(after));
        list.push(object.finish()?)?;
    }
    Ok(Value::Array(list))
}

/// This moment, as a text of UTC in seconds.
pub fn now<R: Clock>(alloc: Global, rt: &R) -> io::Result<String> {
    let seconds = rt.since_1970()?.as_secs();
    let time = match i64::try_from(seconds) {
        Ok(seconds) => Timestamp::from_second(seconds),
        Err(_) => return Err(io::Error::from(ErrorKind::InvalidData)),
    };
    match time {
        Ok(time) => Ok(format!(in alloc; "{time}")?),
        Err(_) => Err(io::Error::from(ErrorKind::InvalidData)),
    }
}

/// The line of a restore or an undo.
fn line_of<R: Files + Clock>(
    alloc: Global,
    rt: &R,
    folders: &StoreFolders,
    taken: &Taken,
    digests: &Digests,
) -> io::Result<String> {
    let time = now(alloc, rt)?;
    let object = Object::new(alloc)
        .text("time", time.as_str())
        .number("kept", u64::from(taken.record.kept));
    let object = match taken.record.work {
        Work::Restore(lost) => object
            .text("what", "restore")
            .member("sites", sites(alloc, lost)),
        Work::Undo(number) => object.text("what", "undo").number("of", u64::from(number)),
    };
    let files = change_values(alloc, rt, folders, taken, digests)?;
    let value = object.member("files", Ok(files)).finish()?;
    Ok(format!(in alloc; "{value}\n")?)
}

/// Takes this line off the end of a journal, if it is the last one but for its time: work was stopped right after it, and if the
/// sync of it failed, the system may have dropped it.
fn without_line(journal: &mut Vec<u8>, line: &str) {
    let Some((head, _)) = line.split_once("\"time\"") else {
        return;
    };
    let Some(start) = journal.len().checked_sub(line.len()) else {
        return;
    };
    if journal[start..].starts_with(head.as_bytes()) {
        journal.truncate(start);
    }
}

/// Adds a line to a journal. One that ends within a line, as a write that was stopped leaves it, gets a line break first.
fn add_line(journal: &mut Vec<u8>, line: &str) -> Result<(), AllocError> {
    match journal.last() {
        None | Some(b'\n') => {}
        Some(_) => journal.push(b'\n')?,
    }
    journal.extend_from_slice(line.as_bytes())
}

/// How many bytes the journal at this path has; none if it is not there.
fn journal_size<R: Files>(rt: &R, path: &str) -> io::Result<u64> {
    match fs::symlink_metadata(rt, path) {
        Ok(found) if found.is_file() => Ok(found.len()),
        Ok(_) => Err(io::Error::from(ErrorKind::AlreadyExists)),
        Err(e) if e.kind() == ErrorKind::NotFound => Ok(0),
        Err(e) => Err(e),
    }
}

/// The journal of a store, with the line of a restore or an undo behind those that stand there.
pub fn journal_with<R: Files + Clock>(
    alloc: Global,
    rt: &R,
    folders: &StoreFolders,
    taken: &Taken,
    digests: &Digests,
) -> io::Result<Vec<u8>> {
    let line = line_of(alloc, rt, folders, taken, digests)?;
    let path = format!(in alloc; "{}/{JOURNAL}", folders.store())?;
    let size = journal_size(rt, path.as_str())?;
    let read = read_regular(alloc, rt, path.as_str(), size)?;
    let mut journal = read.unwrap_or(Vec::new(alloc));
    without_line(&mut journal, line.as_str());
    add_line(&mut journal, line.as_str())?;
    Ok(journal)
}
