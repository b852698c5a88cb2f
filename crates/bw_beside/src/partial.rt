//! The folder in which a new one is made, what is left of it, and how it gets its name.

use crate::host::Host;
use bw_device::MAX_LEASES;
use bw_file::FolderFault;
use std::alloc::AllocError;
use std::fs::{self, File, OpenOptions};
use std::io::{self, ErrorKind};

/// The file that says that a folder is not made whole yet.
pub(crate) const MARK: &str = "unfinished";

/// Its name once the folder is whole, and has not got its own name yet.
const DONE: &str = "finished";

/// A folder that is being made, by nobody else as long as this stands.
#[derive(Drop)]
pub struct Making {
    /// Where it is made.
    path: String,
    /// Its mark, which is locked.
    mark: File,
}

/// What is said of a name that something has already.
pub fn already_there() -> FolderFault {
    FolderFault::System(io::Error::from(ErrorKind::AlreadyExists))
}

/// Whether something has this name.
pub fn is_there<R: Host>(rt: &R, path: &str) -> Result<bool, FolderFault> {
    match fs::symlink_metadata(rt, path) {
        Ok(_) => Ok(true),
        Err(error) if error.kind() == ErrorKind::NotFound => Ok(false),
        Err(error) => Err(FolderFault::from(error)),
    }
}

/// Refuses a name that something has.
pub fn refuse_there<R: Host>(rt: &R, path: &str) -> Result<(), FolderFault> {
    if is_there(rt, path)? {
        return Err(already_there());
    }
    Ok(())
}

/// The path of the folder in which that of this path is made, which has no slash at its end.
pub fn partial_of<R: Host>(rt: &R, path: &str) -> Result<String, AllocError> {
    format!(in rt.alloc(); "{path}.partial")
}

fn path_in<R: Host>(rt: &R, folder: &str, name: &str) -> Result<String, AllocError> {
    format!(in rt.alloc(); "{folder}/{name}")
}

/// Whether a folder has a file of this name.
fn has<R: Host>(rt: &R, folder: &str, name: &str) -> Result<bool, FolderFault> {
    is_there(rt, path_in(rt, folder, name)?.as_str())
}

/// Whether nothing stands in a folder.
fn is_empty<R: Host>(rt: &R, folder: &str) -> Result<bool, FolderFault> {
    for entry in fs::read_dir(rt, folder)? {
        let _ = entry?;
        return Ok(false);
    }
    Ok(true)
}

/// Whether a folder of this path is left of an earlier run: it has the mark of one that is made, or
/// it is empty, as one is that was stopped before its mark. Refuses a name that anything else has.
pub fn is_left<R: Host>(rt: &R, path: &str) -> Result<bool, FolderFault> {
    if !is_there(rt, path)? {
        return Ok(false);
    }
    if !fs::symlink_metadata(rt, path)?.is_dir() {
        return Err(already_there());
    }
    if has(rt, path, MARK)? || has(rt, path, DONE)? || is_empty(rt, path)? {
        return Ok(true);
    }
    Err(already_there())
}

/// Whether the file of a segment, or of its sums, has this name.
fn is_segment(name: &str) -> bool {
    let Some(rest) = name.strip_prefix("segment-") else {
        return false;
    };
    let number = match rest.strip_suffix(".bw") {
        Some(number) => number,
        None => rest.strip_suffix(".sum").unwrap_or(""),
    };
    number.len() == 4
        && !number.starts_with('+')
        && number.parse::<u32>().is_ok_and(|lease| lease < MAX_LEASES)
}

/// Whether a file of a folder that is being made has this name: its lock, the times of its frames,
/// a mark, or what a segment stands in.
fn is_ours(name: &str) -> bool {
    name == "lock" || name == "times" || name == MARK || name == DONE || is_segment(name)
}

/// Refuses a folder in which anything stands but the files of a store, and this one.
fn refuse_others<R: Host>(rt: &R, path: &str, mark: &str) -> Result<(), FolderFault> {
    for entry in fs::read_dir(rt, path)? {
        let entry = entry?;
        let name = entry.file_name();
        if !is_ours(name) && name != mark {
            return Err(already_there());
        }
    }
    Ok(())
}

/// Removes the files of a store that a folder has, but for this one. Anything else stays, and is a
/// refusal.
fn clear<R: Host>(rt: &R, path: &str, mark: &str) -> Result<(), FolderFault> {
    for entry in fs::read_dir(rt, path)? {
        let entry = entry?;
        let name = entry.file_name();
        if name == mark {
            continue;
        }
        if !is_ours(name) {
            return Err(already_there());
        }
        fs::remove_file(rt, path_in(rt, path, name)?.as_str())?;
    }
    Ok(())
}

/// The file of this name in a folder, which is there, and locked against all others; `InUse` if
/// somebody has its lock.
fn locked<R: Host>(rt: &R, folder: &str, name: &str) -> Result<File, FolderFault> {
    let file = fs::open(rt, path_in(rt, folder, name)?.as_str())?;
    file.try_lock()?;
    Ok(file)
}

/// Refuses a folder whose store somebody has open.
fn refuse_open<R: Host>(rt: &R, path: &str) -> Result<(), FolderFault> {
    if has(rt, path, "lock")? {
        let _ = locked(rt, path, "lock")?;
    }
    Ok(())
}

/// The mark of a folder, made if it is missing, and locked.
fn marked<R: Host>(rt: &R, path: &str) -> Result<File, FolderFault> {
    let name = path_in(rt, path, MARK)?;
    let mark = OpenOptions::new()
        .write(true)
        .create(true)
        .open(rt, name.as_str())?;
    mark.try_lock()?;
    Ok(mark)
}

/// The mark of what is left of an earlier run, locked. One that was whole is marked anew, under the
/// lock of the mark that it has.
fn taken<R: Host>(rt: &R, path: &str) -> Result<File, FolderFault> {
    if has(rt, path, DONE)? {
        let _done = locked(rt, path, DONE)?;
        return marked(rt, path);
    }
    if is_empty(rt, path)? {
        return marked(rt, path);
    }
    locked(rt, path, MARK)
}

/// Makes the folder of this path, or takes over what is left of it: all that it has but for its
/// mark is removed then.
///
/// `InUse` if somebody else makes it, or has it open as a store. Refused, and nothing is removed, if
/// anything else stands in it than the files of a store.
pub fn begin<R: Host>(rt: &R, path: &str) -> Result<Making, FolderFault> {
    let mark = if is_left(rt, path)? {
        refuse_others(rt, path, MARK)?;
        taken(rt, path)?
    } else {
        fs::create_dir(rt, path)?;
        marked(rt, path)?
    };
    refuse_open(rt, path)?;
    clear(rt, path, MARK)?;
    let path = String::from_str(rt.alloc(), path)?;
    Ok(Making { path, mark })
}

/// Removes a folder that has this mark, and nothing else than the files of a store. `InUse` if
/// somebody has it open. A folder without the mark, or with anything else, is refused, and stays.
pub fn remove_left<R: Host>(rt: &R, path: &str, mark: &str) -> Result<(), FolderFault> {
    if !is_there(rt, path)? {
        return Ok(());
    }
    if !fs::symlink_metadata(rt, path)?.is_dir() || !has(rt, path, mark)? {
        return Err(already_there());
    }
    refuse_others(rt, path, mark)?;
    refuse_open(rt, path)?;
    // The mark goes last: what a stop leaves is known by it.
    clear(rt, path, mark)?;
    fs::remove_file(rt, path_in(rt, path, mark)?.as_str())?;
    fs::remove_dir(rt, path)?;
    Ok(())
}

/// Gives a folder another name, and waits until that stands.
pub fn rename<R: Host>(rt: &R, from: &str, to: &str) -> Result<(), FolderFault> {
    fs::rename(rt, from, to)?;
    let parent = format!(in rt.alloc(); "{to}/..")?;
    fs::open(rt, parent.as_str())?.sync_all()?;
    Ok(())
}

impl Making {
    /// The folder in which it is made.
    pub fn path(&self) -> &str {
        self.path.as_str()
    }

    /// Waits until each file of the folder stands on the disk, and marks it as whole.
    pub fn finish<R: Host>(&self, rt: &R) -> Result<(), FolderFault> {
        let path = self.path.as_str();
        for entry in fs::read_dir(rt, path)? {
            let entry = entry?;
            let file = path_in(rt, path, entry.file_name())?;
            fs::open(rt, file.as_str())?.sync_all()?;
        }
        let mark = path_in(rt, path, MARK)?;
        let done = path_in(rt, path, DONE)?;
        fs::rename(rt, mark.as_str(), done.as_str())?;
        fs::open(rt, path)?.sync_all()?;
        Ok(())
    }

    /// Gives the folder, which is whole, its name, and waits until that stands. Then its mark goes:
    /// one that a stop leaves there says nothing.
    pub fn name<R: Host>(self, rt: &R, to: &str) -> Result<(), FolderFault> {
        rename(rt, self.path.as_str(), to)?;
        fs::remove_file(rt, path_in(rt, to, DONE)?.as_str())?;
        Ok(())
    }
}
