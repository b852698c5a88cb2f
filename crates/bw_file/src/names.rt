// The names of the files in a folder, and which leases have one.
ghost use Rattle.std.specs.Prelude.{◌≢◌, ◌<◌, All, IfOk, IfSome, IfErr};
ghost use Rattle.bw_device.specs.declared.leases.TheConstants.{MAX_LEASES};
ghost use Rattle.std.specs.List.Sorted.{IsStrictlyIncreasing};
ghost use Rattle.bw_file.specs.declared.refusals.FolderFault.TheVariants.{BadConfig};

use crate::refusals::FolderFault;
use bw_device::MAX_LEASES;
use std::fs;
use std::io::ErrorKind;
use std::rt::Files;

/// The path of the file by which a folder is open once, which is plain if it is there.
pub(crate) fn lock_path<R: AllocGlobal + Files>(rt: &R, folder: &str) -> Result<String, FolderFault>
    ensures cause { IfErr result (λ cause. cause ≢ BadConfig) }
{
    plain(rt, format!(in rt.alloc(); "{folder}/lock")?)
}

/// The path of the file of a lease, which is plain if it is there.
pub(crate) fn segment_path<R: AllocGlobal + Files>(
    rt: &R,
    folder: &str,
    lease: u32,
) -> Result<String, FolderFault>
    ensures cause { IfErr result (λ cause. cause ≢ BadConfig) }
{
    plain(
        rt,
        format!(in rt.alloc(); "{folder}/segment-{lease:04}.bw")?,
    )
}

/// The path of the file with the sums of a lease's, which is plain if it is there.
pub(crate) fn sums_path<R: AllocGlobal + Files>(
    rt: &R,
    folder: &str,
    lease: u32,
) -> Result<String, FolderFault>
    ensures cause { IfErr result (λ cause. cause ≢ BadConfig) }
{
    plain(
        rt,
        format!(in rt.alloc(); "{folder}/segment-{lease:04}.sum")?,
    )
}

// Refuses what has the name of a file and is no plain file, before it is opened: a pipe would keep
// its opener waiting, and by a link a file outside the folder would be made or written.
fn plain<R: Files>(rt: &R, path: String) -> Result<String, FolderFault>
    ensures cause { IfErr result (λ cause. cause ≢ BadConfig) }
{
    match fs::symlink_metadata(rt, path.as_str()) {
        Ok(found) if found.is_file() => Ok(path),
        Ok(_) => Err(FolderFault::NotPlain),
        // Whether it may be missing is for the opening to say.
        Err(error) if error.kind() == ErrorKind::NotFound => Ok(path),
        Err(error) => Err(FolderFault::from(error)),
    }
}

// What a name of a segment's file, or of one of sums, has between its beginning and its end.
fn digits_of(name: &str) -> Option<&str> {
    let rest = name.strip_prefix("segment-")?;
    match rest.strip_suffix(".bw") {
        Some(digits) => Some(digits),
        None => rest.strip_suffix(".sum"),
    }
}

// The number of the lease whose file, or whose file of sums, has this name. A name that no lease's
// file has is not ours.
fn lease_of(name: &str) -> Option<u32>
    ensures { IfSome result (λ lease. lease < MAX_LEASES) }
{
    let number = digits_of(name)?;
    if number.len() != 4 || number.starts_with('+') {
        return None;
    }
    let number = number.parse::<u32>().ok()?;
    if number < MAX_LEASES {
        Some(number)
    } else {
        None
    }
}

// Says of each lease whether it has a file in the folder.
fn mark_leases<R: AllocGlobal + Files + Clone + Drop>(
    rt: &R,
    folder: &str,
    has_file: &mut [bool; 4096],
) -> Result<(), FolderFault> {
    for entry in fs::read_dir(rt, folder)? {
        match entry {
            Ok(entry) => {
                if let Some(lease) = lease_of(entry.file_name()) {
                    has_file[lease as usize] = true;
                }
            }
            // A name that is no text is not ours.
            Err(error) if error.kind() == ErrorKind::InvalidFilename => {}
            Err(error) => return Err(FolderFault::from(error)),
        }
    }
    Ok(())
}

/// The numbers of the leases that have a file in the folder, ascending.
pub(crate) fn leases_in<R: AllocGlobal + Files + Clone + Drop>(
    rt: &R,
    folder: &str,
) -> Result<Vec<u32>, FolderFault>
    ensures below { IfOk result (λ leases. All (λ lease. lease < MAX_LEASES) leases.items) }
    ensures ascending { IfOk result (λ leases. IsStrictlyIncreasing leases.items) }
{
    let mut has_file = [false; 4096];
    mark_leases(rt, folder, &mut has_file)?;
    let mut leases = Vec::new(rt.alloc());
    for lease in 0..MAX_LEASES {
        if has_file[lease as usize] {
            let Ok(()) = leases.push(lease) else {
                return Err(FolderFault::NoMemory);
            };
        }
    }
    Ok(leases)
}
