//! Reads the case files of a folder.
use crate::faults::FolderFault;
use std::alloc::Global;
use std::fs;
use std::rt::Files;

/// Returns the names of the case files in a folder, sorted. The name of a case file ends in `.jsonl` or
/// `.json`.
pub fn case_files<R: Files + AllocGlobal + Clone + Drop>(
    rt: &R,
    alloc: Global,
    folder: &str,
) -> Result<Vec<String>, FolderFault> {
    let mut names = Vec::new(alloc);
    for entry in fs::read_dir(rt, folder)? {
        let entry = entry?;
        let name = entry.file_name();
        if name.ends_with(".jsonl") || name.ends_with(".json") {
            names.push(String::from_str(alloc, name)?)?;
        }
    }
    names.sort_unstable();
    Ok(names)
}

/// Returns the text of a file in a folder.
pub fn read(
    rt: &(impl Files + AllocGlobal),
    alloc: Global,
    folder: &str,
    name: &str,
) -> Result<String, FolderFault> {
    let path = [folder, "/", name].concat(alloc)?;
    Ok(fs::read_to_string(rt, path.as_str())?)
}
