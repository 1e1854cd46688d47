// The files that there are.
use std::{fs, io};

/// The files here and in the folders here, ascending.
pub fn files(rt: &HostRuntime) -> io::Result<Vec<String>> {
    let mut files = Vec::new(rt.alloc());
    for entry in fs::read_dir(rt, ".")? {
        let entry = entry?;
        if entry.file_type()?.is_dir() {
            add_files(rt, entry.file_name(), &mut files)?;
        } else {
            files.push(String::from_str(rt.alloc(), entry.file_name())?)?;
        }
    }
    files.sort()?;
    Ok(files)
}

// The files of a folder, with its name before theirs.
fn add_files(rt: &HostRuntime, folder: &str, files: &mut Vec<String>) -> io::Result<()> {
    for entry in fs::read_dir(rt, folder)? {
        let entry = entry?;
        files.push(format!(in rt.alloc(); "{folder}/{}", entry.file_name())?)?;
    }
    Ok(())
}
