// The names of files.
ghost use Rattle.std.specs.Prelude.{◌≡◌, ◌≤◌, ◌++◌, true, length, drop, IfOk, string_bytes, slice_get, Some};
ghost use Rattle.ciao_modules.specs.FileNames.{shown, folder_of, is_module_file, is_main_file, base_of, file_of};

use std::alloc::Global;
use term_core::NoMemory;

// Where what stands behind the last slash begins.
fn start_of_name(file: &[u8]) -> usize
    ensures name { shown file.now ≡ drop result file.now }
    ensures within { result ≤ length file.now }
{
    let mut start = 0;
    for at in 0..file.len() {
        if file[at] == b'/' {
            start = at + 1;
        }
    }
    start
}

// What stands behind the last slash.
fn behind_slash(file: &[u8]) -> &[u8]
    ensures { result.now ≡ shown file.now }
{
    &file[start_of_name(file)..]
}

/// The base name of a main file.
pub fn base_of(file: &str) -> &str
    requires { is_main_file file.now ≡ true }
    ensures { result.now ≡ base_of file.now }
{
    let name = behind_slash(file.as_bytes());
    let end = name.len().saturating_sub(3);
    match str::from_utf8(&name[..end]) {
        Ok(base) => base,
        // A base name is letters, digits and `_`.
        Err(_) => "",
    }
}

/// The folder of a main file.
pub(crate) fn folder_of(file: &str) -> &str
    requires { is_main_file file.now ≡ true }
    ensures { result.now ≡ folder_of file.now }
{
    let bytes = file.as_bytes();
    match str::from_utf8(&bytes[..start_of_name(bytes)]) {
        Ok(folder) => folder,
        // What stands behind it is ASCII.
        Err(_) => "",
    }
}

/// The file of a base name.
pub(crate) fn file_of(alloc: Global, base: &str) -> Result<String, NoMemory>
    ensures { IfOk result (λ file. string_bytes file ≡ file_of base.now) }
{
    let mut file = String::from_str(alloc, base)?;
    file.push_str(".pl")?;
    Ok(file)
}

/// A file in a folder.
pub(crate) fn path_of(alloc: Global, folder: &str, file: &str) -> Result<String, NoMemory>
    ensures { IfOk result (λ path. string_bytes path ≡ folder.now ++ file.now) }
{
    let mut path = String::from_str(alloc, folder)?;
    path.push_str(file)?;
    Ok(path)
}
