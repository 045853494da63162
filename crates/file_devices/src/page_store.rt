//! The pages of a store are opened.
ghost use Rattle.std.specs.Prelude.{◌≡◌, IfOk, OnOk};
ghost use Rattle.std.specs.FinMap as map;
ghost use Rattle.file_devices.specs.Failing.{NeverFails, freely_unused};

use crate::file_pages::FilePages;
use crate::folder::{self, Way};
use crate::mark::Mark;
use crate::page_file::{id_of, image_in};
use crate::page_files::{FOLDER, NEW, PageFiles};
use crate::store::{number_of, read_mark};
use crate::store_error::{StoreError, StoreFile, Tried};
use stable::{MemPages, PageDevice};
use std::fs::{File, Files};
use std::io::Read;
use std::path::Path;
use std::{fs, io};

/// Opens the pages of the store in a folder, and makes the folder `pages` there where the log has had no block yet: where
/// it is gone later no empty one takes its place. Each file there is what was last written for its page, or it is refused
/// PageDamaged; NotAPage where a file's name is no page's. Whoever calls it has the store open, which keeps others away.
pub fn open_pages<R: Files<File = File> + AllocGlobal + Clone + Drop>(
    rt: &R,
    folder: &str,
) -> Result<FilePages<R>, StoreError>
    ensures unused { IfOk result (λ pages. pages.usage ≡ freely_unused) }
{
    let mark = read_mark(rt, folder)?;
    let store = number_of(mark);
    let path = Path::new(folder).join(rt.alloc(), FOLDER)?;
    if !matches!(mark, Mark::Whole(_)) {
        folder::make(rt, path.as_str(), StoreFile::Pages)?;
        folder::sync_one(rt, folder, StoreFile::Folder)?;
    }
    let mut held = MemPages::new(rt.alloc());
    load_all(rt, path.as_str(), store, &mut held)?;
    let files = PageFiles::new(rt.clone()?, path, store)?;
    Ok(FilePages::over(held, files))
}

/// Takes in each page of the folder at this path.
fn load_all<R: Files<File = File> + AllocGlobal + Clone + Drop>(
    rt: &R,
    path: &str,
    store: u64,
    held: &mut MemPages,
) -> Result<(), StoreError>
    requires { NeverFails held.old.usage }
    ensures { NeverFails held.new.usage }
{
    for entry in fs::read_dir(rt, path).map_err(not_listed)? {
        let entry = entry.map_err(not_listed)?;
        load(rt, path, store, entry.file_name(), held)?;
    }
    Ok(())
}

fn not_listed(cause: io::Error) -> StoreError {
    StoreError::new(Tried::List, StoreFile::Pages, cause)
}

/// Takes in the page whose file has this name. What a kill has left of a write is none.
fn load<R: Files<File = File> + AllocGlobal>(
    rt: &R,
    path: &str,
    store: u64,
    name: &str,
    held: &mut MemPages,
) -> Result<(), StoreError>
    requires { NeverFails held.old.usage }
    ensures { NeverFails held.new.usage }
{
    if name == NEW {
        return Ok(());
    }
    let Some(id) = id_of(name.as_bytes()) else {
        return Err(StoreError::NotAPage);
    };
    let file = read(rt, path, name)?;
    match image_in(store, id, &file) {
        Some(image) => hold(held, id, image),
        None => Err(StoreError::PageDamaged { id }),
    }
}

fn hold(held: &mut MemPages, id: u64, image: &[u8]) -> Result<(), StoreError>
    requires { NeverFails held.old.usage }
    ensures held { OnOk result (held.new.pages ≡ map.insert held.old.pages id image.now) }
    ensures never { NeverFails held.new.usage }
{
    match held.write(id, image) {
        Ok(()) => Ok(()),
        Err(_) => Err(StoreError::NoMemory),
    }
}

fn read<R: Files<File = File> + AllocGlobal>(
    rt: &R,
    path: &str,
    name: &str,
) -> Result<Vec<u8>, StoreError> {
    folder::has(rt, path, name, StoreFile::Page)?;
    read_all(rt, path, name).map_err(|cause| StoreError::new(Tried::Read, StoreFile::Page, cause))
}

fn read_all<R: Files<File = File> + AllocGlobal>(
    rt: &R,
    path: &str,
    name: &str,
) -> io::Result<Vec<u8>> {
    let mut file = folder::open(rt, path, name, Way::Read)?;
    let mut bytes = Vec::new(rt.alloc());
    file.read_to_end(&mut bytes)?;
    Ok(bytes)
}
