//! A node over the store of a folder.
use crate::outcome::done;
use file_devices::{FileLog, NoPages, open_store};
use node_store::node_world::{World, bring_up};
use node_store::open;
use std::alloc::Global;
use std::fs::{File, Files};
use std::io;

/// The node of a folder's store, both of whose components run.
pub fn opened_store<R>(rt: &R, alloc: Global, folder: &str) -> io::Result<World<FileLog, NoPages>>
where
    R: Files<File = File> + AllocGlobal + Clone,
{
    let Ok(log) = open_store(rt, folder) else {
        return Err(io::Error::from(io::ErrorKind::Other));
    };
    let Ok(mut world) = open(alloc, log, FileLog::volatile(alloc), NoPages::new()) else {
        return Err(io::Error::from(io::ErrorKind::Other));
    };
    done(bring_up(&mut world, &mut Vec::new(alloc)))?;
    Ok(world)
}
