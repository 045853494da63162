//! Devices over files: a log and pages that outlive their process, and pages that are never kept.
//! It knows bytes, files and the calls of the system. It must not know what the bytes spell.
//! It promises the next crates: a log over a file meets what any log device promises, and each byte that it calls
//! forced was written to the file and synced, but for those that a crash of its component left and no force has
//! written since; pages over files meet what any page device promises, and each image that is said to be written has a
//! file that was synced and named; a store is open once at a time; of pages that aren't kept none is said to be written.
#![tactic(auto)]

mod blocks;
mod faults;
mod file_log;
mod file_pages;
mod first_failure;
mod folder;
mod log_file;
mod mark;
mod no_pages;
mod page_file;
mod page_files;
mod page_store;
mod renewal;
mod store;
mod store_error;

pub use blocks::{count_blocks, first_len, place_in_file};
pub use file_log::{FileLog, Torn};
pub use file_pages::FilePages;
pub use first_failure::FirstFailure;
pub use no_pages::NoPages;
pub use page_store::open_pages;
pub use renewal::replace_log;
pub use store::{open_store, read_store, reopen_store};
pub use store_error::{StoreError, StoreFile, Tried};
