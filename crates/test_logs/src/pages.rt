//! A page device in memory.
use crate::devices::refusal_of;
use record_key::Refusal;
use stable::{CrashPages, MemPages, PageDevice};
use std::alloc::Global;
use std::fmt::Write;
use std::marker::Send;
use test_lines::{OUTSIDE, Subject, Words, bytes_of, put_hex};

/// The pages that the lines before have left.
#[derive(Drop)]
pub struct Pages {
    alloc: Global,
    device: MemPages,
}

impl Pages {
    pub fn new(alloc: Global) -> Pages {
        Pages {
            alloc,
            device: sent(MemPages::new(alloc)),
        }
    }
}

impl Subject for Pages {
    fn call(&mut self, call: &str, answer: &mut String) -> Result<(), Refusal> {
        let mut words = Words::new(self.alloc, call);
        match words.word() {
            "new" => self.device = MemPages::new(self.alloc),
            "crash" => self.device.crash(),
            "fail" => return fail_at(&mut self.device, words.number()?),
            "write" => {
                let id = words.number()?;
                let image = bytes_of(self.alloc, words.rest())?;
                return write(&mut self.device, id, &image);
            }
            "read" => return put_page(&mut self.device, words.number()?, answer),
            "ids" => return put_ids(self.alloc, &mut self.device, answer),
            _ => return Err(OUTSIDE),
        }
        Ok(())
    }
}

/// A device may go to another thread.
fn sent<T: Send>(device: T) -> T {
    device
}

fn fail_at(device: &mut MemPages, n: u64) -> Result<(), Refusal> {
    if n == 0 {
        return Err(OUTSIDE);
    }
    device.fail_at(n);
    Ok(())
}

fn write<D: PageDevice>(device: &mut D, id: u64, image: &[u8]) -> Result<(), Refusal> {
    device.write(id, image).map_err(refusal_of)
}

/// Tells the page, or a dash where it was never written.
fn put_page<D: PageDevice>(device: &mut D, id: u64, answer: &mut String) -> Result<(), Refusal> {
    match device.read(id) {
        Ok(Some([])) => Ok(answer.push('.')?),
        Ok(Some(bytes)) => put_hex(answer, bytes),
        Ok(None) => Ok(answer.push('-')?),
        Err(error) => Err(refusal_of(error)),
    }
}

fn put_ids<D: PageDevice>(
    alloc: Global,
    device: &mut D,
    answer: &mut String,
) -> Result<(), Refusal> {
    for id in device.ids(alloc).map_err(refusal_of)? {
        write!(answer, "{id} ")?;
    }
    Ok(())
}
