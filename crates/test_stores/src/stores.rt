//! Calls on the folder and on the store in it.
use crate::counts::Counts;
use crate::damage::{Device, count_cuts, count_flips, count_raised};
use crate::files;
use crate::opened::{Way, put_run, put_store_error};
use file_devices::{FileLog, count_blocks, open_store, place_in_file};
use record_key::Refusal;
use shell_scripts::refusal_of;
use std::fmt::Write;
use std::io;
use test_lines::{OUTSIDE, Subject, Words, put_text};

/// The folder, the log that is held open, the bytes of a log in memory, and what the damage of the lines before came to.
/// A call that is refused for memory may have done a part of what it says: the cases are for ample memory.
#[derive(Drop)]
pub struct Stores<'a> {
    rt: &'a HostRuntime,
    held: Option<FileLog>,
    log: Vec<u8>,
    totals: Counts,
}

impl<'a> Stores<'a> {
    pub fn new(rt: &'a HostRuntime) -> Stores<'a> {
        Stores {
            rt,
            held: None,
            log: Vec::new(rt.alloc()),
            totals: Counts::new(rt.alloc()),
        }
    }

    /// There is no folder, and nothing was counted.
    fn start(&mut self) -> Result<(), Refusal> {
        self.held = None;
        self.totals = Counts::new(self.rt.alloc());
        done(files::remove(self.rt))
    }

    /// Opens the store and keeps its log; tells of the torn block that was left out.
    fn hold(&mut self, answer: &mut String) -> Result<(), Refusal> {
        match open_store(self.rt, files::FOLDER) {
            Ok(log) => {
                answer.push_str("opened")?;
                if let Some(torn) = log.torn() {
                    write!(answer, " without {} bytes at {}", torn.len, torn.place)?;
                }
                self.held = Some(log);
                Ok(())
            }
            Err(why) => put_store_error(why, answer),
        }
    }

    /// Damages the log of the store, which stands as it did afterwards.
    fn damage_file(&mut self, words: &mut Words<'_>, answer: &mut String) -> Result<(), Refusal> {
        let mut log = files::read(self.rt, files::LOG).map_err(|error| refusal_of(&error))?;
        damage(self.rt, Device::File, &mut log, words, answer)?;
        done(files::write(self.rt, files::LOG, &log))
    }

    /// Damages the log in memory, which stands as it did afterwards.
    fn damage_memory(&mut self, words: &mut Words<'_>, answer: &mut String) -> Result<(), Refusal> {
        let counts = damage(self.rt, Device::Memory, &mut self.log, words, answer)?;
        counts.add_to(&mut self.totals)
    }
}

/// Changes or cuts these bytes at the places, one at a time, and appends what each came to.
fn damage(
    rt: &HostRuntime,
    at: Device,
    log: &mut Vec<u8>,
    words: &mut Words<'_>,
    answer: &mut String,
) -> Result<Counts, Refusal> {
    let how = words.word();
    let places = words.number()? as usize..words.number()? as usize;
    let script = script_of(rt, words.rest())?;
    let script = script.as_bytes();
    let mut counts = Counts::new(rt.alloc());
    match how {
        "cuts" => count_cuts(rt, at, log, places, script, &mut counts)?,
        "flips" => count_flips(rt, at, log, places, script, &mut counts)?,
        _ => count_raised(rt, at, log, places, script, &mut counts)?,
    }
    counts.put(answer)?;
    Ok(counts)
}

impl Subject for Stores<'_> {
    fn call(&mut self, call: &str, answer: &mut String) -> Result<(), Refusal> {
        let rt = self.rt;
        let mut words = Words::new(rt.alloc(), call);
        let mut whole = words;
        match words.word() {
            "new" => self.start(),
            "folder" => done(files::make(rt)),
            "put" => put_file(rt, &mut words),
            "under" => done(files::make_folder(rt, words.word())),
            "remove" => done(files::remove_one(rt, words.word())),
            "files" => list(rt, answer),
            "bytes" => put_bytes(rt, words.word(), answer),
            "hold" => self.hold(answer),
            "release" => {
                self.held = None;
                Ok(())
            }
            "run" => run(rt, Way::Writing, words.rest(), answer),
            "again" => run(rt, Way::Again, words.rest(), answer),
            "read" => run(rt, Way::Reading, words.rest(), answer),
            "blocks" => put_blocks(rt, answer),
            "place" => put_place(rt, words.number()?, answer),
            "log" => {
                self.log = words.text()?;
                Ok(())
            }
            "cuts" | "flips" | "raised" => self.damage_memory(&mut whole, answer),
            "file" => self.damage_file(&mut words, answer),
            "totals" => self.totals.put(answer),
            _ => Err(OUTSIDE),
        }
    }
}

fn done(called: io::Result<()>) -> Result<(), Refusal> {
    called.map_err(|error| refusal_of(&error))
}

/// A file's name and its bytes.
fn put_file(rt: &HostRuntime, words: &mut Words<'_>) -> Result<(), Refusal> {
    let name = words.word();
    let bytes = words.text()?;
    done(files::write(rt, name, &bytes))
}

/// Each file's name and how many bytes it has.
fn list(rt: &HostRuntime, answer: &mut String) -> Result<(), Refusal> {
    let names = files::names(rt).map_err(|error| refusal_of(&error))?;
    for name in names.iter() {
        let bytes = files::read(rt, name.as_str()).map_err(|error| refusal_of(&error))?;
        write!(answer, "{name} {} ", bytes.len())?;
    }
    Ok(())
}

fn put_bytes(rt: &HostRuntime, name: &str, answer: &mut String) -> Result<(), Refusal> {
    let bytes = files::read(rt, name).map_err(|error| refusal_of(&error))?;
    put_text(answer, &bytes)
}

fn put_blocks(rt: &HostRuntime, answer: &mut String) -> Result<(), Refusal> {
    match count_blocks(rt, files::FOLDER) {
        Ok(count) => Ok(write!(answer, "{count}")?),
        Err(why) => put_store_error(why, answer),
    }
}

/// Where the file has this byte of the log.
fn put_place(rt: &HostRuntime, byte: u64, answer: &mut String) -> Result<(), Refusal> {
    match place_in_file(rt, files::FOLDER, byte) {
        Ok(Some(place)) => Ok(write!(answer, "{place}")?),
        Ok(None) => Ok(answer.push_str("none")?),
        Err(why) => put_store_error(why, answer),
    }
}

fn run(rt: &HostRuntime, way: Way, lines: &str, answer: &mut String) -> Result<(), Refusal> {
    let script = script_of(rt, lines)?;
    put_run(rt, way, script.as_bytes(), answer)?;
    Ok(())
}

/// The script whose lines stand here with ` / ` between two.
fn script_of(rt: &HostRuntime, lines: &str) -> Result<String, Refusal> {
    let mut script = String::new(rt.alloc());
    for line in lines.split(" / ") {
        script.push_str(line)?;
        script.push('\n')?;
    }
    Ok(script)
}
