ghost use Rattle.std.specs.Prelude.{◌≡◌, ◌<◌, IfSome, length, position};
ghost use Rattle.gate_run_log.specs.Folder.{first_folder, is_colon, IsAbsolute};

use crate::buffer::Buffer;
use crate::log::RunLog;
use crate::writing::{Notice, say};
use gate_model::Text;
use gate_streams::Sink;
use std::alloc::Global;
use std::fs::{Files, OpenOptions};
use std::io;
use std::io::ErrorKind;
use std::rt::Env;
use std::str::from_utf8;
use std::time::{Clock, SystemTime};

// How many bytes the folders' names may have.
const LONGEST: usize = 4_096;

// How many runs may be opened in one second.
const MOST_NUMBERS: u32 = 1_000;

fn is_colon(byte: u8) -> bool
    ensures { result ≡ is_colon byte }
{
    byte == b':'
}

// The index of the first colon.
fn first_colon(folders: &[u8]) -> Option<usize>
    ensures first { result ≡ position is_colon folders.now }
    ensures within { IfSome result (λ index. index < length folders.now) }
{
    folders.iter().position(|byte| is_colon(*byte))
}

// The first one of a list of folders.
fn first_folder(folders: &[u8]) -> &[u8]
    ensures { result.now ≡ first_folder folders.now }
{
    match first_colon(folders) {
        Some(end) => &folders[..end],
        None => folders,
    }
}

// The folder that a list of folders names first, where it is an absolute path.
fn folder_in(folders: &[u8]) -> Option<&str>
    ensures { IfSome result (λ folder. (folder.now ≡ first_folder folders.now)
        × IsAbsolute folder.now) }
{
    let folder = first_folder(folders);
    if folder.first() != Some(&b'/') {
        return None;
    }
    from_utf8(folder).ok()
}

// Makes the file of a run that begins at this moment, in the folder that LOGS_DIRECTORY names first
// (systemd.exec(5)): `run-T-N.log`, T the moment, N the first number from 0 of which there is no file.
// None: no folder is named. An error is that of the system, or `OutOfMemory`.
fn open_file<R: Files + Env>(rt: &R, alloc: Global, second: u64) -> io::Result<Option<R::File>> {
    let mut named = [0; LONGEST];
    let Ok(length) = rt.var("LOGS_DIRECTORY", &mut named) else {
        return Ok(None);
    };
    let Some(folder) = folder_in(&named[..length]) else {
        return Ok(None);
    };
    for number in 0..MOST_NUMBERS {
        let path = format!(in alloc; "{folder}/run-{second}-{number}.log")?;
        let mut options = OpenOptions::new();
        options.write(true).create_new(true);
        match options.open(rt, path.as_str()) {
            Ok(file) => return Ok(Some(file)),
            Err(error) if error.kind() == ErrorKind::AlreadyExists => {}
            Err(error) => return Err(error),
        }
    }
    Err(io::Error::from(ErrorKind::AlreadyExists))
}

// The second that the clock shows; 0 where it can't be read.
fn second<R: Clock>(rt: &R) -> u64 {
    let now = SystemTime::now(rt).ok();
    match now.and_then(|now| now.duration_since(SystemTime::UNIX_EPOCH).ok()) {
        Some(since) => since.as_secs(),
        None => 0,
    }
}

/// A run's log, and the file that it goes to, which is empty.
#[derive(Drop)]
pub struct Begun<F> {
    pub run_log: RunLog,
    pub file: F,
}

// Begins the log of a run, where a folder for it is named.
fn begin<R: Files + Env + Clock>(
    rt: &R,
    alloc: Global,
    configuration: Text,
    kept: u64,
) -> io::Result<Option<Begun<R::File>>> {
    let Some(file) = open_file(rt, alloc, second(rt))? else {
        drop(configuration);
        return Ok(None);
    };
    let buffer = Buffer::new(alloc, kept)?;
    let run_log = RunLog::new(buffer, configuration);
    Ok(Some(Begun { run_log, file }))
}

/// Begins the log of a run of this configuration, for which so many items are kept, in the folder that
/// LOGS_DIRECTORY names first (systemd.exec(5)). None: no folder is named, or the log can't be written,
/// which is said on `errors`. Own rule.
pub fn begin_run_log<R: Files + Env + Clock, E: Sink>(
    rt: &R,
    alloc: Global,
    configuration: Text,
    kept: u64,
    errors: &mut E,
) -> Option<Begun<R::File>>
    ensures { IfSome result (λ _. E.state errors.new ≡ E.state errors.old) }
{
    match begin(rt, alloc, configuration, kept) {
        Ok(begun) => begun,
        Err(_) => {
            say(Notice::Unwritable, errors);
            None
        }
    }
}
