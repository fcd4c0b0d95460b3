ghost use Rattle.std.specs.Prelude.{◌≡◌, ℕ, Option, IfOk, IfSome, take};
ghost use Rattle.memchr.specs.Find.{IsLastByte, is_byte};
ghost use Rattle.kept_files.specs.Stat.{is_ended_at};

use memchr::memrchr;
use std::alloc::Global;
use std::fs::{File, Files, OpenFile, OpenOptions};
use std::io::{Read, Write};
use std::os::unix::fs::OpenOptionsExt;
use std::{fs, io};

// The bytes of the longest file that is read, 1 GiB.
const LONGEST_FILE: u64 = 1 << 30;

// Reads all that a reader has, at most so much.
fn read_all<R: Read + Drop>(reader: R, alloc: Global) -> io::Result<Vec<u8>>
    ensures { IfOk result (λ text.
        IfSome (R.remaining reader) (λ bytes. text.items ≡ take 1073741824 bytes)) }
{
    let mut text = Vec::new(alloc);
    reader.take(LONGEST_FILE).read_to_end(&mut text)?;
    Ok(text)
}

/// Reads a file, at most 1 GiB of it.
pub fn read_file<F: Files>(files: &F, alloc: Global, path: &str) -> io::Result<Vec<u8>> {
    read_all(File::open(files, path)?, alloc)
}

// Writes a file that isn't there yet, and waits until the disk has it.
fn write_new<F: Files>(files: &F, path: &str, text: &[u8]) -> io::Result<()> {
    let mut options = OpenOptions::new();
    options.write(true).create_new(true).mode(0o600);
    let mut file = options.open(files, path)?;
    file.write_all(text)?;
    file.sync_all()
}

/// Puts a text into the place of a file, whole or not at all: it is written beside it, to `PATH.new`,
/// for its owner alone, and no link is followed.
pub fn keep<F: Files>(files: &F, alloc: Global, path: &str, text: &[u8]) -> io::Result<()> {
    let new = format!(in alloc; "{path}.new")?;
    // What an earlier run left half written.
    let _missing = fs::remove_file(files, new.as_str());
    match write_new(files, new.as_str(), text) {
        Ok(()) => fs::rename(files, new.as_str(), path),
        Err(error) => {
            let _missing = fs::remove_file(files, new.as_str());
            Err(error)
        }
    }
}

/// Keeps the text of a status page. The log page that a stop kept beside an earlier one is removed.
pub fn keep_page<F: Files>(files: &F, alloc: Global, path: &str, text: &[u8]) -> io::Result<()> {
    keep(files, alloc, path, text)?;
    let log = format!(in alloc; "{path}.log")?;
    let _missing = fs::remove_file(files, log.as_str());
    Ok(())
}

/// Whether the first of two files was written later than the second. An error: one of them is missing.
pub fn is_newer<F: Files>(files: &F, path: &str, other: &str) -> io::Result<bool> {
    let written = fs::metadata(files, path)?.modified()?;
    Ok(written > fs::metadata(files, other)?.modified()?)
}

// Whether the line of /proc/PID/stat is that of a process that has ended, and waits for its parent:
// its state stands after the last parenthesis.
fn is_ended(stat: &[u8]) -> bool
    ensures { (last : Option ℕ) × IsLastByte (is_byte 41) stat.now last
        × (result ≡ is_ended_at stat.now last) }
{
    match memrchr(b')', stat) {
        Some(index) => matches!(stat.get(index + 2), Some(b'Z' | b'X')),
        None => false,
    }
}

/// Whether a process of this number runs.
pub fn runs<F: Files>(files: &F, alloc: Global, pid: &str) -> io::Result<bool> {
    let path = format!(in alloc; "/proc/{pid}/stat")?;
    if !fs::exists(files, path.as_str())? {
        return Ok(false);
    }
    Ok(!is_ended(read_file(files, alloc, path.as_str())?.as_slice()))
}
