ghost use Rattle.std.specs.Prelude.{ℕ, List, IfOk, IfErr};
ghost use Rattle.gate_start.specs.BeforeServing.{Configures, IsConfigEnd};
ghost use Rattle.gate_start.specs.inner.Reading.{IsReadFault, IsTextEnd};

use crate::fault::{ServeFault, or_fault};
use gate_config::{Config, ConfigFault, read_config};
use gate_faults::RunFault;
use gate_model::{DOCUMENT_BYTES, Text};
use std::alloc::Global;
use std::fs::{File, Files};
use std::io;
use std::io::Read;

// Reads a file, and no more of it than one byte beyond the greatest configuration.
fn read_file<F: Files>(files: &F, alloc: Global, path: &str) -> io::Result<Vec<u8>> {
    let mut text = Vec::new(alloc);
    let file = File::open(files, path)?;
    file.take(DOCUMENT_BYTES as u64 + 1).read_to_end(&mut text)?;
    Ok(text)
}

// The fault of a text that could not be read as a configuration.
fn config_fault(alloc: Global, fault: &ConfigFault) -> ServeFault
    ensures { (text : List ℕ) → IsReadFault text fault.now → IsTextEnd result }
{
    if matches!(fault, ConfigFault::OutOfMemory) {
        return ServeFault::Run(RunFault::OutOfMemory);
    }
    match fault.text(alloc) {
        Ok(text) => ServeFault::Config(Text::new(text)),
        Err(_) => ServeFault::Run(RunFault::OutOfMemory),
    }
}

// Reads the configuration in a text.
fn configure(alloc: Global, text: &[u8]) -> Result<Config, ServeFault>
    ensures ok { IfOk result (Configures text.now) }
    ensures err { IfErr result IsTextEnd }
{
    match read_config(alloc, text) {
        Ok(config) => Ok(config),
        Err(fault) => Err(config_fault(alloc, &fault)),
    }
}

/// Reads the configuration in the file of this path: its text, and what that configures.
pub(crate) fn configuration<F: Files>(
    files: &F,
    alloc: Global,
    path: &str,
) -> Result<(Text, Config), ServeFault>
    ensures ok { IfOk result (λ read. Configures read.0 read.1) }
    ensures err { IfErr result IsConfigEnd }
{
    let text = or_fault(read_file(files, alloc, path), ServeFault::Unreadable)?;
    let config = configure(alloc, &text)?;
    Ok((Text::new(text), config))
}
