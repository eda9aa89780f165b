//! The host's files.
ghost use Rattle.std.specs.Prelude.{OnOk};
ghost use Rattle.std.specs.Io.KnownBytes.{Appends};
ghost use Rattle.em_debug.specs.Host.{Does};

use em_debugger::{Disk, DiskFault};
use em_input::is_compressed;
use em_text::{ReadFault, read_script, write_whole};
use std::fs::{self, File};
use std::io::{self, ErrorKind, Write};
use std::rt::Files;

/// What a new file is called before it takes an old one's place.
const NEW: &str = ".new";

/// The host's files.
#[derive(Drop)]
pub struct Host<'a, R: Files + AllocGlobal> {
    pub rt: &'a R,
}

impl<R: Files + AllocGlobal> Disk for Host<'_, R> {
    ghost passes = { λ before deed after. Does R.File.remaining R.File.contents deed };

    fn read(&mut self, name: &[u8], text: &mut Vec<u8>) -> Result<(), DiskFault> {
        let mut file = match File::open(self.rt, text_of(name)?) {
            Ok(file) => file,
            Err(error) => return Err(fault_of(&error)),
        };
        match read_script(self.rt.alloc(), &mut file) {
            Ok(script) if is_compressed(script.as_slice()) => Err(DiskFault::Compressed),
            Ok(script) => {
                *text = script;
                Ok(())
            }
            Err(ReadFault::TooLarge) => Err(DiskFault::TooLarge),
            Err(ReadFault::Memory) => Err(DiskFault::Memory),
            Err(ReadFault::Read) => Err(DiskFault::Failed),
        }
    }

    fn create(&mut self, name: &[u8], text: &[u8]) -> Result<(), DiskFault> {
        let name = text_of(name)?;
        match File::create_new(self.rt, name) {
            Ok(mut file) => {
                let written = write_all(&mut file, text);
                if written.is_err() {
                    let _ = fs::remove_file(self.rt, name);
                }
                written
            }
            Err(error) => Err(fault_of(&error)),
        }
    }

    fn replace(&mut self, name: &[u8], text: &[u8]) -> Result<(), DiskFault> {
        let name = text_of(name)?;
        let Ok(new) = format!(in self.rt.alloc(); "{name}{NEW}") else {
            return Err(DiskFault::Memory);
        };
        match self.create(new.as_str().as_bytes(), text) {
            Ok(()) => {}
            // the file of that name is another one
            Err(DiskFault::Exists) => return Err(DiskFault::Failed),
            Err(fault) => return Err(fault),
        }
        match fs::rename(self.rt, new.as_str(), name) {
            Ok(()) => Ok(()),
            Err(error) => {
                let _ = fs::remove_file(self.rt, new.as_str());
                Err(fault_of(&error))
            }
        }
    }
}

/// Writes a text whole.
fn write_all<W: Write>(file: &mut W, text: &[u8]) -> Result<(), DiskFault>
    ensures ok { OnOk result (Appends (W.contents file.old) (W.contents file.new) text.now) }
{
    match write_whole(file, text) {
        Ok(()) => Ok(()),
        Err(_) => Err(DiskFault::Failed),
    }
}

fn text_of(name: &[u8]) -> Result<&str, DiskFault> {
    match str::from_utf8(name) {
        Ok(text) => Ok(text),
        Err(_) => Err(DiskFault::Name),
    }
}

fn fault_of(error: &io::Error) -> DiskFault {
    match error.kind() {
        ErrorKind::NotFound => DiskFault::Missing,
        ErrorKind::AlreadyExists => DiskFault::Exists,
        _ => DiskFault::Failed,
    }
}
