//! Where files lie.
ghost use Rattle.std.specs.Prelude.{◌≡◌};
ghost use Rattle.em_debugger.specs.Disk.{disk_text};

/// Why a file was not read or written.
#[derive(Clone, Copy)]
pub enum DiskFault {
    /// There is no such file.
    Missing,
    /// There is such a file already.
    Exists,
    /// Its name is no text.
    Name,
    /// It is longer than a script may be.
    TooLarge,
    /// It is a file of gzip.
    Compressed,
    /// Memory was refused.
    Memory,
    /// The system failed otherwise.
    Failed,
}

impl DiskFault {
    /// What is said of it, behind the name of the file.
    pub(crate) fn text(self) -> &'static [u8]
        ensures { result.now ≡ disk_text self }
    {
        match self {
            DiskFault::Missing => b": there is no such file\n",
            DiskFault::Exists => b": the file is there already; save! and pcap! replace it\n",
            DiskFault::Name => b": this is no name of a file\n",
            DiskFault::TooLarge => b": it has more than 4194304 octets\n",
            DiskFault::Compressed => b": it is compressed by gzip: unpack it first\n",
            DiskFault::Memory => b": no memory for it\n",
            DiskFault::Failed => b": the system refuses it\n",
        }
    }
}

/// Files by their names.
pub trait Disk {
    ghost use Rattle.std.specs.Prelude.{OnOk, IfErr};
    ghost use Rattle.em_debugger.specs.Disk.{Deed, Read, Made, Replaced, Refused};

    // in a state of the disk this is done, and this state follows
    ghost passes: { Self → Deed → Self → Type 0 };

    /// Puts what a file holds into `text`, which is empty.
    fn read(&mut self, name: &[u8], text: &mut Vec<u8>) -> Result<(), DiskFault>
        ensures ok { OnOk result (passes self.old (Read name.now text.new.items) self.new) }
        ensures err { IfErr result (λ fault. passes self.old (Refused name.now fault) self.new) };

    /// Makes a new file with this text.
    fn create(&mut self, name: &[u8], text: &[u8]) -> Result<(), DiskFault>
        ensures ok { OnOk result (passes self.old (Made name.now text.now) self.new) }
        ensures err { IfErr result (λ fault. passes self.old (Refused name.now fault) self.new) };

    /// Makes a file with this text, in the place of one that may be there: whole or not at all.
    fn replace(&mut self, name: &[u8], text: &[u8]) -> Result<(), DiskFault>
        ensures ok { OnOk result (passes self.old (Replaced name.now text.now) self.new) }
        ensures err { IfErr result (λ fault. passes self.old (Refused name.now fault) self.new) };
}
