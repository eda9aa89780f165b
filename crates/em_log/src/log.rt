//! A log, line by line.
ghost use Rattle.std.specs.Prelude.{◌≡◌};
ghost use Rattle.em_log.specs.Log.{told_by, fits, form_of, form_after, told_in, base_told, base_after, placed};
ghost use Rattle.em_log.specs.Log.{entry_of, IsWithin};

use crate::mmiotrace::mmiotrace_told;
use crate::plain::plain_told;
use crate::qemu::qemu_told;
use crate::told::{Access, Told, Way, Width};

/// How many octets the registers of an 82540EM take: 128 KiB.
pub(crate) const SPACE: u64 = 0x2_0000;

/// What a log looks like.
#[derive(Clone, Copy)]
pub enum Form {
    /// QEMU's trace events `memory_region_ops_read` and `memory_region_ops_write`.
    Qemu,
    /// Linux's mmiotrace.
    Mmiotrace,
    /// `read 0xOFFSET 0xVALUE` and `write 0xOFFSET 0xVALUE`, as a driver prints them.
    Plain,
}

/// An access of the adapter's registers.
#[derive(Clone, Copy, PartialEq, Eq)]
pub struct RegisterAccess {
    pub way: Way,
    /// In octets from the first register, below 20000h. A register need not lie there.
    pub offset: u32,
    pub width: Width,
    /// Below 2 to the power of the width's bits. None of a read whose value the line does not have.
    pub value: Option<u64>,
}

/// What a line of a log is.
#[derive(Clone, Copy)]
pub enum Entry {
    Access(RegisterAccess),
    /// An access of something else: of another region, or outside of the adapter's registers.
    Elsewhere,
    /// What a driver wrote into guest memory, of which `memory_written` has the address and the octets.
    Memory,
    /// A line of another kind.
    Nothing,
    /// It begins as an access, and can't be read.
    Fault,
}

/// How far a log is read.
#[derive(Clone, Copy)]
pub struct Log<'a> {
    form: Option<Form>,
    region: &'a [u8],
    base: Option<u64>,
}

impl<'a> Log<'a> {
    /// A log of which nothing is read yet.
    ///
    /// Without a form, the first line decides that is an access in one of them. `region` is what QEMU calls the
    /// adapter's registers. They lie from the address `base` on; without that, the log says where.
    pub fn new(form: Option<Form>, region: &'a [u8], base: Option<u64>) -> Log<'a>
        ensures form { result.form ≡ form }
        ensures region { result.region ≡ region.entry }
        ensures base { result.base ≡ base }
    {
        Log { form, region, base }
    }

    /// What the log looks like: what [`Log::new`] was told, or else what a line that was read decided.
    pub fn form(&self) -> Option<Form>
        ensures { result ≡ self.now.form }
    {
        let Log { form, .. } = *self;
        form
    }

    /// What the next line is.
    pub fn read(&mut self, line: &[u8]) -> Entry
        ensures entry { result ≡ entry_of self.new.base (told_in self.new.form self.old.region.now line.now) }
        ensures form { self.new.form ≡ form_after self.old.form self.old.region.now line.now }
        ensures base { self.new.base
            ≡ base_after self.old.base self.new.form (told_in self.new.form self.old.region.now line.now) }
        ensures region { self.new.region ≡ self.old.region }
        ensures within { IsWithin result }
    {
        if self.form.is_none() {
            self.form = form_of(self.region, line);
        }
        let Some(form) = self.form else {
            return Entry::Nothing;
        };
        let told = told_by(form, self.region, line);
        if self.base.is_none() {
            self.base = base_told(form, told);
        }
        entry_of(self.base, told)
    }
}

/// What a line tells in a form.
#[inline]
fn told_by(form: Form, region: &[u8], line: &[u8]) -> Told
    ensures { result ≡ told_by form region.now line.now }
{
    match form {
        Form::Qemu => qemu_told(region, line),
        Form::Mmiotrace => mmiotrace_told(line),
        Form::Plain => plain_told(line),
    }
}

/// The form in which a line tells something, if there is one.
fn form_of(region: &[u8], line: &[u8]) -> Option<Form>
    ensures { result ≡ form_of region.now line.now }
{
    if fits(qemu_told(region, line)) {
        Some(Form::Qemu)
    } else if fits(mmiotrace_told(line)) {
        Some(Form::Mmiotrace)
    } else if fits(plain_told(line)) {
        Some(Form::Plain)
    } else {
        None
    }
}

/// Whether a line tells something.
fn fits(told: Told) -> bool
    ensures { result ≡ fits told }
{
    match told {
        Told::Access(_) | Told::Elsewhere | Told::Base(_) | Told::Memory => true,
        Told::Nothing | Told::Fault => false,
    }
}

/// Where the registers lie, if a line tells it. In QEMU's trace that is the first access; a driver prints offsets.
fn base_told(form: Form, told: Told) -> Option<u64>
    ensures { result ≡ base_told form told }
{
    match told {
        Told::Base(base) => Some(base),
        Told::Access(access) => match form {
            Form::Qemu => Some(access.address - access.address % SPACE),
            Form::Mmiotrace => None,
            Form::Plain => Some(0),
        },
        Told::Elsewhere | Told::Memory | Told::Nothing | Told::Fault => None,
    }
}

/// What a line is, where the registers lie there.
fn entry_of(base: Option<u64>, told: Told) -> Entry
    ensures value { result ≡ entry_of base told }
    ensures within { IsWithin result }
{
    match told {
        Told::Access(access) => placed(base, access),
        Told::Elsewhere => Entry::Elsewhere,
        Told::Memory => Entry::Memory,
        Told::Base(_) | Told::Nothing => Entry::Nothing,
        Told::Fault => Entry::Fault,
    }
}

/// An access, where the registers lie there.
fn placed(base: Option<u64>, access: Access) -> Entry
    ensures value { result ≡ placed base access }
    ensures within { IsWithin result }
{
    let Some(base) = base else {
        return Entry::Elsewhere;
    };
    if access.address < base || access.address - base >= SPACE {
        return Entry::Elsewhere;
    }
    Entry::Access(RegisterAccess {
        way: access.way,
        offset: (access.address - base) as u32,
        width: access.width,
        value: access.value,
    })
}
