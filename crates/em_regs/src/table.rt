//! The table of the registers: where each lies, what an access does, and which word keeps it.
ghost use Rattle.std.specs.Prelude.{◌≡◌, ◌<◌, ◌+◌, ◌*◌, ◌/◌, ◌%◌, IsTrue};
ghost use Rattle.em_regs.specs.declared.reg.Reg.{Reg};
ghost use Rattle.em_regs.specs.Table.{is_stored_kind, mask_by, row_of, stem_of, reg_at, NoneFrom};

use crate::profile::Profile;
use crate::reg::Reg;

/// What the adapter does at an access.
#[derive(Clone, Copy, PartialEq, Eq, Debug)]
pub enum Kind {
    /// A write stores the bits of the row's mask, and a read gives them.
    Stored,
    /// CTRL: as `Stored`, but a write with RST resets the adapter and stores nothing.
    Control,
    /// EERD: as `Stored`, but a write with START reads a word of the EEPROM.
    EepromRead,
    /// STATUS: a read gives the link, and a write does nothing.
    Status,
    /// An interrupt register (manual, chapter on interrupt registers).
    Interrupt,
    /// A counter (manual, chapter on statistics registers).
    Counter,
    /// EECD: the pins of the EEPROM.
    EepromPins,
    /// MDIC: a command to the PHY, and what comes of it.
    PhyCommand,
    /// A counter of what never happens here: a read gives 0, and a write does nothing.
    Uncounted,
}

impl Kind {
    /// Whether the register file keeps what is written.
    #[inline(always)]
    pub fn is_stored(self) -> bool
        ensures { result ≡ is_stored_kind self }
    {
        matches!(self, Kind::Stored | Kind::Control | Kind::EepromRead)
    }
}

/// A row of the table: a register, or the registers of an array.
#[derive(Clone, Copy, Debug)]
pub struct Row {
    /// The first profile that has the row; those behind it have it too.
    pub since: Profile,
    /// Where the first of its words lies, in octets from the first register.
    pub offset: u32,
    /// How many words it has.
    pub words: u8,
    /// How far apart they lie: 4 octets, or 8.
    pub spacing: u32,
    /// What an access does.
    pub kind: Kind,
    /// The bits of a written value that are stored.
    pub mask: u32,
    /// Whether the second profile stores 16 of these bits alone.
    pub narrow: bool,
    /// Which word keeps the first of them, the others behind it: a word of the register file, or of
    /// the counters. A new row takes the next free place of its kind.
    pub place: usize,
}

/// A row of the table with the manual's name: of an array, the array's name.
#[derive(Clone, Copy)]
struct NamedRow {
    name: &'static str,
    row: Row,
}

impl Row {
    /// The bits of a written value that a profile stores.
    #[inline(always)]
    pub fn mask_in(&self, profile: Profile) -> u32
        ensures { result ≡ mask_by self.now profile }
    {
        match (self.narrow, profile) {
            (true, Profile::Adapter) => INDEX_BITS,
            _ => self.mask,
        }
    }
}

/// The registers lie below this offset, each at a multiple of 4 octets.
pub const SPACE: u32 = 0x06000;

/// How many octets a word has.
pub(crate) const WORD: u32 = 4;

/// How many octets a page of the table by offset has.
pub(crate) const PAGE: u32 = 64;

/// How many words the register file has: its next free place.
pub const STORED_WORDS: usize = 327;

/// How many counters there are: their next free place.
pub const COUNTER_WORDS: usize = 32;

/// A register that stores all 32 bits.
const EVERY_BIT: u32 = 0xFFFF_FFFF;

/// EERD: a write that starts no read keeps the address alone.
const EERD_BITS: u32 = 0x0000_FF00;

/// RDBAL and TDBAL: a ring's base is a multiple of 16 octets.
const BASE_BITS: u32 = 0xFFFF_FFF0;

/// RDLEN and TDLEN: a ring's length in octets is a multiple of 128, below 1 MiB.
const LENGTH_BITS: u32 = 0x000F_FF80;

/// Heads, tails, VET and AIT have 16 bits, and so have timers and the fields of pause frames in the second profile.
const INDEX_BITS: u32 = 0x0000_FFFF;

/// TXCW: TxConfigWord, TxConfig and ANE.
const CONFIG_BITS: u32 = 0xC000_FFFF;

/// FCRTH: a threshold is a multiple of 8 octets below 64 KiB.
const THRESHOLD_BITS: u32 = 0x0000_FFF8;

/// FCRTL: such a threshold, and XONE.
const XON_BITS: u32 = 0x8000_FFF8;

/// RAH: two octets of the address, AS and AV.
const RAH_BITS: u32 = 0x8003_FFFF;

/// One register: name, offset, kind, mask, place, and then `narrow`, or the first profile that has it, where that is not
/// `Table`. An array: name, offset; words, spacing, and then kind, mask and place.
macro_rules! row {
    ($name:literal, $offset:literal, $kind:ident, $mask:ident, $place:literal) => {
        row!($name, $offset; 1, 4, $kind, $mask, $place, Table, false)
    };
    ($name:literal, $offset:literal, $kind:ident, $mask:ident, $place:literal, narrow) => {
        row!($name, $offset; 1, 4, $kind, $mask, $place, Table, true)
    };
    ($name:literal, $offset:literal, $kind:ident, $mask:ident, $place:literal, $since:ident) => {
        row!($name, $offset; 1, 4, $kind, $mask, $place, $since, false)
    };
    ($name:literal, $offset:literal; $words:literal, $spacing:literal, $kind:ident, $mask:ident, $place:literal) => {
        row!($name, $offset; $words, $spacing, $kind, $mask, $place, Table, false)
    };
    ($name:literal, $offset:literal; $words:literal, $spacing:literal, $kind:ident, $mask:ident, $place:literal,
        $since:ident, $narrow:literal) => {
        &NamedRow {
            name: $name,
            row: Row {
                since: Profile::$since,
                offset: $offset,
                words: $words,
                spacing: $spacing,
                kind: Kind::$kind,
                mask: $mask,
                narrow: $narrow,
                place: $place,
            },
        }
    };
}

impl Reg {
    /// The register's row of the table (manual, chapter on register descriptions).
    #[inline(always)]
    pub fn row(self) -> &'static Row
        ensures { result.now ≡ row_of self }
    {
        &self.named_row().row
    }

    /// The manual's name of the register: of an array's, the array's name, as `MTA`.
    pub fn stem(self) -> &'static str
        ensures { result.now ≡ stem_of self }
    {
        self.named_row().name
    }

    /// The table.
    #[inline(always)]
    #[rattlefmt::skip]
    fn named_row(self) -> &'static NamedRow
        ensures row { result.now.row ≡ row_of self }
        ensures name { result.now.name.now ≡ stem_of self }
    {
        match self {
            Reg::Ctrl =>     row!("CTRL",     0x00000,          Control,    EVERY_BIT,   0),
            Reg::Status =>   row!("STATUS",   0x00008,          Status,     EVERY_BIT,   0),
            Reg::Eerd =>     row!("EERD",     0x00014,          EepromRead, EERD_BITS,   1),
            Reg::CtrlExt =>  row!("CTRL_EXT", 0x00018,          Stored,     EVERY_BIT,   2),
            Reg::Fcal =>     row!("FCAL",     0x00028,          Stored,     EVERY_BIT,   3),
            Reg::Fcah =>     row!("FCAH",     0x0002C,          Stored,     EVERY_BIT,   4,   narrow),
            Reg::Fct =>      row!("FCT",      0x00030,          Stored,     EVERY_BIT,   5,   narrow),
            Reg::Vet =>      row!("VET",      0x00038,          Stored,     INDEX_BITS,  6),
            Reg::Icr =>      row!("ICR",      0x000C0,          Interrupt,  EVERY_BIT,   0),
            Reg::Itr =>      row!("ITR",      0x000C4,          Stored,     EVERY_BIT,   7,   narrow),
            Reg::Ics =>      row!("ICS",      0x000C8,          Interrupt,  EVERY_BIT,   0),
            Reg::Ims =>      row!("IMS",      0x000D0,          Interrupt,  EVERY_BIT,   0),
            Reg::Imc =>      row!("IMC",      0x000D8,          Interrupt,  EVERY_BIT,   0),
            Reg::Rctl =>     row!("RCTL",     0x00100,          Stored,     EVERY_BIT,   8),
            Reg::Fcttv =>    row!("FCTTV",    0x00170,          Stored,     EVERY_BIT,   9,   narrow),
            Reg::Tctl =>     row!("TCTL",     0x00400,          Stored,     EVERY_BIT,   10),
            Reg::Tipg =>     row!("TIPG",     0x00410,          Stored,     EVERY_BIT,   11),
            Reg::Ledctl =>   row!("LEDCTL",   0x00E00,          Stored,     EVERY_BIT,   12),
            Reg::Pba =>      row!("PBA",      0x01000,          Stored,     EVERY_BIT,   13),
            Reg::Rdbal =>    row!("RDBAL",    0x02800,          Stored,     BASE_BITS,   14),
            Reg::Rdbah =>    row!("RDBAH",    0x02804,          Stored,     EVERY_BIT,   15),
            Reg::Rdlen =>    row!("RDLEN",    0x02808,          Stored,     LENGTH_BITS, 16),
            Reg::Rdh =>      row!("RDH",      0x02810,          Stored,     INDEX_BITS,  17),
            Reg::Rdt =>      row!("RDT",      0x02818,          Stored,     INDEX_BITS,  18),
            Reg::Rdtr =>     row!("RDTR",     0x02820,          Stored,     EVERY_BIT,   19,  narrow),
            Reg::Rxdctl =>   row!("RXDCTL",   0x02828,          Stored,     EVERY_BIT,   20),
            Reg::Radv =>     row!("RADV",     0x0282C,          Stored,     EVERY_BIT,   21,  narrow),
            Reg::Tdbal =>    row!("TDBAL",    0x03800,          Stored,     BASE_BITS,   22),
            Reg::Tdbah =>    row!("TDBAH",    0x03804,          Stored,     EVERY_BIT,   23),
            Reg::Tdlen =>    row!("TDLEN",    0x03808,          Stored,     LENGTH_BITS, 24),
            Reg::Tdh =>      row!("TDH",      0x03810,          Stored,     INDEX_BITS,  25),
            Reg::Tdt =>      row!("TDT",      0x03818,          Stored,     INDEX_BITS,  26),
            Reg::Tidv =>     row!("TIDV",     0x03820,          Stored,     EVERY_BIT,   27,  narrow),
            Reg::Txdctl =>   row!("TXDCTL",   0x03828,          Stored,     EVERY_BIT,   28),
            Reg::Tadv =>     row!("TADV",     0x0382C,          Stored,     EVERY_BIT,   29,  narrow),
            Reg::Mpc =>      row!("MPC",      0x04010,          Counter,    EVERY_BIT,   0),
            Reg::Prc64 =>    row!("PRC64",    0x0405C,          Counter,    EVERY_BIT,   1),
            Reg::Prc127 =>   row!("PRC127",   0x04060,          Counter,    EVERY_BIT,   2),
            Reg::Prc255 =>   row!("PRC255",   0x04064,          Counter,    EVERY_BIT,   3),
            Reg::Prc511 =>   row!("PRC511",   0x04068,          Counter,    EVERY_BIT,   4),
            Reg::Prc1023 =>  row!("PRC1023",  0x0406C,          Counter,    EVERY_BIT,   5),
            Reg::Prc1522 =>  row!("PRC1522",  0x04070,          Counter,    EVERY_BIT,   6),
            Reg::Gprc =>     row!("GPRC",     0x04074,          Counter,    EVERY_BIT,   7),
            Reg::Bprc =>     row!("BPRC",     0x04078,          Counter,    EVERY_BIT,   8),
            Reg::Mprc =>     row!("MPRC",     0x0407C,          Counter,    EVERY_BIT,   9),
            Reg::Gptc =>     row!("GPTC",     0x04080,          Counter,    EVERY_BIT,   10),
            Reg::Gorcl =>    row!("GORCL",    0x04088,          Counter,    EVERY_BIT,   11),
            Reg::Gorch =>    row!("GORCH",    0x0408C,          Counter,    EVERY_BIT,   12),
            Reg::Gotcl =>    row!("GOTCL",    0x04090,          Counter,    EVERY_BIT,   13),
            Reg::Gotch =>    row!("GOTCH",    0x04094,          Counter,    EVERY_BIT,   14),
            Reg::Rnbc =>     row!("RNBC",     0x040A0,          Counter,    EVERY_BIT,   15),
            Reg::Ruc =>      row!("RUC",      0x040A4,          Counter,    EVERY_BIT,   16),
            Reg::Roc =>      row!("ROC",      0x040AC,          Counter,    EVERY_BIT,   17),
            Reg::Ptc64 =>    row!("PTC64",    0x040D8,          Counter,    EVERY_BIT,   18),
            Reg::Ptc127 =>   row!("PTC127",   0x040DC,          Counter,    EVERY_BIT,   19),
            Reg::Ptc255 =>   row!("PTC255",   0x040E0,          Counter,    EVERY_BIT,   20),
            Reg::Ptc511 =>   row!("PTC511",   0x040E4,          Counter,    EVERY_BIT,   21),
            Reg::Ptc1023 =>  row!("PTC1023",  0x040E8,          Counter,    EVERY_BIT,   22),
            Reg::Ptc1522 =>  row!("PTC1522",  0x040EC,          Counter,    EVERY_BIT,   23),
            Reg::Mptc =>     row!("MPTC",     0x040F0,          Counter,    EVERY_BIT,   24),
            Reg::Bptc =>     row!("BPTC",     0x040F4,          Counter,    EVERY_BIT,   25),
            Reg::Rxcsum =>   row!("RXCSUM",   0x05000,          Stored,     EVERY_BIT,   30),
            Reg::Mta(_) =>   row!("MTA",      0x05200; 128, 4,  Stored,     EVERY_BIT,   31),
            Reg::Ral(_) =>   row!("RAL",      0x05400; 16, 8,   Stored,     EVERY_BIT,   159),
            Reg::Rah(_) =>   row!("RAH",      0x05404; 16, 8,   Stored,     RAH_BITS,    175),
            Reg::Vfta(_) =>  row!("VFTA",     0x05600; 128, 4,  Stored,     EVERY_BIT,   191),
            Reg::Eecd =>     row!("EECD",     0x00010,          EepromPins, EVERY_BIT,   0,   Adapter),
            Reg::Mdic =>     row!("MDIC",     0x00020,          PhyCommand, EVERY_BIT,   0,   Adapter),
            Reg::Txcw =>     row!("TXCW",     0x00178,          Stored,     CONFIG_BITS, 319, Adapter),
            Reg::Ait =>      row!("AIT",      0x00458,          Stored,     INDEX_BITS,  320, Adapter),
            Reg::Fcrtl =>    row!("FCRTL",    0x02160,          Stored,     XON_BITS,    321, Adapter),
            Reg::Fcrth =>    row!("FCRTH",    0x02168,          Stored,     THRESHOLD_BITS, 322, Adapter),
            Reg::Wuc =>      row!("WUC",      0x05800,          Stored,     EVERY_BIT,   323, Adapter),
            Reg::Wufc =>     row!("WUFC",     0x05808,          Stored,     EVERY_BIT,   324, Adapter),
            Reg::Manc =>     row!("MANC",     0x05820,          Stored,     EVERY_BIT,   325, Adapter),
            Reg::Swsm =>     row!("SWSM",     0x05B50,          Stored,     EVERY_BIT,   326, Adapter),
            Reg::Torl =>     row!("TORL",     0x040C0,          Counter,    EVERY_BIT,   26,  Adapter),
            Reg::Torh =>     row!("TORH",     0x040C4,          Counter,    EVERY_BIT,   27,  Adapter),
            Reg::Totl =>     row!("TOTL",     0x040C8,          Counter,    EVERY_BIT,   28,  Adapter),
            Reg::Toth =>     row!("TOTH",     0x040CC,          Counter,    EVERY_BIT,   29,  Adapter),
            Reg::Tpr =>      row!("TPR",      0x040D0,          Counter,    EVERY_BIT,   30,  Adapter),
            Reg::Tpt =>      row!("TPT",      0x040D4,          Counter,    EVERY_BIT,   31,  Adapter),
            Reg::Crcerrs =>  row!("CRCERRS",  0x04000,          Uncounted,  EVERY_BIT,   0,   Adapter),
            Reg::Algnerrc => row!("ALGNERRC", 0x04004,          Uncounted,  EVERY_BIT,   0,   Adapter),
            Reg::Symerrs =>  row!("SYMERRS",  0x04008,          Uncounted,  EVERY_BIT,   0,   Adapter),
            Reg::Rxerrc =>   row!("RXERRC",   0x0400C,          Uncounted,  EVERY_BIT,   0,   Adapter),
            Reg::Scc =>      row!("SCC",      0x04014,          Uncounted,  EVERY_BIT,   0,   Adapter),
            Reg::Ecol =>     row!("ECOL",     0x04018,          Uncounted,  EVERY_BIT,   0,   Adapter),
            Reg::Mcc =>      row!("MCC",      0x0401C,          Uncounted,  EVERY_BIT,   0,   Adapter),
            Reg::Latecol =>  row!("LATECOL",  0x04020,          Uncounted,  EVERY_BIT,   0,   Adapter),
            Reg::Colc =>     row!("COLC",     0x04028,          Uncounted,  EVERY_BIT,   0,   Adapter),
            Reg::Dc =>       row!("DC",       0x04030,          Uncounted,  EVERY_BIT,   0,   Adapter),
            Reg::Tncrs =>    row!("TNCRS",    0x04034,          Uncounted,  EVERY_BIT,   0,   Adapter),
            Reg::Sec =>      row!("SEC",      0x04038,          Uncounted,  EVERY_BIT,   0,   Adapter),
            Reg::Cexterr =>  row!("CEXTERR",  0x0403C,          Uncounted,  EVERY_BIT,   0,   Adapter),
            Reg::Rlec =>     row!("RLEC",     0x04040,          Uncounted,  EVERY_BIT,   0,   Adapter),
            Reg::Xonrxc =>   row!("XONRXC",   0x04048,          Uncounted,  EVERY_BIT,   0,   Adapter),
            Reg::Xontxc =>   row!("XONTXC",   0x0404C,          Uncounted,  EVERY_BIT,   0,   Adapter),
            Reg::Xoffrxc =>  row!("XOFFRXC",  0x04050,          Uncounted,  EVERY_BIT,   0,   Adapter),
            Reg::Xofftxc =>  row!("XOFFTXC",  0x04054,          Uncounted,  EVERY_BIT,   0,   Adapter),
            Reg::Fcruc =>    row!("FCRUC",    0x04058,          Uncounted,  EVERY_BIT,   0,   Adapter),
            Reg::Rfc =>      row!("RFC",      0x040A8,          Uncounted,  EVERY_BIT,   0,   Adapter),
            Reg::Rjc =>      row!("RJC",      0x040B0,          Uncounted,  EVERY_BIT,   0,   Adapter),
            Reg::Mgtprc =>   row!("MGTPRC",   0x040B4,          Uncounted,  EVERY_BIT,   0,   Adapter),
            Reg::Mgtpdc =>   row!("MGTPDC",   0x040B8,          Uncounted,  EVERY_BIT,   0,   Adapter),
            Reg::Mgtptc =>   row!("MGTPTC",   0x040BC,          Uncounted,  EVERY_BIT,   0,   Adapter),
            Reg::Tsctc =>    row!("TSCTC",    0x040F8,          Uncounted,  EVERY_BIT,   0,   Adapter),
            Reg::Tsctfc =>   row!("TSCTFC",   0x040FC,          Uncounted,  EVERY_BIT,   0,   Adapter),
        }
    }
}

// The table read by offset. The proof of `word_at` names a register that these pages miss.

/// A page is 16 words, and a `-` is a word with no register.
macro_rules! page {
    ($($word:tt)*) => { [$(at!($word)),*] };
}

macro_rules! at {
    (-) => { None };
    ($name:ident) => { Some(Reg::$name) };
}

/// A page of an array's words, from one of them on.
#[rattlefmt::skip]
macro_rules! words {
    ($name:ident, $i:literal) => {
        [
            Some(Reg::$name($i)), Some(Reg::$name($i + 1)), Some(Reg::$name($i + 2)), Some(Reg::$name($i + 3)),
            Some(Reg::$name($i + 4)), Some(Reg::$name($i + 5)), Some(Reg::$name($i + 6)), Some(Reg::$name($i + 7)),
            Some(Reg::$name($i + 8)), Some(Reg::$name($i + 9)), Some(Reg::$name($i + 10)), Some(Reg::$name($i + 11)),
            Some(Reg::$name($i + 12)), Some(Reg::$name($i + 13)), Some(Reg::$name($i + 14)), Some(Reg::$name($i + 15)),
        ]
    };
}

/// A page of receive addresses, from one of them on.
#[rattlefmt::skip]
macro_rules! addresses {
    ($i:literal) => {
        [
            Some(Reg::Ral($i)), Some(Reg::Rah($i)), Some(Reg::Ral($i + 1)), Some(Reg::Rah($i + 1)),
            Some(Reg::Ral($i + 2)), Some(Reg::Rah($i + 2)), Some(Reg::Ral($i + 3)), Some(Reg::Rah($i + 3)),
            Some(Reg::Ral($i + 4)), Some(Reg::Rah($i + 4)), Some(Reg::Ral($i + 5)), Some(Reg::Rah($i + 5)),
            Some(Reg::Ral($i + 6)), Some(Reg::Rah($i + 6)), Some(Reg::Ral($i + 7)), Some(Reg::Rah($i + 7)),
        ]
    };
}

/// The pages that differ, each at the first place where it lies.
#[rattlefmt::skip]
static PAGES: [[Option<Reg>; 16]; 37] = [
    page![- - - - - - - - - - - - - - - -], // BARE
    page![Ctrl - Status - Eecd Eerd CtrlExt - Mdic - Fcal Fcah Fct - Vet -], // 0x00000
    page![Icr Itr Ics - Ims - Imc - - - - - - - - -], // 0x000C0
    page![Rctl - - - - - - - - - - - - - - -], // 0x00100
    page![- - - - - - - - - - - - Fcttv - Txcw -], // 0x00140
    page![Tctl - - - Tipg - - - - - - - - - - -], // 0x00400
    page![Ledctl - - - - - - - - - - - - - - -], // 0x00E00
    page![Pba - - - - - - - - - - - - - - -], // 0x01000
    page![Rdbal Rdbah Rdlen - Rdh - Rdt - Rdtr - Rxdctl Radv - - - -], // 0x02800
    page![Tdbal Tdbah Tdlen - Tdh - Tdt - Tidv - Txdctl Tadv - - - -], // 0x03800
    page![Crcerrs Algnerrc Symerrs Rxerrc Mpc Scc Ecol Mcc Latecol - Colc - Dc Tncrs Sec Cexterr], // 0x04000
    page![Rlec - Xonrxc Xontxc Xoffrxc Xofftxc Fcruc Prc64 Prc127 Prc255 Prc511 Prc1023 Prc1522 Gprc Bprc Mprc], // 0x04040
    page![Gptc - Gorcl Gorch Gotcl Gotch - - Rnbc Ruc Rfc Roc Rjc Mgtprc Mgtpdc Mgtptc], // 0x04080
    page![Torl Torh Totl Toth Tpr Tpt Ptc64 Ptc127 Ptc255 Ptc511 Ptc1023 Ptc1522 Mptc Bptc Tsctc Tsctfc], // 0x040C0
    page![Rxcsum - - - - - - - - - - - - - - -], // 0x05000
    words!(Mta, 0), words!(Mta, 16), words!(Mta, 32), words!(Mta, 48), // 0x05200
    words!(Mta, 64), words!(Mta, 80), words!(Mta, 96), words!(Mta, 112), // 0x05300
    addresses!(0), addresses!(8), // 0x05400
    words!(Vfta, 0), words!(Vfta, 16), words!(Vfta, 32), words!(Vfta, 48), // 0x05600
    words!(Vfta, 64), words!(Vfta, 80), words!(Vfta, 96), words!(Vfta, 112), // 0x05700
    page![Wuc - Wufc - - - - - Manc - - - - - - -], // 0x05800
    page![- - - - - - Ait - - - - - - - - -], // 0x00440
    page![- - - - - - - - Fcrtl - Fcrth - - - - -], // 0x02140
    page![- - - - Swsm - - - - - - - - - - -], // 0x05B40
];

/// The page with no register.
const BARE: u8 = 0;

/// Which page lies at each 64 octets.
#[rattlefmt::skip]
static PAGE_AT: [u8; 384] = [
    1, 0, 0, 2, 3, 4, 0, 0, 0, 0, 0, 0, 0, 0, 0, 0, // 0x00000
    5, 34, 0, 0, 0, 0, 0, 0, 0, 0, 0, 0, 0, 0, 0, 0, // 0x00400
    0, 0, 0, 0, 0, 0, 0, 0, 0, 0, 0, 0, 0, 0, 0, 0, // 0x00800
    0, 0, 0, 0, 0, 0, 0, 0, 6, 0, 0, 0, 0, 0, 0, 0, // 0x00C00
    7, 0, 0, 0, 0, 0, 0, 0, 0, 0, 0, 0, 0, 0, 0, 0, // 0x01000
    0, 0, 0, 0, 0, 0, 0, 0, 0, 0, 0, 0, 0, 0, 0, 0, // 0x01400
    0, 0, 0, 0, 0, 0, 0, 0, 0, 0, 0, 0, 0, 0, 0, 0, // 0x01800
    0, 0, 0, 0, 0, 0, 0, 0, 0, 0, 0, 0, 0, 0, 0, 0, // 0x01C00
    0, 0, 0, 0, 0, 35, 0, 0, 0, 0, 0, 0, 0, 0, 0, 0, // 0x02000
    0, 0, 0, 0, 0, 0, 0, 0, 0, 0, 0, 0, 0, 0, 0, 0, // 0x02400
    8, 0, 0, 0, 0, 0, 0, 0, 0, 0, 0, 0, 0, 0, 0, 0, // 0x02800
    0, 0, 0, 0, 0, 0, 0, 0, 0, 0, 0, 0, 0, 0, 0, 0, // 0x02C00
    0, 0, 0, 0, 0, 0, 0, 0, 0, 0, 0, 0, 0, 0, 0, 0, // 0x03000
    0, 0, 0, 0, 0, 0, 0, 0, 0, 0, 0, 0, 0, 0, 0, 0, // 0x03400
    9, 0, 0, 0, 0, 0, 0, 0, 0, 0, 0, 0, 0, 0, 0, 0, // 0x03800
    0, 0, 0, 0, 0, 0, 0, 0, 0, 0, 0, 0, 0, 0, 0, 0, // 0x03C00
    10, 11, 12, 13, 0, 0, 0, 0, 0, 0, 0, 0, 0, 0, 0, 0, // 0x04000
    0, 0, 0, 0, 0, 0, 0, 0, 0, 0, 0, 0, 0, 0, 0, 0, // 0x04400
    0, 0, 0, 0, 0, 0, 0, 0, 0, 0, 0, 0, 0, 0, 0, 0, // 0x04800
    0, 0, 0, 0, 0, 0, 0, 0, 0, 0, 0, 0, 0, 0, 0, 0, // 0x04C00
    14, 0, 0, 0, 0, 0, 0, 0, 15, 16, 17, 18, 19, 20, 21, 22, // 0x05000
    23, 24, 0, 0, 0, 0, 0, 0, 25, 26, 27, 28, 29, 30, 31, 32, // 0x05400
    33, 0, 0, 0, 0, 0, 0, 0, 0, 0, 0, 0, 0, 36, 0, 0, // 0x05800
    0, 0, 0, 0, 0, 0, 0, 0, 0, 0, 0, 0, 0, 0, 0, 0, // 0x05C00
];

/// The register at the offset, a multiple of 4 octets; none where none lies there.
#[inline(always)]
pub(crate) fn word_at(offset: u32) -> Option<Reg>
    requires within { offset < SPACE }
    requires whole { offset % 4 ≡ 0 }
    ensures { result ≡ reg_at offset }
{
    let page = PAGE_AT[(offset / PAGE) as usize];
    PAGES[usize::from(page)][(offset / WORD % 16) as usize]
}

/// Whether the page of the offset is the one with no register.
pub(crate) fn is_bare(offset: u32) -> bool
    requires { offset < SPACE }
    ensures { IsTrue result → NoneFrom (64 * (offset / 64)) (64 * (offset / 64) + 64) }
{
    let page = PAGE_AT[(offset / PAGE) as usize];
    page == BARE
}
