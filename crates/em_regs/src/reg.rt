//! The registers by name.
ghost use Rattle.std.specs.Prelude.{◌≡◌, ◌≤◌, ◌<◌, ◌%◌, ℕ, Option, None, IfSome, IfNone, IsSome};
ghost use Rattle.em_regs.specs.Table.{IsReg, IsRegOf, reg_of, index_of, offset_of, reg_at, NoneFrom};

use crate::profile::Profile;
use crate::table::{PAGE, SPACE, WORD, is_bare, word_at};

/// A register of the table, by the manual's name (manual, chapter on register descriptions).
///
/// The registers of an array carry their index: `Mta` and `Vfta` one below 128, `Ral` and `Rah`
/// one below 16. A greater index names no register.
#[derive(Clone, Copy, PartialEq, Eq, Debug)]
pub enum Reg {
    /// CTRL: device control; a write with RST resets the adapter.
    Ctrl,
    /// STATUS: device status; read only.
    Status,
    /// EERD: EEPROM read; a write with START reads a word.
    Eerd,
    /// CTRL_EXT: extended device control; read and write.
    CtrlExt,
    /// FCAL: flow control address low; read and write.
    Fcal,
    /// FCAH: flow control address high; read and write.
    Fcah,
    /// FCT: flow control type; read and write.
    Fct,
    /// VET: VLAN Ethernet type; read and write.
    Vet,
    /// ICR: interrupt cause read; cleared by a read, and a write clears the bits that are 1.
    Icr,
    /// ITR: interrupt throttling; read and write.
    Itr,
    /// ICS: interrupt cause set; write only.
    Ics,
    /// IMS: interrupt mask set and read; a write sets the bits that are 1.
    Ims,
    /// IMC: interrupt mask clear; write only.
    Imc,
    /// RCTL: receive control; read and write.
    Rctl,
    /// FCTTV: flow control transmit timer value; read and write.
    Fcttv,
    /// TCTL: transmit control; read and write.
    Tctl,
    /// TIPG: transmit inter-packet gap; read and write.
    Tipg,
    /// LEDCTL: LED control; read and write.
    Ledctl,
    /// PBA: packet buffer allocation; read and write.
    Pba,
    /// RDBAL: receive descriptor base address low; read and write.
    Rdbal,
    /// RDBAH: receive descriptor base address high; read and write.
    Rdbah,
    /// RDLEN: receive descriptor length; read and write.
    Rdlen,
    /// RDH: receive descriptor head; read and write.
    Rdh,
    /// RDT: receive descriptor tail; read and write.
    Rdt,
    /// RDTR: receive delay timer; read and write.
    Rdtr,
    /// RXDCTL: receive descriptor control; read and write.
    Rxdctl,
    /// RADV: receive interrupt absolute delay timer; read and write.
    Radv,
    /// TDBAL: transmit descriptor base address low; read and write.
    Tdbal,
    /// TDBAH: transmit descriptor base address high; read and write.
    Tdbah,
    /// TDLEN: transmit descriptor length; read and write.
    Tdlen,
    /// TDH: transmit descriptor head; read and write.
    Tdh,
    /// TDT: transmit descriptor tail; read and write.
    Tdt,
    /// TIDV: transmit interrupt delay value; read and write.
    Tidv,
    /// TXDCTL: transmit descriptor control; read and write.
    Txdctl,
    /// TADV: transmit absolute interrupt delay value; read and write.
    Tadv,
    /// MPC: missed packets count; cleared by a read.
    Mpc,
    /// PRC64: packets received of 64 octets count; cleared by a read.
    Prc64,
    /// PRC127: packets received of 65 to 127 octets count; cleared by a read.
    Prc127,
    /// PRC255: packets received of 128 to 255 octets count; cleared by a read.
    Prc255,
    /// PRC511: packets received of 256 to 511 octets count; cleared by a read.
    Prc511,
    /// PRC1023: packets received of 512 to 1023 octets count; cleared by a read.
    Prc1023,
    /// PRC1522: packets received of 1024 octets to the greatest size count; cleared by a read.
    Prc1522,
    /// GPRC: good packets received count; cleared by a read.
    Gprc,
    /// BPRC: broadcast packets received count; cleared by a read.
    Bprc,
    /// MPRC: multicast packets received count; cleared by a read.
    Mprc,
    /// GPTC: good packets transmitted count; cleared by a read.
    Gptc,
    /// GORCL: good octets received count, low half; a read leaves it.
    Gorcl,
    /// GORCH: good octets received count, high half; a read clears both halves.
    Gorch,
    /// GOTCL: good octets transmitted count, low half; a read leaves it.
    Gotcl,
    /// GOTCH: good octets transmitted count, high half; a read clears both halves.
    Gotch,
    /// RNBC: receive no buffers count; cleared by a read.
    Rnbc,
    /// RUC: receive undersize count; cleared by a read.
    Ruc,
    /// ROC: receive oversize count; cleared by a read.
    Roc,
    /// PTC64: packets transmitted of 64 octets count; cleared by a read.
    Ptc64,
    /// PTC127: packets transmitted of 65 to 127 octets count; cleared by a read.
    Ptc127,
    /// PTC255: packets transmitted of 128 to 255 octets count; cleared by a read.
    Ptc255,
    /// PTC511: packets transmitted of 256 to 511 octets count; cleared by a read.
    Ptc511,
    /// PTC1023: packets transmitted of 512 to 1023 octets count; cleared by a read.
    Ptc1023,
    /// PTC1522: packets transmitted of 1024 octets or more count; cleared by a read.
    Ptc1522,
    /// MPTC: multicast packets transmitted count; cleared by a read.
    Mptc,
    /// BPTC: broadcast packets transmitted count; cleared by a read.
    Bptc,
    /// RXCSUM: receive checksum control; read and write.
    Rxcsum,
    /// MTA: multicast table array, 128 words; read and write.
    Mta(u8),
    /// RAL: receive address low, 16 words; read and write.
    Ral(u8),
    /// RAH: receive address high, 16 words; read and write.
    Rah(u8),
    /// VFTA: VLAN filter table array, 128 words; read and write.
    Vfta(u8),
    /// EECD: EEPROM/flash control and data; read and write.
    Eecd,
    /// MDIC: MDI control; read and write.
    Mdic,
    /// TXCW: transmit configuration word; read and write.
    Txcw,
    /// AIT: adaptive interframe spacing throttle; read and write.
    Ait,
    /// FCRTL: flow control receive threshold low; read and write.
    Fcrtl,
    /// FCRTH: flow control receive threshold high; read and write.
    Fcrth,
    /// WUC: wakeup control; read and write.
    Wuc,
    /// WUFC: wakeup filter control; read and write.
    Wufc,
    /// MANC: management control; read and write.
    Manc,
    /// SWSM: software semaphore, of later parts, which U-Boot asks for on this one too; read and write.
    Swsm,
    /// TORL: total octets received, low half; a read leaves it.
    Torl,
    /// TORH: total octets received, high half; a read clears both halves.
    Torh,
    /// TOTL: total octets transmitted, low half; a read leaves it.
    Totl,
    /// TOTH: total octets transmitted, high half; a read clears both halves.
    Toth,
    /// TPR: total packets received; cleared by a read.
    Tpr,
    /// TPT: total packets transmitted; cleared by a read.
    Tpt,
    /// CRCERRS: CRC error count, of what never happens here; read only.
    Crcerrs,
    /// ALGNERRC: alignment error count, of what never happens here; read only.
    Algnerrc,
    /// SYMERRS: symbol error count, of what never happens here; read only.
    Symerrs,
    /// RXERRC: receive error count, of what never happens here; read only.
    Rxerrc,
    /// SCC: single collision count, of what never happens here; read only.
    Scc,
    /// ECOL: excessive collisions count, of what never happens here; read only.
    Ecol,
    /// MCC: multiple collision count, of what never happens here; read only.
    Mcc,
    /// LATECOL: late collisions count, of what never happens here; read only.
    Latecol,
    /// COLC: collision count, of what never happens here; read only.
    Colc,
    /// DC: defer count, of what never happens here; read only.
    Dc,
    /// TNCRS: transmit with no CRS count, of what never happens here; read only.
    Tncrs,
    /// SEC: sequence error count, of what never happens here; read only.
    Sec,
    /// CEXTERR: carrier extension error count, of what never happens here; read only.
    Cexterr,
    /// RLEC: receive length error count, of what never happens here; read only.
    Rlec,
    /// XONRXC: XON received count, of what never happens here; read only.
    Xonrxc,
    /// XONTXC: XON transmitted count, of what never happens here; read only.
    Xontxc,
    /// XOFFRXC: XOFF received count, of what never happens here; read only.
    Xoffrxc,
    /// XOFFTXC: XOFF transmitted count, of what never happens here; read only.
    Xofftxc,
    /// FCRUC: FC received unsupported count, of what never happens here; read only.
    Fcruc,
    /// RFC: receive fragment count, of what never happens here; read only.
    Rfc,
    /// RJC: receive jabber count, of what never happens here; read only.
    Rjc,
    /// MGTPRC: management packets received count, of what never happens here; read only.
    Mgtprc,
    /// MGTPDC: management packets dropped count, of what never happens here; read only.
    Mgtpdc,
    /// MGTPTC: management packets transmitted count, of what never happens here; read only.
    Mgtptc,
    /// TSCTC: TCP segmentation context transmitted count, of what never happens here; read only.
    Tsctc,
    /// TSCTFC: TCP segmentation context transmit fail count, of what never happens here; read only.
    Tsctfc,
}

impl Reg {
    /// The register of the first profile at an offset, in octets from the first register; none where it has none there.
    #[inline(always)]
    pub fn of_offset(offset: u32) -> Option<Reg>
        ensures table { result ≡ reg_of Profile.Table offset }
        // Exactly the offsets of the profile's rows have a register, and it lies there.
        ensures some { IfSome result (λ reg. IsRegOf Profile.Table reg × (offset_of reg ≡ offset)) }
        ensures none { IfNone result ((reg : Reg) → IsRegOf Profile.Table reg → offset_of reg ≡ offset → ⊥) }
    {
        Reg::of_offset_in(Profile::Table, offset)
    }

    /// The register of a profile at an offset; none where it has none there.
    #[inline(always)]
    pub fn of_offset_in(profile: Profile, offset: u32) -> Option<Reg>
        ensures table { result ≡ reg_of profile offset }
        // Exactly the offsets of the profile's rows have a register, and it lies there.
        ensures some { IfSome result (λ reg. IsRegOf profile reg × (offset_of reg ≡ offset)) }
        ensures none { IfNone result ((reg : Reg) → IsRegOf profile reg → offset_of reg ≡ offset → ⊥) }
    {
        let reg = Reg::of_row(offset)?;
        if reg.row().since.is_in(profile) {
            Some(reg)
        } else {
            None
        }
    }

    /// The register of any row at an offset; none where no row has one there.
    #[inline(always)]
    fn of_row(offset: u32) -> Option<Reg>
        ensures table { result ≡ reg_at offset }
        ensures some { IfSome result (λ reg. IsReg reg × (offset_of reg ≡ offset)) }
        ensures none { IfNone result ((reg : Reg) → IsReg reg → offset_of reg ≡ offset → ⊥) }
    {
        if offset >= SPACE || offset % WORD != 0 {
            return None;
        }
        word_at(offset)
    }

    /// The first offset at or behind an offset (a multiple of 4) in whose 64 octets a register lies;
    /// none where the table ends before. No register lies between the two.
    pub fn next_page_with_registers(offset: u32) -> Option<u32>
        requires { offset % 4 ≡ 0 }
        ensures found { IfSome result (λ next. (offset ≤ next) × (next < 0x06000) × (next % 4 ≡ 0)) }
        ensures first { IfSome result (NoneFrom offset) }
        ensures last { IfNone result ((o : ℕ) → offset ≤ o → reg_at o ≡ None) }
    {
        let mut next = offset;
        while next < SPACE {
            if !is_bare(next) {
                return Some(next);
            }
            next = PAGE * (next / PAGE + 1);
        }
        None
    }

    /// Where the register lies, in octets from the first register.
    #[inline(always)]
    pub fn offset(self) -> u32
        ensures { result ≡ offset_of self }
    {
        let row = self.row();
        row.offset + row.spacing * u32::from(self.index())
    }

    /// Which of its row's words the register is: 0 where the row has one.
    pub fn index(self) -> u8
        ensures { result ≡ index_of self }
    {
        match self {
            Reg::Mta(i) | Reg::Ral(i) | Reg::Rah(i) | Reg::Vfta(i) => i,
            _ => 0,
        }
    }
}
