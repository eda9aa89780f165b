//! The bits and fields of the registers, as the manual's tables have them (chapter on register descriptions),
//! for the 82540EM. What a bit does, docs/device.md says: most have no effect on the model.
ghost use Rattle.std.specs.Prelude.{◌≡◌, map};
ghost use Rattle.em_names.specs.Bits.{table_of, row_of_field};

use crate::field::{Field, Form};
use em_regs::Reg;

/// A bit, by its number.
macro_rules! bit {
    ($name:literal, $bit:literal) => {
        Field {
            name: $name,
            mask: 1 << $bit,
            lowest: 1 << $bit,
            form: Form::Bit,
        }
    };
}

/// A field, from its high bit down to its low one.
macro_rules! field {
    ($name:literal, $high:literal, $low:literal, $form:ident) => {
        Field {
            name: $name,
            mask: ((1 << ($high - $low + 1)) - 1) << $low,
            lowest: 1 << $low,
            form: Form::$form,
        }
    };
}

/// CTRL.
static CTRL: [Field; 17] = [
    bit!("FD", 0),
    bit!("ASDE", 5),
    bit!("SLU", 6),
    field!("SPEED", 9, 8, Speed),
    bit!("FRCSPD", 11),
    bit!("FRCDPLX", 12),
    bit!("SDP0_DATA", 18),
    bit!("SDP1_DATA", 19),
    bit!("ADVD3WUC", 20),
    bit!("EN_PHY_PWR_MGMT", 21),
    bit!("SDP0_IODIR", 22),
    bit!("SDP1_IODIR", 23),
    bit!("RST", 26),
    bit!("RFCE", 27),
    bit!("TFCE", 28),
    bit!("VME", 30),
    bit!("PHY_RST", 31),
];

/// STATUS.
static STATUS: [Field; 6] = [
    bit!("FD", 0),
    bit!("LU", 1),
    bit!("TXOFF", 4),
    field!("SPEED", 7, 6, Speed),
    field!("ASDV", 9, 8, Speed),
    bit!("PCI66", 11),
];

/// EERD.
static EERD: [Field; 4] = [
    bit!("START", 0),
    bit!("DONE", 4),
    field!("ADDR", 15, 8, Digits),
    field!("DATA", 31, 16, Digits),
];

/// EECD.
static EECD: [Field; 9] = [
    bit!("SK", 0),
    bit!("CS", 1),
    bit!("DI", 2),
    bit!("DO", 3),
    field!("FWE", 5, 4, Number),
    bit!("REQ", 6),
    bit!("GNT", 7),
    bit!("PRES", 8),
    bit!("SIZE", 9),
];

/// MDIC.
static MDIC: [Field; 7] = [
    field!("DATA", 15, 0, Digits),
    field!("REGADD", 20, 16, Number),
    field!("PHYADD", 25, 21, Number),
    field!("OP", 27, 26, Number),
    bit!("R", 28),
    bit!("I", 29),
    bit!("E", 30),
];

/// ICR, ICS, IMS and IMC.
static CAUSES: [Field; 14] = [
    bit!("TXDW", 0),
    bit!("TXQE", 1),
    bit!("LSC", 2),
    bit!("RXSEQ", 3),
    bit!("RXDMT0", 4),
    bit!("RXO", 6),
    bit!("RXT0", 7),
    bit!("MDAC", 9),
    bit!("RXCFG", 10),
    bit!("PHYINT", 12),
    bit!("GPI_SDP6", 13),
    bit!("GPI_SDP7", 14),
    bit!("TXD_LOW", 15),
    bit!("SRPD", 16),
];

/// RCTL.
static RCTL: [Field; 17] = [
    bit!("EN", 1),
    bit!("SBP", 2),
    bit!("UPE", 3),
    bit!("MPE", 4),
    bit!("LPE", 5),
    field!("LBM", 7, 6, Number),
    field!("RDMTS", 9, 8, Number),
    field!("MO", 13, 12, Number),
    bit!("BAM", 15),
    field!("BSIZE", 17, 16, Size),
    bit!("VFE", 18),
    bit!("CFIEN", 19),
    bit!("CFI", 20),
    bit!("DPF", 22),
    bit!("PMCF", 23),
    bit!("BSEX", 25),
    bit!("SECRC", 26),
];

/// TCTL.
static TCTL: [Field; 6] = [
    bit!("EN", 1),
    bit!("PSP", 3),
    field!("CT", 11, 4, Number),
    field!("COLD", 21, 12, Number),
    bit!("SWXOFF", 22),
    bit!("RTLC", 24),
];

/// TIPG.
static TIPG: [Field; 3] = [
    field!("IPGT", 9, 0, Number),
    field!("IPGR1", 19, 10, Number),
    field!("IPGR2", 29, 20, Number),
];

/// PBA.
static PBA: [Field; 2] = [field!("RXA", 15, 0, Number), field!("TXA", 31, 16, Number)];

/// RXDCTL.
static RXDCTL: [Field; 4] = [
    field!("PTHRESH", 5, 0, Number),
    field!("HTHRESH", 13, 8, Number),
    field!("WTHRESH", 21, 16, Number),
    bit!("GRAN", 24),
];

/// TXDCTL.
static TXDCTL: [Field; 5] = [
    field!("PTHRESH", 5, 0, Number),
    field!("HTHRESH", 13, 8, Number),
    field!("WTHRESH", 21, 16, Number),
    bit!("GRAN", 24),
    field!("LWTHRESH", 31, 25, Number),
];

/// TXCW.
static TXCW: [Field; 3] = [
    field!("TxConfigWord", 15, 0, Digits),
    bit!("TxConfig", 30),
    bit!("ANE", 31),
];

/// FCRTL.
static FCRTL: [Field; 2] = [field!("RTL", 15, 3, Number), bit!("XONE", 31)];

/// FCRTH.
static FCRTH: [Field; 1] = [field!("RTH", 15, 3, Number)];

/// WUC.
static WUC: [Field; 4] = [
    bit!("APME", 0),
    bit!("PME_En", 1),
    bit!("PME_Status", 2),
    bit!("APMPME", 3),
];

/// WUFC.
static WUFC: [Field; 12] = [
    bit!("LNKC", 0),
    bit!("MAG", 1),
    bit!("EX", 2),
    bit!("MC", 3),
    bit!("BC", 4),
    bit!("ARP", 5),
    bit!("IPv4", 6),
    bit!("IPv6", 7),
    bit!("FLX0", 16),
    bit!("FLX1", 17),
    bit!("FLX2", 18),
    bit!("FLX3", 19),
];

/// MANC.
static MANC: [Field; 20] = [
    bit!("SMBUS_EN", 0),
    bit!("ASF_EN", 1),
    bit!("R_ON_FORCE", 2),
    bit!("RMCP_EN", 8),
    bit!("0298_EN", 9),
    bit!("IPv4_EN", 10),
    bit!("IPv6_EN", 11),
    bit!("SNAP_EN", 12),
    bit!("ARP_EN", 13),
    bit!("NEIGHBOR_EN", 14),
    bit!("ARP_RES_EN", 15),
    bit!("TCO_RESET", 16),
    bit!("RCV_TCO_EN", 17),
    bit!("REPORT_STATUS", 18),
    bit!("SMB_REQ", 24),
    bit!("SMB_GNT", 25),
    bit!("SMB_CLK_IN", 26),
    bit!("SMB_DATA_IN", 27),
    bit!("SMB_DATA_OUT", 28),
    bit!("SMB_CLK_OUT", 29),
];

/// RAH.
static RAH: [Field; 3] = [
    field!("RAH", 15, 0, Digits),
    field!("AS", 17, 16, Number),
    bit!("AV", 31),
];

/// The bits and fields of a register, from the lowest on; none where it is shown as one number.
pub fn fields(reg: Reg) -> &'static [Field]
    ensures { map row_of_field result.now ≡ table_of reg }
{
    match reg {
        Reg::Ctrl => &CTRL,
        Reg::Status => &STATUS,
        Reg::Eecd => &EECD,
        Reg::Eerd => &EERD,
        Reg::Mdic => &MDIC,
        Reg::Icr | Reg::Ics | Reg::Ims | Reg::Imc => &CAUSES,
        Reg::Rctl => &RCTL,
        Reg::Tctl => &TCTL,
        Reg::Tipg => &TIPG,
        Reg::Pba => &PBA,
        Reg::Rxdctl => &RXDCTL,
        Reg::Txdctl => &TXDCTL,
        Reg::Txcw => &TXCW,
        Reg::Fcrtl => &FCRTL,
        Reg::Fcrth => &FCRTH,
        Reg::Wuc => &WUC,
        Reg::Wufc => &WUFC,
        Reg::Manc => &MANC,
        Reg::Rah(_) => &RAH,
        _ => &[],
    }
}
