//! The registers of an 82540EM that the model lacks, by the manual's names.

/// Registers of one name: where the first and the last of them lie.
struct Missing {
    first: u32,
    last: u32,
    name: &'static str,
}

/// The registers, from the lowest offset on (manual, chapter on register descriptions).
#[rattlefmt::skip]
static MISSING: [Missing; 65] = [
    Missing { first: 0x00010, last: 0x00010, name: "EECD" },
    Missing { first: 0x00020, last: 0x00020, name: "MDIC" },
    Missing { first: 0x00178, last: 0x00178, name: "TXCW" },
    Missing { first: 0x00180, last: 0x00180, name: "RXCW" },
    Missing { first: 0x00458, last: 0x00458, name: "AIT" },
    Missing { first: 0x02160, last: 0x02160, name: "FCRTL" },
    Missing { first: 0x02168, last: 0x02168, name: "FCRTH" },
    Missing { first: 0x02410, last: 0x02410, name: "RDFH" },
    Missing { first: 0x02418, last: 0x02418, name: "RDFT" },
    Missing { first: 0x02420, last: 0x02420, name: "RDFHS" },
    Missing { first: 0x02428, last: 0x02428, name: "RDFTS" },
    Missing { first: 0x02430, last: 0x02430, name: "RDFPC" },
    Missing { first: 0x02C00, last: 0x02C00, name: "RSRPD" },
    Missing { first: 0x03000, last: 0x03000, name: "TXDMAC" },
    Missing { first: 0x03410, last: 0x03410, name: "TDFH" },
    Missing { first: 0x03418, last: 0x03418, name: "TDFT" },
    Missing { first: 0x03420, last: 0x03420, name: "TDFHS" },
    Missing { first: 0x03428, last: 0x03428, name: "TDFTS" },
    Missing { first: 0x03430, last: 0x03430, name: "TDFPC" },
    Missing { first: 0x03830, last: 0x03830, name: "TSPMT" },
    Missing { first: 0x04000, last: 0x04000, name: "CRCERRS" },
    Missing { first: 0x04004, last: 0x04004, name: "ALGNERRC" },
    Missing { first: 0x04008, last: 0x04008, name: "SYMERRS" },
    Missing { first: 0x0400C, last: 0x0400C, name: "RXERRC" },
    Missing { first: 0x04014, last: 0x04014, name: "SCC" },
    Missing { first: 0x04018, last: 0x04018, name: "ECOL" },
    Missing { first: 0x0401C, last: 0x0401C, name: "MCC" },
    Missing { first: 0x04020, last: 0x04020, name: "LATECOL" },
    Missing { first: 0x04028, last: 0x04028, name: "COLC" },
    Missing { first: 0x04030, last: 0x04030, name: "DC" },
    Missing { first: 0x04034, last: 0x04034, name: "TNCRS" },
    Missing { first: 0x04038, last: 0x04038, name: "SEC" },
    Missing { first: 0x0403C, last: 0x0403C, name: "CEXTERR" },
    Missing { first: 0x04040, last: 0x04040, name: "RLEC" },
    Missing { first: 0x04048, last: 0x04048, name: "XONRXC" },
    Missing { first: 0x0404C, last: 0x0404C, name: "XONTXC" },
    Missing { first: 0x04050, last: 0x04050, name: "XOFFRXC" },
    Missing { first: 0x04054, last: 0x04054, name: "XOFFTXC" },
    Missing { first: 0x04058, last: 0x04058, name: "FCRUC" },
    Missing { first: 0x040A8, last: 0x040A8, name: "RFC" },
    Missing { first: 0x040B0, last: 0x040B0, name: "RJC" },
    Missing { first: 0x040B4, last: 0x040B4, name: "MGTPRC" },
    Missing { first: 0x040B8, last: 0x040B8, name: "MGTPDC" },
    Missing { first: 0x040BC, last: 0x040BC, name: "MGTPTC" },
    Missing { first: 0x040C0, last: 0x040C0, name: "TORL" },
    Missing { first: 0x040C4, last: 0x040C4, name: "TORH" },
    Missing { first: 0x040C8, last: 0x040C8, name: "TOTL" },
    Missing { first: 0x040CC, last: 0x040CC, name: "TOTH" },
    Missing { first: 0x040D0, last: 0x040D0, name: "TPR" },
    Missing { first: 0x040D4, last: 0x040D4, name: "TPT" },
    Missing { first: 0x040F8, last: 0x040F8, name: "TSCTC" },
    Missing { first: 0x040FC, last: 0x040FC, name: "TSCTFC" },
    Missing { first: 0x05800, last: 0x05800, name: "WUC" },
    Missing { first: 0x05808, last: 0x05808, name: "WUFC" },
    Missing { first: 0x05810, last: 0x05810, name: "WUS" },
    Missing { first: 0x05820, last: 0x05820, name: "MANC" },
    Missing { first: 0x05838, last: 0x05838, name: "IPAV" },
    Missing { first: 0x05840, last: 0x0585C, name: "IP4AT" },
    Missing { first: 0x05880, last: 0x0588C, name: "IP6AT" },
    Missing { first: 0x05900, last: 0x05900, name: "WUPL" },
    Missing { first: 0x05A00, last: 0x05A7C, name: "WUPM" },
    Missing { first: 0x05F00, last: 0x05F18, name: "FFLT" },
    Missing { first: 0x09000, last: 0x093F8, name: "FFMT" },
    Missing { first: 0x09800, last: 0x09BF8, name: "FFVT" },
    Missing { first: 0x10000, last: 0x1FFFC, name: "PBM" },
];

/// The name of the register at an offset, if the manual has one there; those of an array have one name.
pub fn missing_name(offset: u32) -> Option<&'static str> {
    let found = MISSING
        .iter()
        .find(|row| row.first <= offset && offset <= row.last)?;
    Some(found.name)
}
