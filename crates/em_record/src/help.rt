//! What `--help` and `--version` say.

/// The command line, and where to read on.
pub const HELP: &str = "\
Plays a script on a software model of Intel's 82540EM network adapter, and writes the record of the run as JSON
Lines: the answer to each line, and what each event changed, before and after.

Usage: em_record [OPTIONS] [SCRIPT]

Arguments:
  [SCRIPT]  A script of em_bench's language, with all that em_debug takes; standard input without one, or for -

Options:
      --memory <N>   Octets of guest memory, a multiple of 4096; K, M or G may stand behind N [default: 65536]
      --base <HEX>   The address of the first of them, a multiple of 4096 [default: 0]
      --profile <P>  The adapter's registers: table, or adapter, which has what operating systems need [default: table]
      --budget <N>   Octets that the journal's records may cost together: from 65536 to 16777216 [default: 1048576]
      --mac <HEX12>  The adapter's Ethernet address, octet 0 first; colons may stand in it [default: 525400123456]
  -h, --help         Print help
  -V, --version      Print version

Bad lines of the script are told on standard error.

The status is 0, or 1 where a line was bad or the run has too many events to be recorded, 2 where the command line was
bad, 3 where the run stopped.
";

/// The name and the version.
pub const VERSION: &str = "em_record 0.1.0\n";
