//! What `--help` and `--version` say.

/// The command line, and where to read on.
pub const HELP: &str = "\
Plays a script on a software model of Intel's 82540EM network adapter, and then answers what is typed, line by line:
the lines of em_bench's language, who changed something, back and forward.

Usage: em_debug [OPTIONS] [SCRIPT]

Arguments:
  [SCRIPT]  A script of em_bench's language, which is played to its end first; with --batch, --compare, --reduce or -x
            it may be -, which is standard input

Options:
      --step         Load the script, and perform none of its lines
      --batch        Print each line of the script with its number and its answer beside it, and end
      --compare      Show the first line whose answer is another than it expects, for no known cause, and end
      --all          With --compare: show the first of each register, count them all, and end
      --all-known    With --compare: show those that differ for a known cause, too
      --reduce <W>   Leave out lines as long as W still comes, print those that are left, and end: warning RULE, differs,
                     or a text that stands in an answer
      --strict       End with status 1 where a line has a warning, too
      --json         Answer each line by an object of JSON on one line, for programs
      --pcap <FILE>  Write the frames that were sent to this file at the end, as a capture
  -x <COMMANDS>      Take what is typed from this file
      --memory <N>   Octets of guest memory, a multiple of 4096; K, M or G may stand behind N [default: 65536]
      --base <HEX>   The address of the first of them, a multiple of 4096 [default: 0]
      --profile <P>  The adapter's registers: table, or adapter, which has what operating systems need [default: table]
      --budget <N>   Octets that the journal's records may cost together: from 65536 to 16777216 [default: 1048576]
      --mac <HEX12>  The adapter's Ethernet address, octet 0 first; colons may stand in it [default: 525400123456]
  -h, --help         Print help
  -V, --version      Print version

`help` shows what one may type. Ctrl-D ends.

Bad lines of the script, and of COMMANDS, are told on standard error. --batch and --compare end with a count: how many
answers agreed and differed, how many lines were bad, how many warnings there are.

The status is 0, or 1 where an answer was another than its line expects or a line was bad, or, with --strict, where a line
up to the place has a warning; 2 where the command line was bad, 3 where the run stopped.
";

/// The name and the version.
pub const VERSION: &str = "em_debug 0.1.0\n";
