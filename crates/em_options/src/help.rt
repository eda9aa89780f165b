//! What `--help` and `--version` say beside the options.

/// The version that `--version` prints.
pub const VERSION: &str = "0.1.0";

/// What the program is.
pub const ABOUT: &str =
    "Runs a script on a software model of Intel's 82540EM network adapter that can be stepped backwards.";

/// The lines of the language in brief, an example, and the statuses.
pub const LANGUAGE: &str = "\
A line of a script, and what it does:
  r OFF          reads the register at the offset
  w OFF VAL      writes a register
  poke ADDR DATA, peek ADDR LEN
                 writes guest memory, and looks at it
  arrive DATA, arrive DATA LEN
                 brings a frame, with zero octets up to LEN
  rx, tx         let the receive and the transmit engine handle a descriptor
  link up, link down
                 plugs the cable in, and pulls it out
  line, regs, wire
                 look at the interrupt line, the registers and the sent frames
  back, back N   take the newest event back, and the newest N
  init           starts a driver
  send DATA, send DATA LEN
                 gives the driver a packet to send
  recv N         takes at most N packets from it
  stats, mac, mac DATA
                 read its counters and its address, and set the address
  turns WORD ..  what falls between the accesses of its next call: rx, tx, arrive:DATA, arrive:DATA:LEN,
                 and a dot that ends what falls before one access
Registers, addresses and octets are hexadecimal, LEN and N decimal; a line that begins with # is a comment.

For example, `printf 'w D0 4\\nlink up\\nline\\nback\\nline\\n' | em_bench` prints ok, ok, 1, ok, 0.

The status is 0, or 1 where a line was bad, 2 where the command line was, 3 where the run stopped.";
