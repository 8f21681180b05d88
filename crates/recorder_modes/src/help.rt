// What `recorder --help` prints.
pub const HELP: &str = "usage: recorder ORDER [--blocks N] [--pages N] [--grant N] [--map | --serve]

Plays a script of calls on a recorder module over a pile, and prints each reply and what is then found on the medium.
Without words it plays a scene of its own, to a power cut.

ORDER names the pile from the bottom: flat or card, then up to three of table and queue, joined by +, as
card+queue+table: a table cache over a queue cache over a flash card.
  --blocks N   blocks of the medium, 1 to 16777216 (10)
  --pages N    pages of a card, at least blocks + 1 (blocks + 2)
  --grant N    block stores until the power goes, 0 to 4294967295 (1000000)
  --map        after the run, a map of power cuts: the script runs again for every grant from 1 up to the number of
               block stores that the whole run makes; a row for each written block, a column for each grant: the number
               of the content that is found
  --serve      each line is answered as soon as it is read; a malformed line is answered by a line `error ...`

The script stands on standard input, a call a line; blank lines and lines that begin with # are skipped:
  reset
  command HOST CDB [out DATA] [in N]
HOST is a decimal number. CDB is hex digits, or - for none. DATA is hex digits, or BYTExCOUNT for a repeated byte, or
several of these joined by +. N is how many bytes data-in has (65536), each EEh before the command.

A reply is one line: NUMBER STATUS KEY ASC ASCQ COUNT [HEX]. The number is 0 for good, or that of the test that refused
the command; number and count are decimal, the others two hex digits. The returned bytes follow if there are any.
After the replies: `stores S held H power on|off`, and for each block that is not as it began
  block B HEX16 number K of L
the first 16 bytes on the medium, and the newest of the L contents written that equals what is found (0: none).

Example: block 3 is written twice under a table cache, and stored once.
  recorder flat+table <<END
  command 0 000000000000
  command 0 2a000000000300000100 out 11x512
  command 0 2a000000000300000100 out 22x512
  command 0 35000000000000000000
  END
prints
  6 02 06 29 00 0
  0 00 00 00 00 0
  0 00 00 00 00 0
  0 00 00 00 00 0
  stores 1 held 0 power on
  block 3 22222222222222222222222222222222 number 2 of 2";
