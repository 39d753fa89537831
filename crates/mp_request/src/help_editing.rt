//! The texts of `--help`: the commands that edit a netlist, and `explain`.

/// What `play` does.
pub(crate) const PLAY: &str = "Edits a netlist and answers questions about it, line by line";

/// What `play` reads and writes.
pub(crate) const PLAY_LONG: &str = "\
Edits a netlist and answers questions about it, line by line.

Reads a netlist from FILE, as `waves` does, and a script from standard input.
Each line of the script is answered before the next one is read, and has at most
65536 bytes. Without FILE, standard input has the netlist, a line `---`, and
then the script, and the limit on a netlist's text applies to all of it. A line
of the script is an edit:

  wire .., module .., stim .., bundle ..    as in a netlist
  remove wire NAME
  remove module NAME
  remove bundle NAME
  input MODULE PORT WIRE                    another wire for an input
  output MODULE PORT WIRE                   another wire for an output, or `-`
  indelay MODULE PORT E                     the delay of an input
  delay MODULE PORT D                       the delay of an output
  clear WIRE                                remove its stimulus
  batch EDIT ; EDIT ..                      1 to 256 edits as one

or a question:

  wave WIRE, waves, text, dump, work
  report [FROM TO]                          findings, in a range of times
  check [brief] [FROM TO]                   in groups if it is brief
  show FROM TO [WIRE ..]                    the timing diagram of these wires,
    [--columns N] [--hex] [--ascii]         with options of `mpwb show`
  why WIRE TIME [STEPS]                     1 to 1048576 steps, by default 20
  path WIRE TIME [FROM]                     only its part after FROM
  waits TIME
  measure FROM TO [WIRE ..]                 of these wires alone
  steady
  graph
  verilog
  version                                   how many edits were accepted
  edits FROM                                accepted edits from this number on

Ports are counted from 0, inputs and outputs separately. The first edit has the
number 1.

An edit is answered by `accepted N`, where N counts the accepted edits, or by
`refused CODE NAME`; a refused edit changes nothing. `wave WIRE` is answered by
the line of that wire, `text` by the netlist as it is now, `work` by what was
computed again for the last edit, `version` by `version N`, and `edits` by a
line `N EDIT` for each edit. Any other question is answered as the command of
the same name answers it. A line that can't be read is answered by
`unread CODE NAME`.";

/// What `desk` does.
pub(crate) const DESK: &str =
    "Lets designers edit one netlist at the same time, while viewers read";

/// What `desk` reads and writes.
pub(crate) const DESK_LONG: &str = "\
Lets designers edit one netlist at the same time, while viewers read.

With --at FOLDER it reads a netlist from FILE and serves people at named pipes
in FOLDER, two for each seat. The first designer writes lines into
`designer-1.in` and reads the answers from `designer-1.out`. Each further
designer has such a pair of pipes, and so has each viewer, from `viewer-1.in`
and `viewer-1.out` on. A line is answered as in `play`, before the next line of
that seat is read. A viewer's edit is answered by `refused 22 NotADesigner`, and
`work` at any seat by `refused 23 NoWork`. Whoever closes `.in` leaves the seat,
and anybody can take it again. The lines of standard input are answered like
those of a viewer, and `seats` lists the seats that are taken and free. The desk
ends when standard input has ended and everybody has left.

An edit is written to the file `edits` in FOLDER before it is accepted; one that
can't be written is answered by `refused 24 NotKept`. With --sync it is on the
disk before it is accepted.

Without --at it reads a netlist, as `waves` does, and after it a block of lines
for each of 1 to 8 designers. A line `---` comes before each block, and the
limit on a netlist's text applies to all of it. The lines are edits, as in
`play`. Each designer submits its lines in turn, and each viewer reads 100 times
meanwhile, each on a thread of its own. The edits of different designers may
come in any order.

At the end it writes `designer J accepted A refused B` for each designer, then
`viewer J saw N` for each viewer, and then the waveform of each wire. B includes
lines that can't be read, and in a block also questions. N is the number of
edits in the last version that the viewer read. Without --at the viewer reads
once more when all designers are done.";

/// What `explain` does.
pub(crate) const EXPLAIN: &str = "Explains a code or a kind of module, with an example";

/// What `explain` reads and writes.
pub(crate) const EXPLAIN_LONG: &str = "\
Explains a code or a kind of module, with an example.

Reads no netlist. WORD is the number or the name of a code, such as 13 or
AlreadyDriven, a word of `check`, such as late, or a kind of module, such as C.
Upper and lower case are the same. Without WORD it lists everything that it can
explain, a line each: what it belongs to, the number of a code, and the name.

There are codes for faults of a netlist or of a line of a script, for edits that
are refused, and for findings. Of a code it writes when it occurs, an example
with the program's answer, and what to do about it. If several codes have the
same number, it writes all of them. Of a kind it writes its parameters, its
ports, what it does, what may be found at it, and an example.";
