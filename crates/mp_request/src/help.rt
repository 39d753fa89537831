//! The texts of `--help`: the program, and the commands that read a netlist.

/// The program.
pub(crate) const ABOUT: &str =
    "A workbench for micropipelines: simulates and checks netlists of event modules.";

/// The exit statuses.
pub(crate) const STATUS: &str = "\
Exit status:
  0  success
  1  the netlist, a number or a name was refused
  2  the command line was refused
  3  a read or a write failed, or a pipe of a live desk is missing
  4  out of memory, or no place left at a desk
  5  `check` found something wrong

`mpwb explain WORD` explains a code or a kind of module, with an example.";

/// What comes after the options of each command: the kinds of module, and the exit statuses.
pub(crate) const FORMS: &str = "\
Kinds of module, as KIND PARAM .. : IN .. > OUT ..
  BUF : a > y
  NOT : a > y
  XOR : a b > y
  C INIT BUBA BUBB : a b > y
  TOGGLE : a > dot blank
  SELECT : a diamond > true false
  CALL : r1 r2 d > r d1 d2
  ARBITER : r1 r2 d1 d2 > g1 g2
  REG INIT : d c p > q cd pd
  ADDC K : a > y
  XORC K : a > y
  SUM : a b > y
  BIT K : a > y
with `format 4` also
  AND : a b > y
  OR : a b > y
  SUB : a b > y
  LESS : a b > y
  MUX : a b s > y
  JOIN : a b > y

Exit status, and what standard error says:
  0                                        success
  1  mpwb: line N: CODE NAME               line N of the netlist has a fault
  1  mpwb: line N: 7 Refused: CODE NAME    the netlist refuses what line N adds
  1  mpwb: bad count                       a number is out of range, or a desk
                                           has no block of lines or more than 8
  1  mpwb: no such wire: NAME              the netlist has no wire of this name
  1  mpwb: no such module or bundle: NAME  the netlist has neither of this name
  2  error: ..                             the command line was refused
  3  mpwb: can't open NAME                 the pipe NAME of a seat is missing
  3  mpwb: can't read NAME: ..             the file is missing, is a directory,
                                           or may not be read
  3  mpwb: read failed                     the input can't be read
  3  mpwb: write failed                    the output can't be written
  4  mpwb: out of memory                   memory ran out
  4  mpwb: no place                        the desk has no place left
  5                                        `check` found something wrong";

/// What `waves` does.
pub(crate) const WAVES: &str = "Writes the waveform of each wire";

/// What `waves` reads and writes.
pub(crate) const WAVES_LONG: &str = "\
Writes the waveform of each wire.

Reads a netlist, with a statement on each line:

  horizon H
  wire NAME WIDTH LEVEL
  module NAME KIND PARAM .. : IN .. > OUT/DELAY ..
  stim WIRE T=V ..
  bundle NAME REQ ACK DATA SETUP

WIDTH is 1 to 64, DELAY 1 to 65535, and SETUP 0 to 65535. With IN/E in place of
IN the module sees that wire E units later. A first line `format 2` or
`format 4` allows larger netlists:

                   without        format 2       format 4
  horizon          65536          1048576        1073741824
  wires            8192           8192           2097152
  modules          4096           4096           1048576
  bundles          1024           1024           262144
  bytes of text    4194304        4194304        1073741824

Writes a line `NAME LEVEL T=V ..` for each wire, in the order in which the wires
were added: its level at time 0, and for each change before the horizon the time
and the new level.";

/// What `report` does.
pub(crate) const REPORT: &str = "Writes which rules of modules and bundles are broken, and when";

/// What `report` reads and writes.
pub(crate) const REPORT_LONG: &str = "\
Writes which rules of modules and bundles are broken, and when.

Reads a netlist, as `waves` does.

Writes a line `TIME module NAME CODE` or `TIME bundle NAME CODE` for each
finding: something that a well-behaved circuit avoids, such as two events that
meet at a XOR, or data that change too close to a request. `mpwb explain CODE`
says what a code means.

The lines are ordered by time. At one time the modules come first and then the
bundles, each in the order in which they were added. The findings of one module
or bundle at one time are ordered by the number of their code.

--from and --to leave only the findings in a range of times, and --at those of
the modules and bundles of a name.";

/// What `check` does.
pub(crate) const CHECK: &str = "Checks whether a netlist works: broken rules, late data, deadlocks";

/// What `check` reads and writes.
pub(crate) const CHECK_LONG: &str = "\
Checks whether a netlist works: broken rules, late data, deadlocks.

Reads a netlist, as `waves` does.

Writes, in this order:

  the lines of `report`
  TIME bundle NAME late UNITS               data that come UNITS after a request
  TIME deadlock MODULE waits for WIRE, ..   modules that wait for ever
  note wire NAME ..                         a wire that may not be as intended
  note bundle NAME is busy since TIME       a transfer that nobody ended

Data are late if they change after a request, but neither because of that
request nor because of a stimulus after it. There is a note on each wire that is
declared with another level than its module settles to at time 0, that nothing
drives, or whose stimulus nothing reads. The exit status is 5 if any line is not
a note.

--brief writes one line for all findings of a module or bundle that have one
code, and one for all late data of a bundle, ordered by their first time:

  module NAME CODE N times, first TIME, last TIME
  bundle NAME late N times, first TIME, last TIME, worst UNITS

--from and --to leave only the findings and late data in a range of times;
deadlocks and notes are about the whole run. --at leaves only lines about the
modules and bundles of a name, and deadlocks with such a module.

If FILE can't be read as a netlist, standard error also shows the faulty line
with a mark below the word at fault, says what is wrong with it, and suggests a
similar name if there is one.";

/// What `show` does.
pub(crate) const SHOW: &str = "Draws a timing diagram, as text, as SVG or as WaveJSON";

/// What `show` reads and writes.
pub(crate) const SHOW_LONG: &str = "\
Draws a timing diagram, as text, as SVG or as WaveJSON.

Reads a netlist, as `waves` does.

Writes a line of times, and then a line for each wire, with a character for each
column. All columns have the same number of units: 1, 2 or 5 times a power of
ten, the least one with which the range fits into the columns. Each column
begins at a multiple of that number.

A wire of width 1 is drawn high or low. If a column has more than one unit, a
change in it is drawn as a rise or a fall, and several changes as a block. A
wider wire has a cross where it changes, and then its new level if there is room
for it.

Below the wires there is a line for each module and each bundle with a finding
in the range, with `!` at its time, and then the lines of `report` for these
findings.

--json writes the wires alone, as WaveJSON, which WaveDrom draws. A column with
several changes of a wire of width 1 is an `x` there, and a wider wire has the
level at the end of each column with a change.";

/// What `why` does.
pub(crate) const WHY: &str = "Writes why a wire has its level at a time, as a chain of causes";

/// What `why` reads and writes.
pub(crate) const WHY_LONG: &str = "\
Writes why a wire has its level at a time, as a chain of causes.

Reads a netlist, as `waves` does.

Writes a line for each step, the latest first. A line
`WIRE T=V < MODULE KIND/DELAY < WIRE T=V ..` has a change of a wire, the module
that made it, and the changes of inputs that the module answered. The next line
is about the first of these. The chain ends at `stim` if a stimulus set the
wire, and at `start` if the module settled to this level at time 0. If the wire
hasn't changed up to the time, there is one line, `WIRE 0=V declared`.";

/// What `path` does.
pub(crate) const PATH: &str = "Writes how much time each module took in such a chain";

/// What `path` reads and writes.
pub(crate) const PATH_LONG: &str = "\
Writes how much time each module took in the chain of causes that `why` writes.

Reads a netlist, as `waves` does.

Writes a line `MODULE UNITS STEPS` for each module of the whole chain: how many
units of time passed in it, and in how many steps. The modules with the most
units come first: they set the pace.

With --from T only the time after T counts. A last line `- T UNITS` then has the
time from the begin of the chain to T, if it begins before T.";

/// What `waits` does.
pub(crate) const WAITS: &str =
    "Writes which modules and bundles wait, for which wire and since when";

/// What `waits` reads and writes.
pub(crate) const WAITS_LONG: &str = "\
Writes which modules and bundles wait, for which wire and since when.

Reads a netlist, as `waves` does.

Writes a line for each module that waits at TIME, and then for each bundle. A C
waits for the event at its other input, a CALL for the procedure that it has
called, an ARBITER for the client that has its grant, and a bundle for its
acknowledge. If an ARBITER keeps the other client waiting, a further line says
so. A REG that holds its data has a line too.";

/// What `measure` does.
pub(crate) const MEASURE: &str =
    "Measures the changes of wires, their gaps, and the margins of bundles";

/// What `measure` reads and writes.
pub(crate) const MEASURE_LONG: &str = "\
Measures the changes of wires, their gaps, and the margins of bundles.

Reads a netlist, as `waves` does.

Writes a line `wire NAME EVENTS FIRST LAST LEAST MOST` for each wire: the number
of its changes in the range, the times of the first and the last one, and the
least and the greatest gap between two successive changes.

Then writes a line `bundle NAME REQUESTS setup S response LEAST MOST late L` for
each bundle: the number of its requests in the range, the least time from its
last change of data to a request, the least and the greatest time from a request
to its acknowledge, and the most units by which a change of its data is late, as
in `check`.

A line leaves out what doesn't exist, such as the gaps of a wire that changes
once. With --wire there are only the lines of these wires.";

/// What `steady` does.
pub(crate) const STEADY: &str = "Writes whether the netlist repeats for ever, and how fast";

/// What `steady` reads and writes.
pub(crate) const STEADY_LONG: &str = "\
Writes whether the netlist repeats for ever, and how fast.

Reads a netlist, as `waves` does.

If all stimuli have ended and the netlist comes to one configuration twice, it
repeats for ever. Then this writes the period and since when it repeats, for
each wire how often it changes in a period, the critical cycle (the causes that
lead from a change to the same change of an earlier period), and the modules of
that cycle with their units and steps, as `path` has them. The pace of a wire is
its changes in a period over the period, exactly.

If the data never repeat, as those of a counter, but the wires of width 1 do,
with what they depend on, the lines are about these and begin with `control`.
Other netlists come to an end, or are told not to repeat before the horizon.";
