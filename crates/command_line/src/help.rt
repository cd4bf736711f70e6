//! What `--help` prints.

/// The options in groups, in lines of at most 80 columns.
pub(crate) static HELP: &str = "\
Decides for each pair of outputs of two gate netlists in the bench format, and
for the next states of each pair of registers, whether both compute the same
Boolean function.

Usage: bddcheck [OPTIONS] [FIRST SECOND]

  FIRST, SECOND        the files of the two netlists; one of them may be `-`,
                       which is standard input. Without files standard input has
                       both netlists, with a line `%%` between them.

What is compared:
  --match HOW          pair inputs, outputs and registers by `name`, which is
                       the default, or by `position`, their places in the files
  --pairs FILE         pair signals that have other names in the second netlist
                       as this file does, which has the first netlist's name and
                       the second's on each line; all others by their names
  --given FILE         compare only where the one output of this netlist is 1
  --only NAME          judge only the output and the register of this name of
                       the first netlist, by their cones, and of a register
                       given as `NEXT name` only that; each `*` in a name
                       matches any run of characters; may be given more than
                       once
  --share K/N          judge only the K-th of N shares of the pairs, by their
                       cones

What is printed:
  --sizes              print the number of nodes of each compared diagram
  --assignment WHICH   print `all` variables of an assignment, which is the
                       default, those on which one of the two functions depends
                       (`support`), or those that are 1 (`ones`); if the option
                       is given, JSON has the numbers of buses too
  --explain NAME       after the report, list the inner signals that differ
                       where this output of the first netlist differs, or the
                       next state of a register, given as `NEXT name`; may be
                       given more than once
  --vcd FILE           if a pair differs, write the values of all signals at the
                       first assignment of the report to this file, as a VCD of
                       one step
  --format FORM        write the report as lines of `text`, which is the
                       default, or as one `json` object
  --causes             in JSON, list the first inner signals that differ, each
                       with the pairs whose explanation begins with it
  --print-order        print the names of the variables in their order, as
                       --order-file reads them, and compare nothing
  --verbose            report on standard error how far the run is, which
                       attempts were given up, and which one decided

How it is decided:
  --order ORDER        order the variables in a given way, or find an order:
    auto               try msb-first, weights and force-groups on the whole
                       netlists, and if none fits go on as by merge; the report
                       is as by declared; the default
    cones              judge each pair by itself, by the gates below it, in
                       those three orders of its own variables; the report is as
                       by declared; the default with --only and --share
    merge              first merge inner signals that are equal in both
                       netlists, which decides pairs that are equal inside; the
                       other pairs as by cones
    best               try those three, and report in the first that fits
    msb-first          by falling number at the end of the name: the most
                       significant bits of all buses first, bit by bit
    weights            those first that have most weight in the outputs, as a
                       share of the gates above them
    force-groups       as by force, but variables that select among others are
                       in front, and variables that an XOR joins are together
    declared           as the netlists declare their inputs and registers; the
                       default with --limit, --sizes and --print-order
    depth              as a walk from the outputs to the inputs meets them
    interleave         each next to the one that such a walk met before it
    index              by the number at the end of the name
    force              close to the gates and variables that each is joined with
  --order-file F       order the variables as this file lists their names; not
                       with --order. With --only and --share it needs --extend,
                       and each pair is judged as by cones, first in this order
  --extend             with --order-file, ignore names that are no variables or
                       are repeated, and append the variables that the file
                       lacks, as declared
  --difference WHICH   by auto, cones and merge, find the `least` difference of
                       each pair, which is the default, or report `any`
                       difference that a pattern shows, without a diagram for
                       the pair
  --workers N          use N threads, 1 to 16, by default 4: by auto, by best
                       and in a named order they share each wide wave, a set of
                       operations that is done at once for gates of one rank; by
                       cones several pairs are judged at once and share them
  --limit N            give up if the diagrams have more than N nodes, 1 to
                       4294967295; by default 67108864, and for auto, cones
                       and merge what --memory holds
  --memory SIZE        let auto, cones and merge use no more nodes than so many
                       bytes hold, 16M or more, by default 4G; K, M and G are
                       powers of 1024
  --seconds N          stop after N seconds, 1 to 4294967295: begin no other
                       attempt, and give up the one that is made. What was
                       decided by then is reported, and the other pairs are
                       UNDECIDED; by best and in a named order there is no
                       report then

  -h, --help           print this help
  -V, --version        print the version

The report has a line EQUAL or DIFFER for each pair of outputs, and after DIFFER
the least assignment on which the two differ, or one `(may not be the least)`;
UNDECIDED if no attempt decided the pair and no pattern shows that it differs;
then one line on standard error says why, and what may help.
Lines of the next states of registers follow (NEXT), then lines ONLY
for outputs and registers without a partner, and last the counts.

Each fault has two lines on standard error: what was refused, and then where
that is, what helps, and the refused line of the file if that can be read.

Exit status:
  0  All outputs and next states are paired and equal.
  1  Some are different, or have no partner.
  2  The command line, a file, a netlist or the order was refused.
  3  Some pairs are undecided, and none is different or has no partner. Or
     memory ran out, the diagrams have more nodes than the limit, no order fits
     within it, a thread could not be started, the seconds were over, or the
     report could not be written. Or the report is whole, and the file of --vcd
     could not be written.
";
