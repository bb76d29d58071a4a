//! What stands behind the options in the help.

/// The commands, the replies, the exit statuses, and common slips.
pub(crate) const GUIDE: &str = "\
Edits. Numbers are decimal; INDEX, SUB and COB are hexadecimal, without 0x.
  version V                            1, or 2, where nodes can be mandatory
  bitrate K                            10, 20, 50, 125, 250, 500, 1000 kbit/s
  horizon US                           the simulation ends, 0 to 10000000 us
  manager ID SYNC_US HB_MS TIMEOUT_MS  who boots the nodes; 0 for no SYNC or HB
  time-period US DAYS                  in version 3: TIME each US us, on day DAYS
                                       at first; 0 for none
  sync-counter N                       SYNC counts to N, 2 to 240; 0 for none
  eds NAME LINES                       the next LINES lines are an EDS
  drop-eds NAME
  node ID NAME EDS                     node 1 to 127, by the EDS of that name
  need ID mandatory|optional           in version 2 the network starts once all
                                       mandatory nodes are configured
  drop-node ID
  param ID INDEX SUB TEXT              the value of an entry of a node
  unparam ID INDEX SUB
  message NAME ID TPDO TYPE INHIBIT EVENT COB
                                       a PDO of node ID: INHIBIT in 100 us,
                                       EVENT in ms, COB 0 for an automatic one
  start MESSAGE N                      its sender counts from SYNC N, 1 to 240;
                                       0 for any
  drop-message NAME
  source MESSAGE POS INDEX SUB         the sender's entry at position 1 to 64
  unsource MESSAGE POS
  sink MESSAGE POS ID INDEX SUB        the entry of node ID that takes it
  unsink MESSAGE POS ID
  event K TIME set ID INDEX SUB TEXT   at TIME us an application sets an entry
  event K TIME power ID on|off         a node's power is switched
  event K TIME nmt CMD ID              1 start, 2 stop, 128 pre-operational,
                                       129 and 130 reset; ID 0 for all nodes
  drop-event K
The first project has version 1, 1000 kbit/s, horizon 1000000, manager
127 0 0 500, no time stamps and no SYNC counter.

Queries:
  dcf ID    the device configuration file of a node (CiA 306)
  cdcf ID   its concise DCF (CiA 302), in hexadecimal digits
  diag      all that is wrong with the project
  trace     the frames on the bus, by time in us, and the manager's notes
  project   the project as commands

Each command has one reply: ok, or lines K with K lines behind it, or
refused N NAME, which leaves all as it was:
  1 Memory     no memory; the session ends. Give it more, and run it again
  2 Syntax     no such command, too few or many words, or a word not of its
               form. Mend the line; files and comments: tools/expand
  3 Range      a number outside its limits, or need in version 1. Take one
               within them; 1400h to 1BFFh are set by message, source, sink
  4 Unknown    no such EDS, node, parameter, message, source, sink or event.
               Make it first, or correct the name: project has what there is
  5 Taken      the number or the name of another node. Choose another
  6 InUse      nodes, messages or events still name it, or a node is
               mandatory. Drop these first, or make them optional
  7 Limit      one more than there can be. Drop one that isn't needed
  8 BadByte    a control byte in an EDS. Save it as plain text
  9 Truncated  the input ends inside an EDS. Correct LINES, or the file

Exit status: 0 where all was answered, refused commands too; 1 where the
session failed, with cobench: N NAME on the standard error; 2 for wrong words.

Common slips:
  0x1017 or 1017h for an INDEX: it is 1017
  a wrong LINES, where empty lines count too: the rest of the EDS is taken
    for commands, or commands for lines of the EDS
  comments: there are none, neither in lines of their own nor behind commands
  diag after edits: ok says that an edit was understood, not that it fits
";
