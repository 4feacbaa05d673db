//! How many requests for memory inputs make at least: one for the first call of a book, for each list that a message keeps, for the list of messages and for a buffer of each; none where a buffer is left from before,
//! and none for a release that is acknowledged. A new desk has room for the first entries of its history.
//!
//! Between two empty lines stand the beginning that is gone on from, where one is; lines `in`, the last of which is the
//! input that is counted; what comes of it by its row, each message behind the event that it follows there, without `none
//! free`; and how many requests it makes.

/// Each: its name, and the lines of a script that lead to it over an empty book.
pub const BEGINNINGS: &[(&str, &str)] = &[
    (
        "a call that is on",
        "open 1 0 0 3
abis 0 0 0822010b081234
",
    ),
    (
        "a call that is to move",
        "open 1 0 0 3
abis 0 0 0822010b081234
handover 1 1
",
    ),
    (
        "a call whose mobile was sent to its target",
        "open 1 0 0 3
abis 0 0 0822010b081234
handover 1 1
abis 1 1 0822010b080000
",
    ),
    (
        "a call whose mobile was seen there",
        "open 1 0 0 3
abis 0 0 0822010b081234
handover 1 1
abis 1 1 0822010b080000
abis 1 1 0827010b1102
",
    ),
    (
        "a call that is to come",
        "a 9 0019100b030108010a01011d330505010017006605050100170065
",
    ),
    (
        "a call whose mobile was sent here",
        "a 9 0019100b030108010a01011d330505010017006605050100170065
abis 1 1 0822010b080000
",
    ),
    (
        "a call whose mobile was seen here",
        "a 9 0019100b030108010a01011d330505010017006605050100170065
abis 1 1 0822010b080000
abis 1 1 0827010b1102
",
    ),
    (
        "a call that is to leave",
        "open 1 0 0 3
abis 0 0 0822010b081234
handover 1 64
",
    ),
    (
        "a call whose mobile was ordered away",
        "open 1 0 0 3
abis 0 0 0822010b081234
handover 1 64
a 1 000c131709062bd5670ba36b2a05
",
    ),
];

/// Calls begin to move, to come and to leave.
pub const BEGINNING: &str = "in open 1 0 0 3
event open 1 0/0/3 -> done
out abis 0 0 0821010b0300060400010801
requests 3

in open 1 0 0 3
in abis 0 0 0822010b081234
event confirm 0/0/3 -> owned 1
event look 1 -> record 0/0/3 on
requests 1

from a call that is on
in handover 1 1
event look 1 -> record 0/0/3 on
event take 1 internal 1/1/3 -> done
event reserve 1 0 -> done
event activate 1 -> done
out abis 1 1 0821010b03020604000108010900
requests 1

from a call that is to move
in abis 1 1 0822010b080000
event confirm 1/1/3 -> owned 1
event look 1 -> record 0/0/3 on internal confirmed 1/1/3 0
event command 1 -> done
out abis 0 0 0301010b02000b0009062bd5670ba36b0005
requests 1

from a call whose mobile was sent to its target
in abis 1 1 0827010b1102
event detect 1/1/3 -> owned 1
event look 1 -> record 0/0/3 on internal detected 1/1/3 0
requests 0

in a 9 0019100b030108010a01011d330505010017006605050100170065
event look 9 -> refused 1
event take 9 incoming 1/1/3 -> done
event reserve 9 0 -> done
event activate 9 -> done
out abis 1 1 0821010b03020604000108010900
requests 5

from a call that is to come
in abis 1 1 0822010b080000
event confirm 1/1/3 -> owned 9
event look 9 -> record - - incoming confirmed 1/1/3 0
event command 9 -> done
out a 9 000c121709062bd5670ba36b0005
requests 2

from a call whose mobile was sent here
in abis 1 1 0827010b1102
event detect 1/1/3 -> owned 9
event look 9 -> record - - incoming detected 1/1/3 0
out a 9 00011b
requests 2

from a call that is on
in handover 1 64
event look 1 -> record 0/0/3 on
event require 1 -> done
out a 1 000c1104010c1b1a050100170066
requests 1

from a call that is to leave
in a 1 000c131709062bd5670ba36b2a05
event look 1 -> record 0/0/3 on outgoing required - -
event order 1 -> done
out abis 0 0 0301010b02000b0009062bd5670ba36b2a05
requests 4
";

/// Calls begin and end, and reports come.
pub const CALLS: &str = "in seize 1 0 full
event open 1 0/0/2 -> done
out abis 0 0 0821010a0300060400010801
requests 3

from a call that is on
in seize 2 0 full
event open 2 0/0/2 -> done
out abis 0 0 0821010a0300060400010801
requests 1

from a call that is on
in seize 1 1 full
event open 1 1/1/3 -> refused 2
requests 1

from a call that is to move
in seize 1 1 full
requests 1

from a call that is to move
in seize 2 1 half
requests 1

in open 1 0 0 3
in clear 1
event look 1 -> record 0/0/3 pending
event clear 1 -> done
out abis 0 0 082e010b
requests 2

from a call that is on
in abis 0 0 0828010b1b001903001e000400
requests 1

from a call that is to move
in abis 0 0 0828010b1b001903001e0004000b001206151e1e006812a000000000000000000000
event owner 0/0/3 -> owned 1
event look 1 -> record 0/0/3 on internal sent 1/1/3 0
requests 3

from a call that is on
in clear 1
event look 1 -> record 0/0/3 on
event clear 1 -> done
out abis 0 0 082e010b
requests 1

in open 1 0 0 3
in open 1 0 0 2
in clear 1
in abis 0 0 0833010b
event released 0/0/3 -> done
requests 0

in open 2 0 0 2
in abis 0 0 0823010a1a0120
event refuse 0/0/2 -> owned 2
event look 2 -> record 0/0/2 held
out a 2 000422040120
requests 2

in open 2 0 0 2
in abis 0 0 0823010a1a0120
in a 2 000420040120
event look 2 -> record 0/0/2 held
event clear 2 -> done
out a 2 000121
requests 2

from a call that is on
in abis 0 0 0824010b1a0101
event owner 0/0/3 -> owned 1
event look 1 -> record 0/0/3 on
out a 1 000422040101
requests 1

from a call whose mobile was sent to its target
in clear 1
event look 1 -> record 0/0/3 on internal commanded 1/1/3 0
event undo 1 asked -> record 0/0/3 on internal commanded 1/1/3 0
out abis 1 1 082e010b
event clear 1 -> done
out abis 0 0 082e010b
requests 1

from a call that is on
in a 1 000420040109
event look 1 -> record 0/0/3 on
event clear 1 -> done
out abis 0 0 0301010b02000b0003060d00
out abis 0 0 082e010b
out a 1 000121
requests 2

from a call that is on
in a 1 000420040109
in a 1 000420040109
event look 1 -> refused 1
out a 1 000121
requests 1

from a call whose mobile was sent to its target
in a 1 000420040120
event look 1 -> record 0/0/3 on internal commanded 1/1/3 0
event undo 1 asked -> record 0/0/3 on internal commanded 1/1/3 0
out abis 1 1 082e010b
event clear 1 -> done
out abis 0 0 0301010b02000b0003060d01
out abis 0 0 082e010b
out a 1 000121
requests 3

from a call that is on
in abis 0 0 0828010b1b001903001e0004000b001206151e1e006812a000000000000000000000
event owner 0/0/3 -> owned 1
event look 1 -> record 0/0/3 on
requests 3

from a call that is on
in abis 0 0 0828010b1b001903001e0004000b001206151e1e006812a000000000000000000000
in abis 0 0 0828010b1b001903001e0004000b001206151e1e006812a000000000000000000000
event owner 0/0/3 -> owned 1
event look 1 -> record 0/0/3 on
event take 1 internal 1/1/3 -> done
event reserve 1 0 -> done
event activate 1 -> done
out abis 1 1 0821010b03020604000108010900
requests 2
";

/// Handovers come to their end, or are undone.
pub const MOVES: &str = "from a call whose mobile was seen there
in abis 1 1 0302010b02000b0003062c00
event owner 1/1/3 -> owned 1
event look 1 -> record 0/0/3 on internal detected 1/1/3 0
event complete 1 -> done
out abis 0 0 082e010b
out a 1 000b1704010c05050100170065
requests 1

from a call whose mobile was sent to its target
in abis 1 1 0302010b02000b0003062c00
event owner 1/1/3 -> owned 1
event look 1 -> record 0/0/3 on internal commanded 1/1/3 0
event complete 1 -> done
out abis 0 0 082e010b
out a 1 000b1704010c05050100170065
requests 1

from a call whose mobile was sent to its target
in abis 0 0 0302010b02000b0003062801
event owner 0/0/3 -> owned 1
event look 1 -> record 0/0/3 on internal commanded 1/1/3 0
event undo 1 asked -> record 0/0/3 on internal commanded 1/1/3 0
out abis 1 1 082e010b
requests 1

from a call whose mobile was seen there
in expire 1 T3103
event undo 1 t3103 -> record 0/0/3 on internal detected 1/1/3 0
out abis 1 1 082e010b
out a 1 000422040100
requests 1

from a call whose mobile was seen there
in expire 1 T3103
in expire 1 T3103
event undo 1 t3103 -> refused 9
requests 1

from a call that is to move
in undo 1
event undo 1 asked -> record 0/0/3 on internal sent 1/1/3 0
out abis 1 1 082e010b
requests 1

from a call whose mobile was sent to its target
in undo 1
event undo 1 asked -> record 0/0/3 on internal commanded 1/1/3 0
out abis 1 1 082e010b
requests 1

from a call that is to move
in abis 1 1 0823010b1a0120
event refuse 1/1/3 -> owned 1
event look 1 -> record 0/0/3 on internal refused 1/1/3 0
event undo 1 asked -> record 0/0/3 on internal refused 1/1/3 0
requests 1
";

/// Calls come from another controller, or are turned away.
pub const COMING: &str = "from a call whose mobile was seen here
in abis 1 1 0302010b02000b0003062c00
event owner 1/1/3 -> owned 9
event look 9 -> record - - incoming detected 1/1/3 0
event complete 9 -> done
out a 9 0003141500
requests 3

from a call whose mobile was sent here
in abis 1 1 0302010b02000b0003062c02
event owner 1/1/3 -> owned 9
event look 9 -> record - - incoming commanded 1/1/3 0
event complete 9 -> done
out a 9 0003141502
requests 3

from a call that is to come
in undo 9
event undo 9 asked -> record - - incoming sent 1/1/3 0
out abis 1 1 082e010b
out a 9 000416040120
requests 3

from a call that is to come
in abis 1 1 0823010b1a0120
event refuse 1/1/3 -> owned 9
event look 9 -> record - - incoming refused 1/1/3 0
event undo 9 asked -> record - - incoming refused 1/1/3 0
out a 9 000416040120
requests 2

from a call whose mobile was sent here
in expire 9 T3103
event undo 9 t3103 -> record - - incoming commanded 1/1/3 0
out abis 1 1 082e010b
out a 9 000422040100
requests 3

from a call that is to come
in clear 9
event look 9 -> record - - incoming sent 1/1/3 0
event undo 9 asked -> record - - incoming sent 1/1/3 0
out abis 1 1 082e010b
requests 2

from a call whose mobile was sent here
in a 9 00042004010a
event look 9 -> record - - incoming commanded 1/1/3 0
event undo 9 asked -> record - - incoming commanded 1/1/3 0
out abis 1 1 082e010b
out a 9 000121
requests 3

in a 9 0019100b030208010a01011d330505010017006605050100170065
event look 9 -> refused 1
out a 9 000416040121
requests 4

in open 2 1 1 3
in a 9 0019100b030108010a01011d330505010017006605050100170065
event look 9 -> refused 1
out a 9 000416040121
requests 4
";

/// Calls leave for another controller, or stay.
pub const LEAVING: &str = "from a call whose mobile was ordered away
in a 1 00042004010b
event look 1 -> record 0/0/3 on outgoing ordered - -
event left 1 -> done
out abis 0 0 082e010b
out a 1 000121
requests 2

from a call whose mobile was ordered away
in abis 0 0 0302010b02000b0003062800
event owner 0/0/3 -> owned 1
event look 1 -> record 0/0/3 on outgoing ordered - -
event undo 1 asked -> record 0/0/3 on outgoing ordered - -
out a 1 00061604010a1500
requests 2

from a call that is to leave
in a 1 00041a040121
event look 1 -> record 0/0/3 on outgoing required - -
event undo 1 asked -> record 0/0/3 on outgoing required - -
requests 0

from a call that is to leave
in expire 1 T7
event undo 1 t7 -> record 0/0/3 on outgoing required - -
requests 1

from a call whose mobile was ordered away
in expire 1 T8
event undo 1 t8 -> record 0/0/3 on outgoing ordered - -
out a 1 000422040100
requests 1

from a call that is to leave
in undo 1
event undo 1 asked -> record 0/0/3 on outgoing required - -
requests 1

from a call whose mobile was ordered away
in clear 1
event look 1 -> record 0/0/3 on outgoing ordered - -
event undo 1 asked -> record 0/0/3 on outgoing ordered - -
event clear 1 -> done
out abis 0 0 082e010b
requests 1

from a call that is to leave
in a 1 000420040109
event look 1 -> record 0/0/3 on outgoing required - -
event undo 1 asked -> record 0/0/3 on outgoing required - -
event clear 1 -> done
out abis 0 0 0301010b02000b0003060d00
out abis 0 0 082e010b
out a 1 000121
requests 3

from a call that is on
in abis 0 0 0828010b1b001903001e0004000b001206151e1e0068030000000000000000000000
in abis 0 0 0828010b1b001903001e0004000b001206151e1e0068030000000000000000000000
event owner 0/0/3 -> owned 1
event look 1 -> record 0/0/3 on
event require 1 -> done
out a 1 000c1104010c1b1a050100170066
requests 4
";

/// Three cells. Both others are neighbours of cell 0, and have one channel each.
pub const TWO_NEIGHBOURS: &str = "[handover]
window = 2
margin = 3
minimum = 10
[[cell]]
lac = 23
ci = 100
bcch = 60
ncc = 1
bcc = 1
power = 5
ba = [62, 871]
trx = [{ arfcn = 60, tch = [2, 3] }]
[[cell]]
lac = 23
ci = 101
bcch = 871
ncc = 2
bcc = 5
power = 5
ba = [60]
trx = [{ arfcn = 871, tch = [] }, { arfcn = 875, tch = [3] }]
[[cell]]
lac = 23
ci = 102
bcch = 62
ncc = 3
bcc = 0
power = 5
ba = [60]
trx = [{ arfcn = 62, tch = [4] }]
";

/// A second candidate is tried, since the first has no free channel.
pub const CANDIDATES: &str = "from a call that is on
in open 2 1 1 3
in abis 0 0 0828010b1b001903001e0004000b001206151e1e00a80ab381800000000000000000
in abis 0 0 0828010b1b001903001e0004000b001206151e1e00a80ab381800000000000000000
event owner 0/0/3 -> owned 1
event look 1 -> record 0/0/3 on
event take 1 internal 2/0/4 -> done
event reserve 1 0 -> done
event activate 1 -> done
out abis 2 0 0821010c03020604000108010900
requests 3
";

/// Rows that send a message between two events: the target of an attempt is released before its call is cleared.
pub const TWO_PARTS: &str = "from a call whose mobile was sent to its target
in clear 1
event look 1 -> record 0/0/3 on internal commanded 1/1/3 0
event undo 1 asked -> record 0/0/3 on internal commanded 1/1/3 0
out abis 1 1 082e010b
event clear 1 -> done
out abis 0 0 082e010b
requests 1

from a call whose mobile was sent to its target
in a 1 000420040120
event look 1 -> record 0/0/3 on internal commanded 1/1/3 0
event undo 1 asked -> record 0/0/3 on internal commanded 1/1/3 0
out abis 1 1 082e010b
event clear 1 -> done
out abis 0 0 0301010b02000b0003060d01
out abis 0 0 082e010b
out a 1 000121
requests 1
";

/// Rows whose first event changes the book, and which send something. No buffer is left from before.
pub const ROOM_COMES_FIRST: &str = "in open 1 0 0 3
event open 1 0/0/3 -> done
out abis 0 0 0821010b0300060400010801
requests 1

from a call that is to move
in undo 1
event undo 1 asked -> record 0/0/3 on internal sent 1/1/3 0
out abis 1 1 082e010b
requests 1

from a call whose mobile was seen there
in expire 1 T3103
event undo 1 t3103 -> record 0/0/3 on internal detected 1/1/3 0
out abis 1 1 082e010b
out a 1 000422040100
requests 1

from a call that is to come
in abis 1 1 0822010b080000
event confirm 1/1/3 -> owned 9
event look 9 -> record - - incoming confirmed 1/1/3 0
event command 9 -> done
out a 9 000c121709062bd5670ba36b0005
requests 1

from a call that is to come
in abis 1 1 0823010b1a0120
event refuse 1/1/3 -> owned 9
event look 9 -> record - - incoming refused 1/1/3 0
event undo 9 asked -> record - - incoming refused 1/1/3 0
out a 9 000416040120
requests 1

from a call whose mobile was sent here
in abis 1 1 0827010b1102
event detect 1/1/3 -> owned 9
event look 9 -> record - - incoming detected 1/1/3 0
out a 9 00011b
requests 1
";
