//! What nodes do where messages come late, overtake each other, or find their node changed. Only
//! notices to a node that is out are dropped in a script (R10.18): a request is answered, and no
//! answer waits for a node that is out or in (R2.7).
pub(crate) const NOTICES: [&[u8]; 5] = [
    // R5.6, R5.7, R5.12: three nodes come in on the left of node 0, one behind the other. Each
    // notice is newer, so that node 0 asks the last of them.
    b"each newer notice is taken\n\
      BC\x00\x00\x10\x00\
      BC\x00\x00\x20\x00\
      BC\x00\x00\x30\x00\
      BC\x00\x00\x40\x00\
      CR\x00\
      JN\x01\x00\x00DL\x00DL\x00DL\x00\
      JN\x02\x01\x00DL\x00DL\x00DL\x00\
      JN\x03\x02\x00DL\x00DL\x00DL\x00\
      LV\x00DL\x00",
    // R5.12: the second notice overtakes the first, which then changes nothing, so that node 0 asks
    // node 2.
    b"a notice that comes late is old\n\
      BC\x00\x00\x10\x00\
      BC\x00\x00\x20\x00\
      BC\x00\x00\x30\x00\
      CR\x00\
      JN\x01\x00\x00DL\x00DL\x01\
      JN\x02\x01\x00DL\x01\
      DL\x01\
      DL\x00\
      DL\x00\
      LV\x00DL\x00",
    // R5.4, R5.6, R5.8: node 1 comes, goes and comes again, and its granter goes on from the number
    // of the leave. So each notice to node 0 is newer.
    b"after a leave the numbers go on\n\
      BC\x00\x00\x10\x00\
      BC\x00\x00\x20\x00\
      CR\x00\
      JN\x01\x00\x00DL\x00DL\x00DL\x00\
      LV\x01DL\x00DL\x00DL\x00\
      JN\x01\x00\x00DL\x00DL\x00DL\x00\
      LV\x00DL\x00",
    // R5.2: node 1 leaves with the left number 1 and joins with it again. So the notice of
    // 2's leave has 2 and is taken, and node 1 asks node 0.
    b"a second join sends its left number, and later notices are taken\n\
      BC\x00\x00\x10\x00\
      BC\x00\x00\x30\x00\
      BC\x00\x00\x20\x00\
      CR\x00\
      JN\x01\x00\x00RD\xff\xff\
      JN\x02\x00\x01DL\x00DL\x00DL\x00\
      LV\x01RD\xff\xff\
      JN\x01\x02\x00RD\xff\xff\
      LV\x02DL\x00DL\x00DL\x00\
      LV\x01DL\x00",
    // R5.1, R5.3: node 0 has the left number 2 when it leaves alone. Created again it has the first
    // numbers, and a notice with 1 is newer.
    b"a second creation begins with the first numbers\n\
      BC\x00\x00\x10\x00\
      BC\x00\x00\x20\x00\
      CR\x00\
      JN\x01\x00\x00RD\xff\xff\
      LV\x01RD\xff\xff\
      LV\x00\
      CR\x00\
      JN\x01\x00\x00DL\x00DL\x00",
];

pub(crate) const OUT: [&[u8]; 4] = [
    // R5.9, R5.11, R5.13, R10.15: node 0 leaves alone before the request of node 1 comes. Node 1 is
    // told no, and can join as soon as it has heard it and a ring is there.
    b"a request to a node that is out is denied\n\
      BC\x00\x00\x10\x00\
      BC\x00\x00\x20\x00\
      CR\x00\
      JN\x01\x00\x00\
      LV\x00\
      DL\x00\
      JN\x01\x00\x00\
      DL\x00\
      CR\x00\
      JN\x01\x00\x00\
      RD\xff\xff",
    // R5.11, R5.13, R4.1: node 2 asks node 1 to let it go, but that is gone when the request comes.
    // Node 2 stays inserted, and is in again when it hears the answer. It asks once more, by then
    // its new left neighbour, node 0, and is let go.
    b"a request to leave finds its node gone and is denied\n\
      BC\x00\x00\x10\x00\
      BC\x00\x00\x20\x00\
      BC\x00\x00\x30\x00\
      CR\x00\
      JN\x01\x00\x00RD\xff\xff\
      JN\x02\x01\x00RD\xff\xff\
      LV\x02LV\x01DL\x01DL\x02\
      DL\x00\
      OC\x02\x00\x00\x25\x00\
      RD\xff\xff\
      LV\x02RD\xff\xff\
      OC\x00\x00\x00\x25\x00",
    // R5.13, R10.18: node 0 leaves alone before it hears that node 1 came and went, and can be
    // created again once both notices are dropped.
    b"notices to a node that is out are dropped\n\
      BC\x00\x00\x10\x00\
      BC\x00\x00\x20\x00\
      CR\x00\
      JN\x01\x00\x00DL\x00DL\x01\
      LV\x01DL\x01DL\x02\
      LV\x00\
      DL\x01\
      DL\x00\
      CR\x00",
    // R5.12, R5.13, R10.18: of two notices to node 0 the newer comes first, so that node 0 asks its
    // left neighbour to let it go, and is gone when the older one comes.
    b"a notice to a node that has left is dropped\n\
      BC\x00\x00\x10\x00\
      BC\x00\x00\x20\x00\
      BC\x00\x00\x30\x00\
      BC\x00\x00\x40\x00\
      CR\x00\
      JN\x01\x00\x00RD\xff\xff\
      JN\x02\x01\x00DL\x00DL\x01\
      JN\x03\x02\x00DL\x01DL\x02\
      DL\x01\
      LV\x00DL\x01DL\x02\
      DL\x00\
      RD\xff\xff",
];

pub(crate) const DENIALS: [&[u8]; 3] = [
    // R5.5, R5.9, R5.11: each asks the other, and neither is in when it is asked; both are in
    // again, and one of them may leave.
    b"two neighbours leave at once, and both are denied\n\
      BC\x00\x00\x10\x00\
      BC\x00\x00\x20\x00\
      CR\x00\
      JN\x01\x00\x00RD\xff\xff\
      LV\x00LV\x01\
      DL\x00DL\x00\
      DL\x00DL\x00\
      LV\x01DL\x00",
    // R5.5, R5.11: node 1 is leaving when node 2 asks it, and node 2 is out again.
    b"a join is denied by a node that is leaving\n\
      BC\x00\x00\x10\x00\
      BC\x00\x00\x20\x00\
      BC\x00\x00\x30\x00\
      CR\x00\
      JN\x01\x00\x00RD\xff\xff\
      LV\x01\
      JN\x02\x01\x00DL\x01DL\x01\
      DL\x00\
      JN\x02\x00\x00RD\xff\xff",
    // R5.5: node 1 asks node 0, on whose right is node 2 by now; then node 2, which has not heard
    // that it is in; then node 2 once more.
    b"a leave is denied by a former left neighbour, and by one that is still joining\n\
      BC\x00\x00\x10\x00\
      BC\x00\x00\x30\x00\
      BC\x00\x00\x20\x00\
      CR\x00\
      JN\x01\x00\x00RD\xff\xff\
      JN\x02\x00\x01DL\x00\
      LV\x01DL\x02DL\x02\
      DL\x00\
      LV\x01DL\x01DL\x01\
      DL\x00\
      LV\x01DL\x00",
];
