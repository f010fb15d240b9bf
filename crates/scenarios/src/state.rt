//! The refusals from the state; 20 is among the fitter's cases. After each of them a later record
//! is done.
use crate::{Run, crowd};
use std::io;

pub(crate) const ORDERS: [&[u8]; 9] = [
    // R2.4, R6.5, refusal 21: the same key in another form.
    b"no 21: a key that is taken\n\
      BC\x00\x00\x10\x00\
      BN\xe8\x03\x00\x00\
      BC\x00\x00\x20\x00",
    // R6.6, R5.1, R5.3, refusal 22: of a node that is in and of another; once all are out node 1
    // can be created.
    b"no 22: a creation while a node is not out\n\
      BC\x00\x00\x10\x00\
      BC\x00\x00\x20\x00\
      CR\x00\
      CR\x00\
      CR\x01\
      LV\x00\
      CR\x01",
    // R6.7, refusal 23: node 0 is in, and node 1 is joining already.
    b"no 23: a join of a node that is not out\n\
      BC\x00\x00\x10\x00\
      BC\x00\x00\x20\x00\
      CR\x00\
      JN\x00\x01\x01\
      JN\x01\x00\x00\
      JN\x01\x00\x00\
      DL\x00",
    // R3.1, R6.7, refusal 24: the key of node 2 is above both, or is one of the two.
    b"no 24: a join whose key is not between\n\
      BC\x00\x00\x10\x00\
      BC\x00\x00\x20\x00\
      BC\x00\x00\x30\x00\
      CR\x00\
      JN\x02\x00\x01\
      JN\x02\x00\x02\
      JN\x02\x00\x00",
    // R6.6, R6.7, R5.13, refusal 25: node 1 joins and leaves, and node 0 leaves alone, before it
    // hears of either. Then it can neither be created nor join.
    b"no 25: a left notice waits for node 0\n\
      BC\x00\x00\x10\x00\
      BC\x00\x00\x20\x00\
      CR\x00\
      JN\x01\x00\x00DL\x00DL\x01\
      LV\x01DL\x01DL\x02\
      LV\x00\
      CR\x00\
      CR\x01\
      JN\x00\x01\x01\
      DL\x00DL\x00\
      JN\x00\x01\x01",
    // R6.7, R6.13, refusals 24 and 25: the same, and node 0 asks to join where its key is not
    // between, twice, and then where it is: 25 each time, since notices to it wait. Node 2, to
    // which none waits, is told 24; and so is node 0 once the notices are delivered, until it asks
    // in the right place.
    b"no 25 where 24 holds too: a left notice waits for node 0, and its key is not between\n\
      BC\x00\x00\x10\x00\
      BC\x00\x00\x20\x00\
      BC\x00\x00\x30\x00\
      CR\x00\
      JN\x01\x00\x00DL\x00DL\x01\
      LV\x01DL\x01DL\x02\
      LV\x00\
      CR\x01\
      JN\x00\x01\x02\
      JN\x00\x01\x00\
      JN\x00\x01\x01\
      JN\x02\x00\x01\
      DL\x00DL\x00\
      JN\x00\x01\x02\
      JN\x00\x01\x01",
    // R6.7, R6.13, refusals 5 and 23: while node 0 is in it is told 23, though a notice to it waits
    // and its key is not between. Once it is out it is told 5 where the node on its right is not
    // declared, or the one on its left, and 25 where both neighbours are declared; a node that is
    // not declared itself, and so has no key and no notice, is told 5.
    b"no 23 and no 5 where 25 and 24 hold too\n\
      BC\x00\x00\x10\x00\
      BC\x00\x00\x20\x00\
      BC\x00\x00\x30\x00\
      CR\x00\
      JN\x01\x00\x00DL\x00\
      JN\x00\x01\x02\
      DL\x01\
      LV\x01DL\x01DL\x02\
      LV\x00\
      JN\x00\x01\x03\
      JN\x00\x03\x00\
      JN\x00\x01\x02\
      JN\x03\x01\x02",
    // R6.8, refusal 26: it is out, joining or leaving.
    b"no 26: a leave of a node that is not in\n\
      BC\x00\x00\x10\x00\
      BC\x00\x00\x20\x00\
      LV\x00\
      CR\x00\
      JN\x01\x00\x00\
      LV\x01\
      RD\xff\xff\
      LV\x01\
      LV\x01\
      DL\x00",
    // R3.1, R6.7, refusal 24: on the way from 3,000 up past the end of the keys to 1,000 lie
    // neither 2,000 nor the two ends, but 0 and 4,000; from a key round to itself lie all but that
    // one.
    b"no 24: a join where the left key is above the right, or the same\n\
      BC\x00\x00\x10\x00\
      BC\x00\x00\x20\x00\
      BC\x00\x00\x30\x00\
      BC\x00\x00\x40\x00\
      BN\x00\x00\x00\x00\
      JN\x01\x02\x00\
      JN\x02\x02\x00\
      JN\x00\x02\x00\
      JN\x03\x02\x00\
      JN\x04\x02\x00\
      JN\x01\x01\x01\
      JN\x01\x00\x00",
];

const FULL_QUEUES: [&[u8]; 3] = [
    // R6.7, R6.8, R6.9, R5.3, refusal 28: nodes 22 and 23 ask to join, and 64 messages wait: a join
    // of node 24, a leave of node 0 and the delivery of the request of 22 are refused. Then node 1
    // leaves, the last that had joined; 64 wait again, and node 0, now alone, leaves too. So it
    // denies both requests in the drain, which delivers their answers as well, 66 messages in all.
    b"no 28: with 64 waiting, a join, a leave, a delivery; a lone node leaves\n\
      JN\x16\x00\x01\
      JN\x17\x00\x01\
      PK\
      JN\x18\x00\x01\
      LV\x00\
      DL\x3e\
      DL\x01LV\x01\
      DL\x00DL\x3e\
      PK\
      LV\x00\
      RD\xff\xff\
      JN\x18\x00\x01",
    // R5.13, R6.10, refusal 28: node 22 asks node 31, which is out, and node 23 asks node 0, which
    // would grant it; 64 messages wait. The request to node 0 is refused, and the one to node 31
    // delivered: it is denied, and with its answer 64 wait again.
    b"no 28: with 64 waiting, a request to a node that is out is denied\n\
      JN\x16\x1f\x15\
      JN\x17\x00\x01\
      PK\
      DL\x3f\
      DL\x3e\
      PK\
      DL\x3e\
      DL\x3f\
      DL\x3e",
    // R6.1, R6.3, R6.6, R6.7, R6.8: 64 messages wait, among them a notice for node 20, which is
    // out. Each record meets several refusals at once, as the join of node 20 between 1 and 0 meets
    // 25, 24 and 28, and the join of node 0x19 between the same two 24 and 28; the first is told.
    b"no 5 and 22 to 26: each before those that come later, with 64 waiting\n\
      DL\x19\
      JN\x16\x00\x01\
      JN\x17\x00\x01\
      JN\x18\x00\x01\
      PK\
      CR\x20\
      CR\x14\
      JN\x00\x00\x20\
      JN\x00\x00\x00\
      JN\x14\x01\x00\
      JN\x14\x00\x01\
      JN\x19\x01\x00\
      JN\x19\x00\x01\
      LV\x16\
      DL\x40",
];

pub(crate) fn full_queues<R: Print>(run: &mut Run<R>) -> io::Result<()> {
    for text in FULL_QUEUES {
        crowd::scene_after(run, 21, 20, text)?;
    }
    Ok(())
}

pub(crate) const DELIVERIES_AND_QUESTIONS: [&[u8]; 2] = [
    // R6.9, refusal 29: while none waits, and behind the last one.
    b"no 29: no message at that place\n\
      BC\x00\x00\x10\x00\
      BC\x00\x00\x20\x00\
      CR\x00\
      DL\x00\
      JN\x01\x00\x00\
      DL\x01\
      DL\x00",
    // R4.1, R7.3, refusal 30: node 0 is out, and node 1 is joining; once that is granted it is
    // asked.
    b"no 30: a question from a node not inserted\n\
      BC\x00\x00\x10\x00\
      BC\x00\x00\x20\x00\
      OC\x00\x00\x00\x25\x00\
      CR\x00\
      JN\x01\x00\x00\
      OC\x01\x00\x00\x25\x00\
      DL\x00\
      OC\x01\x00\x00\x25\x00",
];
