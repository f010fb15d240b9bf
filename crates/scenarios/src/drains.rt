//! Where a drain ends, and what it delivers.
use crate::{Run, crowd};
use std::io;

pub(crate) fn cases<R: Print>(run: &mut Run<R>) -> io::Result<()> {
    // R8.1, R8.2, R8.5, R9.3: budgets of 1 and 2 with more waiting, and of 256 and 65,535 with
    // less; PK before.
    run.scene(
        b"a drain ends with its budget, or when nothing waits\n\
          BC\x00\x00\x10\x00\
          BC\x00\x00\x20\x00\
          BC\x00\x00\x30\x00\
          CR\x00\
          JN\x01\x00\x00\
          JN\x02\x00\x00\
          PK\
          RD\x01\x00\
          RD\x02\x00\
          RD\x00\x01\
          RD\xff\xff",
    )?;
    // R8.4, R8.5: with no limit where no node is declared, and where nothing waits; where one
    // request does, which is granted, and where one notice does; with more waiting after a drain of
    // 1. PK before and after.
    run.scene(
        b"a drain with no limit ends when nothing waits\n\
          RD\x00\x00\
          BC\x00\x00\x10\x00\
          BC\x00\x00\x20\x00\
          BC\x00\x00\x30\x00\
          PK\
          RD\x00\x00\
          PK\
          CR\x00\
          JN\x01\x00\x00\
          PK\
          RD\x00\x00\
          PK\
          LV\x01DL\x00DL\x01\
          PK\
          RD\x00\x00\
          PK\
          JN\x01\x00\x00\
          JN\x02\x00\x00\
          RD\x01\x00\
          PK\
          RD\x00\x00\
          PK",
    )?;
    refused_place(run)?;
    refused_places(run)
}

// R8.1, R6.10, refusal 28: the request of node 31 comes to stand at place 0, before the notices and
// answers of the nodes 1 to 30, and once 30, 29 and 28 have left, 64 messages wait and node 0 would
// grant it. A drain of 1 delivers the notice at place 1; then, with 63 waiting, the request.
fn refused_place<R: Print>(run: &mut Run<R>) -> io::Result<()> {
    let mut script = crowd::Script::new();
    crowd::declare_all(&mut script);
    crowd::ask_all(&mut script, 30);
    script.append(b"JN\x1f\x00\x1bRD\x1e\x00");
    crowd::leave_again(&mut script, 30, 3, 1);
    crowd::show_on(
        run,
        &mut script,
        b"with 64 waiting, a drain passes over a request that is refused 28\n\
          PK\
          DL\x00\
          RD\x01\x00\
          ON\x1f\x00\x00\x00\x00\
          RD\x01\x00\
          ON\x1f\x00\x00\x00\x00\
          RD\xff\xff",
    )
}

// R8.1, R8.4, refusal 28: likewise with the requests of the nodes 30 and 31 at places 0 and 1, and
// the nodes 29 to 26 gone. Node 0 would grant either. The drain delivers the notice at place 2
// first; then the request of 30, which is granted, and that of 31, which no longer finds the right
// link that it expects and is denied: 67 deliveries.
fn refused_places<R: Print>(run: &mut Run<R>) -> io::Result<()> {
    let mut script = crowd::Script::new();
    crowd::declare_all(&mut script);
    crowd::ask_all(&mut script, 29);
    script.append(b"JN\x1e\x00\x19JN\x1f\x00\x19RD\x1d\x00");
    crowd::leave_again(&mut script, 29, 4, 2);
    crowd::show_on(
        run,
        &mut script,
        b"with 64 waiting, a drain with no limit passes over two requests that are refused 28\n\
          PK\
          DL\x00\
          DL\x01\
          RD\x00\x00\
          ON\x1e\x00\x00\x00\x00\
          ON\x1f\x00\x00\x00\x00\
          PK",
    )
}
