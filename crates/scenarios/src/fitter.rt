//! The fitter's cases of paper 01 that it does not mark †.
use crate::{Run, crowd};
use std::io;

pub(crate) fn cases<R: Print>(run: &mut Run<R>) -> io::Result<()> {
    // R9.4, R9.5, refusal 4: the same four bytes are too large in binary, and a key in packed form.
    run.scene(
        b"no 4: BN 00 00 12 34\n\
          BN\x00\x00\x12\x34\
          BC\x00\x00\x12\x34",
    )?;
    full_network(run)?;
    // R6.10, R8.5, refusal 28: nodes 29 and 1 ask node 0 to leave, and 64 messages wait, as PK
    // says. The request of 29, which is the right neighbour of 0, would be granted, that of 1
    // denied. The first is refused before and after the second is delivered; with one message less
    // it is granted.
    crowd::scene_after(
        run,
        31,
        2,
        b"no 28: with 64 waiting, a request to be granted; one to be denied is delivered\n\
          DL\x39LV\x1d\
          DL\x01LV\x01\
          PK\
          DL\x3e\
          DL\x3f\
          PK\
          DL\x3e\
          DL\x00\
          DL\x3d\
          DL\x3dDL\x3e\
          RD\xff\xff",
    )
}

// R1.7, R6.5, refusal 20: neither a new key nor one that is taken finds a place, and node 31, the
// last, can be created.
fn full_network<R: Print>(run: &mut Run<R>) -> io::Result<()> {
    let mut script = crowd::Script::new();
    crowd::declare_all(&mut script);
    crowd::show_on(
        run,
        &mut script,
        b"no 20: a declaration after 32\n\
          BN\x21\x00\x00\x00\
          BN\x20\x00\x00\x00\
          CR\x1f",
    )
}
