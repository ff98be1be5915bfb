//! Lines of four tiles, the first of which is lighter than the others: that reaches its neighbour and no further.

use crate::devices::{Answer, Failing, gray, is_answer};
use std::alloc::{AllocError, Global};
use std::test::*;
use vx_base::Bytes;

/// The `gray` of a line of 193 pixels, the first of the value 200 and the others of less than half of it.
fn of_line(alloc: Global, header: &[u8]) -> Result<Answer, AllocError> {
    let mut values = [99u8; 193];
    values[0] = 200;
    let mut scan = Bytes::from_slice(alloc, header)?;
    scan.extend_from_slice(&values)?;
    gray(
        alloc,
        &[("A", scan.as_slice())],
        &["gray", "A"],
        Failing::NONE,
    )
}

#[test]
fn a_tile_is_as_light_as_its_neighbours_across(rt: HostRuntime) -> Result<(), Fail> {
    let answer = of_line(rt.alloc(), b"P5 193 1 255 ")?;
    assert!(rt;
        is_answer(
            &answer,
            "ok",
            b"P4\n193 1\n\x7f\
            \xff\xff\xff\xff\xff\xff\xff\xff\xff\xff\xff\xff\xff\xff\xff\
            \x00\x00\x00\x00\x00\x00\x00\x00\x00"
        ),
        "two tiles, their first pixel light, and two light ones"
    );
    Ok(())
}

#[test]
fn a_tile_is_as_light_as_its_neighbours_down(rt: HostRuntime) -> Result<(), Fail> {
    let alloc = rt.alloc();
    let mut bits = [0u8; 193];
    for v in 1..128 {
        bits[v] = 0x80;
    }
    let mut text = Bytes::from_slice(alloc, b"P4\n1 193\n")?;
    text.extend_from_slice(&bits)?;
    let answer = of_line(alloc, b"P5 1 193 255 ")?;
    assert!(rt;
        is_answer(&answer, "ok", text.as_slice()),
        "two tiles, their first pixel light, and two light ones"
    );
    Ok(())
}
