use std::test::Fail;
use vx_code::CodeFault;
use vx_grid::{Point, Side};
use vx_mark_model::BorderFault;
use vx_scan_model::PageFault;

#[test]
fn faults_have_their_texts(rt: HostRuntime) -> Result<(), Fail> {
    let inside = Point { u: 1642, v: 60 };
    let outside = Point {
        u: -7,
        v: -2147483648,
    };
    let no_mark = |side, index| PageFault::Border(BorderFault::NoMark(side, index, inside));
    let texts = [
        (PageFault::FrameSize(1599, 0), "1 FrameSize 1599 0"),
        (PageFault::Border(BorderFault::NoCorner), "2.1 NoCorner"),
        (no_mark(Side::Top, 33), "2.2 NoMark top 33 1642 60"),
        (no_mark(Side::Right, 1), "2.2 NoMark right 1 1642 60"),
        (no_mark(Side::Left, 40), "2.2 NoMark left 40 1642 60"),
        (no_mark(Side::Bottom, 32), "2.2 NoMark bottom 32 1642 60"),
        (
            PageFault::Border(BorderFault::OpenBorder(outside, inside)),
            "2.3 OpenBorder -7 -2147483648 1642 60",
        ),
        (
            PageFault::Code(CodeFault::BadPair(41, 161, 399)),
            "3.1 BadPair 41 161 399",
        ),
        (
            PageFault::Code(CodeFault::BadVersion(7)),
            "3.2 BadVersion 7",
        ),
        (PageFault::OtherElection(1048575), "4 OtherElection 1048575"),
        (PageFault::NoCard(1023), "5 NoCard 1023"),
        (PageFault::NoPage(0), "6 NoPage 0"),
        (PageFault::OutOfMemory, "out of memory"),
    ];
    for (fault, text) in texts {
        assert_eq!(rt; fault.to_string(rt.alloc())?.as_str(), text);
    }
    Ok(())
}
