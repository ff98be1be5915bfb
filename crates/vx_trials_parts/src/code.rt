ghost use Rattle.vx_code.specs.Code.{IsInRange};

use std::test::Fail;
use vx_code::*;
use vx_grid::{Kind, Paper};

// The SHA-256 of the three bytes `abc`.
const DIGEST: [u8; 32] = [
    0xba, 0x78, 0x16, 0xbf, 0x8f, 0x01, 0xcf, 0xea, 0x41, 0x41, 0x40, 0xde, 0x5d, 0xae, 0x22, 0x23,
    0xb0, 0x03, 0x61, 0xa3, 0x96, 0x17, 0x7a, 0x9c, 0xb4, 0x10, 0xff, 0x61, 0xf2, 0x00, 0x15, 0xad,
];

// Live, absentee, card 5, page 3 and the tag of `DIGEST`.
const CODE: PageCode = PageCode {
    version: 1,
    test: false,
    kind: Kind::Absentee,
    card: 5,
    page: 3,
    tag: 0xba781,
};

// The counts of dark pixels of the boxes of `code`: `dark` where a box is printed, else `blank`.
fn counts_of(code: &PageCode, dark: u32, blank: u32) -> [u32; 84]
    requires { IsInRange code.now }
{
    boxes_of(code).map(|printed| if printed { dark } else { blank })
}

#[test]
fn a_code_is_printed_and_read(rt: HostRuntime) {
    assert_eq!(rt; tag_of(&DIGEST), 0xba781);
    assert_eq!(rt; number_of(&CODE), 618_814_744_449);
    let bits = b"001001000000010100001110111010011110000001";
    let boxes = boxes_of(&CODE);
    for n in 0..42 {
        assert_eq!(rt; boxes[2 * n], bits[n] == b'0', "left box of pair {n}");
        assert_eq!(rt; boxes[2 * n + 1], bits[n] == b'1', "right box of pair {n}");
    }
    assert_eq!(rt;
        read_boxes(&counts_of(&CODE, 560, 0), Paper::Letter),
        Ok(CODE)
    );
    assert_eq!(rt;
        read_boxes(&counts_of(&CODE, 400, 160), Paper::Letter),
        Ok(CODE)
    );
}

#[test]
fn a_code_has_the_version_of_its_paper(rt: HostRuntime) {
    let legal = PageCode {
        version: version_of(Paper::Legal),
        ..CODE
    };
    let counts = counts_of(&legal, 560, 0);
    assert_eq!(rt; read_boxes(&counts, Paper::Legal), Ok(legal));
    assert_eq!(rt;
        read_boxes(&counts, Paper::Letter),
        Err(CodeFault::BadVersion(2))
    );
    assert_eq!(rt; place_of_box(Paper::Letter, 0), (3, 35));
    assert_eq!(rt; place_of_box(Paper::Legal, 83), (30, 48));
}
