ghost use Rattle.std.specs.Prelude.{◌≤◌};

use std::alloc::Global;
use std::process::Abort;
use std::test::Fail;
use vx_base::{Bytes, OutOfMemory};
use vx_bits::{BitPage, BitView};
use vx_pbm::{PbmFault, PbmReader, write_p4};

/// The images of the bytes are so many, and then comes the end or a fault, twice.
fn walk(rt: &(impl Abort + AllocGlobal), bytes: &[u8], images: u32, fault: Option<PbmFault>) {
    let mut reader = PbmReader::new(rt.alloc(), bytes);
    for _ in 0..images {
        assert!(rt;
            matches!(&reader.next(), Ok(Some(_))),
            "an image is missing"
        );
    }
    for _ in 0..2 {
        match reader.next() {
            Ok(None) => assert!(rt; fault.is_none(), "no fault came"),
            Ok(Some(_)) => panic!(rt; "an image too many"),
            Err(found) => assert_eq!(rt; Some(found), fault),
        }
    }
}

#[test]
fn broken_bitmaps(rt: HostRuntime) {
    walk(&rt, b"P", 0, Some(PbmFault::BadMagic(0)));
    walk(&rt, b"P4", 0, Some(PbmFault::BadHeader(2)));
    walk(&rt, b"P4 0 5", 0, Some(PbmFault::BadHeader(3)));
    walk(&rt, b"P4 1234567890 1", 0, Some(PbmFault::BadHeader(3)));
    walk(&rt, b"P4 8 1", 0, Some(PbmFault::BadHeader(6)));
    walk(&rt, b"P4 8 1\n", 0, Some(PbmFault::Truncated(0, 1)));
    walk(&rt, b"P4 8 1\n\xffx", 1, Some(PbmFault::BadMagic(8)));
    walk(&rt, b"P1 2 1 12", 0, Some(PbmFault::BadPixel(8)));
    walk(&rt, b"P1 1 1 11", 1, Some(PbmFault::TrailingPlain(8)));
    walk(&rt, b"P1 1 1 1 1", 1, None);
}

#[test]
fn places_in_a_header(rt: HostRuntime) {
    walk(&rt, b"", 0, None);
    walk(
        &rt,
        b"P4 4097 10\n",
        0,
        Some(PbmFault::SizeTooLarge(4097, 10)),
    );
    walk(&rt, b"P4 4097 10", 0, Some(PbmFault::BadHeader(10)));
    walk(&rt, b"P4#a\r 0008#b\n1\t\x00", 1, None);
    walk(&rt, b"P4 8 1#c", 0, Some(PbmFault::BadHeader(6)));
    walk(&rt, b"P4 #never ended", 0, Some(PbmFault::BadHeader(15)));
    walk(&rt, b"P1 2 1\n1", 0, Some(PbmFault::Truncated(1, 2)));
    walk(&rt, b"P4 1 1 \x80P1 1 1 1", 1, Some(PbmFault::BadMagic(8)));
}

/// The page of these tests: three dark rectangles on 1700 by 2200 pixels, or on a wider frame.
fn sample(alloc: Global, width: u32) -> Result<BitPage, OutOfMemory>
    requires low { 1700 ≤ width }
    requires high { width ≤ 4096 }
{
    let mut page = BitPage::new(alloc, width, 2200)?;
    page.darken(0, 0, 1700, 3);
    page.darken(41, 54, 36, 2133);
    page.darken(1693, 700, 7, 1500);
    Ok(page)
}

/// Whether the two pages are dark at the same places of a frame of 1700 by 2200.
fn look_alike(a: &BitView<'_>, b: &BitView<'_>) -> bool {
    for v in 0..2200 {
        for u in 0..1700 {
            if a.dark(u, v) != b.dark(u, v) {
                return false;
            }
        }
    }
    true
}

/// Appends the plain bitmap of a page, with a comment and with no whitespace in its raster.
fn write_plain(page: &BitView<'_>, header: &[u8], into: &mut Bytes) -> Result<(), OutOfMemory> {
    into.extend_from_slice(header)?;
    for v in 0..2200 {
        for u in 0..1700 {
            into.push(if page.dark(u, v) { b'1' } else { b'0' })?;
        }
    }
    Ok(())
}

/// The first image of the bytes looks like the page, has its sides, and is all that there is.
fn shows(
    rt: &(impl Abort + AllocGlobal),
    bytes: &[u8],
    width: u32,
    page: &BitView<'_>,
) -> Result<(), Fail> {
    let mut reader = PbmReader::new(rt.alloc(), bytes);
    let image = reader.next()?.ok_or("no image")?;
    let view = image.view();
    assert_eq!(rt; (view.width(), view.height()), (width, 2200));
    assert!(rt; look_alike(&view, page), "the pixels differ");
    assert!(rt; matches!(&reader.next(), Ok(None)), "there is more");
    Ok(())
}

/// The packed bitmap of a page.
fn packed(alloc: Global, page: &BitView<'_>) -> Result<Bytes, OutOfMemory> {
    let mut text = Bytes::new(alloc);
    write_p4(page, &mut text)?;
    Ok(text)
}

/// A plain bitmap of the page is read as the page.
fn shows_plain(rt: &(impl Abort + AllocGlobal), page: &BitView<'_>) -> Result<(), Fail> {
    let mut text = Bytes::new(rt.alloc());
    write_plain(page, b"P1\n# by hand\n1700 2200\n", &mut text)?;
    shows(rt, text.as_slice(), 1700, page)
}

/// The packed bitmap of a wide page is read as the page.
fn shows_wide(
    rt: &(impl Abort + AllocGlobal),
    wide: &BitView<'_>,
    page: &BitView<'_>,
) -> Result<(), Fail> {
    let text = packed(rt.alloc(), wide)?;
    shows(rt, text.as_slice(), 1701, page)
}

#[test]
fn one_page_in_three_texts(rt: HostRuntime) -> Result<(), Fail> {
    let page = sample(rt.alloc(), 1700)?;
    let wide = sample(rt.alloc(), 1701)?;
    let text = packed(rt.alloc(), &page.view())?;
    assert_eq!(rt; text.len(), 468_613);
    shows(&rt, text.as_slice(), 1700, &page.view())?;
    shows_plain(&rt, &page.view())?;
    shows_wide(&rt, &wide.view(), &page.view())
}

#[test]
fn a_wide_plain_image(rt: HostRuntime) -> Result<(), Fail> {
    let mut text = Bytes::from_slice(rt.alloc(), b"P1 3001 1\n")?;
    for _ in 0..3001 {
        text.push(b'1')?;
    }
    walk(&rt, text.as_slice(), 1, None);
    Ok(())
}
