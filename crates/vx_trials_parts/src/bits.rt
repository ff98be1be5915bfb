use std::test::Fail;
use vx_bits::*;

#[test]
fn rasters(rt: HostRuntime) -> Result<(), Fail> {
    let mut page = BitPage::new(rt.alloc(), 10, 2)?;
    page.set_dark(0, 0, true);
    page.darken(7, 1, 9, 9);
    let mut into = Bytes::new(rt.alloc());
    page.view().append_raster(&mut into)?;
    BitView::new(3, 2, &[0xbf, 0x5f]).append_raster(&mut into)?;
    assert_eq!(rt; into.as_slice(), [0x80, 0, 1, 0xc0, 0xa0, 0x40].as_slice());
    Ok(())
}

fn crosses_threads<T: Send + Sync>(_value: &T) {}

#[test]
fn threads_may_share(rt: HostRuntime) -> Result<(), Fail> {
    let page = BitPage::new(rt.alloc(), 1, 1)?;
    crosses_threads(&page);
    crosses_threads(&page.view());
    Ok(())
}
