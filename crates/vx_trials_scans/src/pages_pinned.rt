//! The pages for browsers: their heads and tails as they are tried there, and that their policies let their own scripts
//! in alone.

use crate::desks::page_of;
use base64::engine::general_purpose::STANDARD;
use sha2::{Digest, Sha256};
use std::alloc::Global;
use std::test::Fail;
use vx_base::Bytes;
use vx_board::{push_head, push_tail};

/// What `sha256sum` says of `desk/head.html` with `desk/tail.html` behind it.
const DESK_SUM: [u8; 32] = [
    0x6f, 0xfa, 0x8f, 0x51, 0xae, 0x94, 0x51, 0xc9, 0x33, 0x05, 0xe7, 0xbd, 0x2f, 0x99, 0x31, 0xad,
    0x57, 0x74, 0xa4, 0x17, 0x00, 0x99, 0xb5, 0x45, 0xc7, 0x44, 0x76, 0xf4, 0x27, 0xe1, 0xff, 0x71,
];

/// What `sha256sum` says of `board/head.html` with `board/tail.html` behind it.
const BOARD_SUM: [u8; 32] = [
    0xac, 0x39, 0x2a, 0x88, 0xec, 0x3f, 0x31, 0x42, 0x67, 0xbc, 0xea, 0xa7, 0x4e, 0xb7, 0x1d, 0x68,
    0x40, 0xfd, 0x7b, 0x1e, 0x4d, 0x30, 0xc4, 0x9d, 0xfa, 0x59, 0x64, 0x88, 0x35, 0xfb, 0xbe, 0x78,
];

/// The page for those who hold the paper, without data.
fn board_page(alloc: Global) -> Result<Bytes, Fail> {
    let mut page = Bytes::new(alloc);
    push_head(&mut page)?;
    push_tail(&mut page)?;
    Ok(page)
}

#[test]
fn the_desk_is_the_one_that_is_tried_in_browsers(rt: HostRuntime) -> Result<(), Fail> {
    let page = page_of(rt.alloc(), "")?;
    assert!(rt; Sha256::digest(page.as_slice()) == DESK_SUM);
    Ok(())
}

#[test]
fn the_board_is_the_one_that_is_tried_in_browsers(rt: HostRuntime) -> Result<(), Fail> {
    let page = board_page(rt.alloc())?;
    assert!(rt; Sha256::digest(page.as_slice()) == BOARD_SUM);
    Ok(())
}

/// What stands in a text between two others.
fn between<'t>(text: &'t str, before: &str, behind: &str) -> Option<&'t str> {
    let (_head, rest) = text.split_once(before)?;
    let (found, _tail) = rest.split_once(behind)?;
    Some(found)
}

/// Whether the policy of a page has this word for the hash of what stands between two tags.
fn names_hash(alloc: Global, page: &str, word: &str, tags: (&str, &str)) -> Result<bool, Fail> {
    let named = between(page, word, "'").ok_or("no hash")?;
    let text = between(page, tags.0, tags.1).ok_or("no element")?;
    let hash = STANDARD.encode(alloc, &Sha256::digest(text.as_bytes()))?;
    Ok(named == hash.as_str())
}

/// Whether the policy of a page names the hash of its own script.
fn names_script(alloc: Global, page: &Bytes) -> Result<bool, Fail> {
    let page = str::from_utf8(page.as_slice())?;
    let tags = ("<script>", "</script>");
    names_hash(alloc, page, "; script-src 'sha256-", tags)
}

/// Whether it names that of its own style.
fn names_style(alloc: Global, page: &Bytes) -> Result<bool, Fail> {
    let page = str::from_utf8(page.as_slice())?;
    let tags = ("<style>", "</style>");
    names_hash(alloc, page, "; style-src 'sha256-", tags)
}

#[test]
fn the_policy_names_the_desk_s_own_script_and_style(rt: HostRuntime) -> Result<(), Fail> {
    let alloc = rt.alloc();
    let page = page_of(alloc, "")?;
    assert!(rt; names_script(alloc, &page)?);
    assert!(rt; names_style(alloc, &page)?);
    Ok(())
}

#[test]
fn the_policy_names_the_board_s_own_script_and_style(rt: HostRuntime) -> Result<(), Fail> {
    let alloc = rt.alloc();
    let page = board_page(alloc)?;
    assert!(rt; names_script(alloc, &page)?);
    assert!(rt; names_style(alloc, &page)?);
    Ok(())
}
