//! Readings of the town's pages, as another program made them.

use std::alloc::Global;
use std::test::Fail;

/// The timing marks of a clean page.
pub(crate) const BORDER: &str =
    "border 56,59 105,59 153,59 201,59 249,59 297,59 345,59 393,59 441,59 489,59 537,59 585,59 633,59 681,59 729,59 777,59 825,59 873,59 921,59 969,59 1017,59 1065,59 1113,59 1161,59 1209,59 1257,59 1305,59 1353,59 1401,59 1449,59 1497,59 1545,59 1593,59 1641,59 1641,111 1641,163 1641,215 1641,267 1641,319 1641,371 1641,423 1641,475 1641,527 1641,579 1641,631 1641,683 1641,735 1641,787 1641,839 1641,891 1641,943 1641,995 1641,1047 1641,1099 1641,1151 1641,1203 1641,1255 1641,1307 1641,1359 1641,1411 1641,1463 1641,1515 1641,1567 1641,1619 1641,1671 1641,1723 1641,1775 1641,1827 1641,1879 1641,1931 1641,1983 1641,2035 1641,2087 1641,2139 57,111 57,163 57,215 57,267 57,319 57,371 57,423 57,475 57,527 57,579 57,631 57,683 57,735 57,787 57,839 57,891 57,943 57,995 57,1047 57,1099 57,1151 57,1203 57,1255 57,1307 57,1359 57,1411 57,1463 57,1515 57,1567 57,1619 57,1671 57,1723 57,1775 57,1827 57,1879 57,1931 57,1983 57,2035 57,2087 57,2139 105,2139 153,2139 201,2139 249,2139 297,2139 345,2139 393,2139 441,2139 489,2139 537,2139 585,2139 633,2139 681,2139 729,2139 777,2139 825,2139 873,2139 921,2139 969,2139 1017,2139 1065,2139 1113,2139 1161,2139 1209,2139 1257,2139 1305,2139 1353,2139 1401,2139 1449,2139 1497,2139 1545,2139 1593,2139\n";

/// The bubbles of the first page without a mark.
pub(crate) const CLEAR: &str = "bubble 0 0 0 0 clear\nbubble 1 0 1 0 clear\n";

/// The bubbles of the first page with 96 pixels dark in the second.
pub(crate) const MARKED: &str = "bubble 0 0 0 0 clear\nbubble 1 0 1 96 marked\n";

/// The block of the first page, with a word behind its first line, and with these bubbles.
pub(crate) fn first_block(alloc: Global, word: &str, bubbles: &str) -> Result<String, Fail> {
    Ok(format!(in alloc; "page 1 card 0 side 1 kind precinct{word}\n{BORDER}{bubbles}end\n")?)
}

/// The readings of both clean pages.
pub(crate) fn both_blocks(alloc: Global) -> Result<String, Fail> {
    let first = first_block(alloc, "", CLEAR)?;
    Ok(format!(in alloc; "{first}page 2 card 0 side 2 kind precinct\n{BORDER}end\n")?)
}

/// A text with a piece in the place of the first one that is another.
pub(crate) fn with_piece(alloc: Global, text: &str, old: &str, new: &str) -> Result<String, Fail> {
    let (front, behind) = text.split_once(old).ok_or("no such piece")?;
    Ok(format!(in alloc; "{front}{new}{behind}")?)
}
