//! A `desk` over devices in memory.

use crate::desk_printed::Sheet;
use crate::devices::{Answer, Devices, Failing, answer_of, devices_of, few, push_file, texts_of};
use sha2::{Digest, Sha256};
use std::alloc::{AllocError, Global};
use std::test::Fail;
use vx_base::Bytes;
use vx_command::{Status, status_of};
use vx_command_desk::desk;
use vx_desk::{push_head, push_tail};
use vx_io::NamedBytes;
use vx_json::Texts;
use vx_town::records_of;

/// What is asked: the election, the records of its journal, the batch and the scans.
#[derive(Clone, Copy)]
pub(crate) struct Asked<'a> {
    pub(crate) election: &'a str,
    pub(crate) records: &'a [&'a str],
    pub(crate) batch: &'a str,
    pub(crate) scans: &'a [&'a str],
}

/// The files of a `desk`: both pages of the sheet as `sheet`, each alone as `front` and `back`, and the front
/// upside down as `over`.
fn files_of(alloc: Global, election: &str, sheet: &Sheet) -> Result<NamedBytes, AllocError> {
    let mut files = few(alloc, election)?;
    let (front, back) = (sheet.front.as_slice(), sheet.back.as_slice());
    push_file(alloc, &mut files, "sheet", front, back)?;
    push_file(alloc, &mut files, "front", front, b"")?;
    push_file(alloc, &mut files, "back", back, b"")?;
    push_file(alloc, &mut files, "over", sheet.over.as_slice(), b"")?;
    Ok(files)
}

/// Does it over devices.
fn ask(
    alloc: Global,
    asked: Asked<'_>,
    names: &Texts,
    devices: &mut Devices,
) -> Result<Status, Fail> {
    if names.len() > 64 {
        return Err(Fail::from("too many scans"));
    }
    let Devices {
        inputs,
        out,
        keeper,
    } = devices;
    Ok(status_of(desk(alloc, "e", asked.batch, names, inputs, out, keeper)))
}

/// Does what is asked, where the sheet's pages are among the files.
pub(crate) fn attempt(
    alloc: Global,
    asked: Asked<'_>,
    sheet: &Sheet,
    failing: Failing<'_>,
) -> Result<Answer, Fail> {
    let files = files_of(alloc, asked.election, sheet)?;
    let records = records_of(alloc, asked.records)?;
    let names = texts_of(alloc, asked.scans)?;
    let mut devices = devices_of(alloc, files, records, failing)?;
    let status = ask(alloc, asked, &names, &mut devices)?;
    Ok(answer_of(alloc, &status, &devices)?)
}

/// The page with these data.
pub(crate) fn page_of(alloc: Global, lines: &str) -> Result<Bytes, Fail> {
    let mut page = Bytes::new(alloc);
    push_head(&mut page)?;
    page.extend_from_slice(lines.as_bytes())?;
    push_tail(&mut page)?;
    Ok(page)
}

/// The head of the page, and these data behind it.
pub(crate) fn begun_page(alloc: Global, lines: &str) -> Result<Bytes, Fail> {
    let mut page = Bytes::new(alloc);
    push_head(&mut page)?;
    page.extend_from_slice(lines.as_bytes())?;
    Ok(page)
}

/// Whether an answer is this status with this text.
pub(crate) fn is_answer(answer: &Answer, status: &str, text: &Bytes) -> bool {
    answer.status.as_str() == status && answer.text.as_slice() == text.as_slice()
}

/// The data of a page.
fn data_of(alloc: Global, page: &[u8]) -> Result<&str, Fail> {
    let head = begun_page(alloc, "")?;
    let around = page_of(alloc, "")?;
    let size = page.len().checked_sub(around.len()).ok_or("no page")?;
    let data = page.get(head.len()..).ok_or("no data")?;
    Ok(str::from_utf8(data.get(..size).ok_or("no tail")?)?)
}

/// The sum of the data of a page without the first such text in them, by SHA-256.
pub fn sum_without(alloc: Global, page: &[u8], member: &str) -> Result<[u8; 32], Fail> {
    let (front, behind) = data_of(alloc, page)?.split_once(member).ok_or("no member")?;
    let mut data = Bytes::from_slice(alloc, front.as_bytes())?;
    data.extend_from_slice(behind.as_bytes())?;
    Ok(Sha256::digest(data.as_slice()))
}
