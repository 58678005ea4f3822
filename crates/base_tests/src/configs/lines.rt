//! Texts of lines.
use std::alloc::Global;
use std::test::Fail;

// A line with 64 hexadecimal digits.
const MASTER: &str = "master 00112233445566778899aAbBcCdDeEfF0123456789abcdefFEDCBA9876543210";

// The bytes of these digits.
const KEY: [u8; 32] = [
    0x00, 0x11, 0x22, 0x33, 0x44, 0x55, 0x66, 0x77, 0x88, 0x99, 0xaa, 0xbb, 0xcc, 0xdd, 0xee, 0xff,
    0x01, 0x23, 0x45, 0x67, 0x89, 0xab, 0xcd, 0xef, 0xfe, 0xdc, 0xba, 0x98, 0x76, 0x54, 0x32, 0x10,
];

/// That line. Like the next one it promises nothing: a proof unfolds a constant wherever it is named.
pub(crate) fn master() -> &'static str {
    MASTER
}

/// The bytes of its digits.
pub(crate) fn key() -> [u8; 32] {
    KEY
}

/// The text of these lines.
pub(crate) fn text_of(alloc: Global, lines: &[&str]) -> Result<String, Fail> {
    let mut text = String::new(alloc);
    for line in lines {
        text.push_str(line)?;
        text.push_str("\n")?;
    }
    Ok(text)
}
