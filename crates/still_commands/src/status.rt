//! The exit statuses.

/// What is asked for was sent.
pub const DONE: u8 = 0;
/// The words are no command's words.
pub const BAD_WORDS: u8 = 2;
/// The folder failed.
pub const FOLDER_FAILED: u8 = 3;
/// `out` failed.
pub const OUT_FAILED: u8 = 4;
/// A weight file has a faulty line.
pub const BAD_FILE: u8 = 5;
/// The files don't agree.
pub const BAD_FILES: u8 = 6;
/// The file of pairs has a faulty line.
pub const BAD_PAIRS: u8 = 7;
/// A script is too long.
pub const LONG_SCRIPT: u8 = 7;
/// An end of the query is no node, or the query passes its budget; a line on `out` says which.
pub const REFUSED: u8 = 8;
/// The town failed, or one of its doors.
pub const TOWN_FAILED: u8 = 10;
/// The certificate has a faulty line.
pub const BAD_CERT: u8 = 11;
/// A rule fails at a label of the certificate.
pub const FAILED_RULE: u8 = 12;
/// Memory ran out.
pub const WANT_OF_MEMORY: u8 = 9;
