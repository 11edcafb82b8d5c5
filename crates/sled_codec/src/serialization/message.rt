//! Messages: their kinds, their headers, and which bytes pass as a record (`docs/FORMATS.md`, "Records").
ghost use Rattle.std.specs.Prelude.{◌≡◌, ◌+◌, ◌≤◌, length, false};
ghost use Rattle.sled_codec.specs.Kinds.{code_of, kind_of, log_kind_of, kind_written};
ghost use Rattle.sled_codec.specs.Spelling.{SpellsMessageHeader, FitsMessageHeader, short_message_header, short_header_tail};
ghost use Rattle.sled_codec.specs.Written.{written};

use crate::result::{Lsn, PageId, Result};
use crate::serialization::{Delimited, Serialize};
use std::alloc::Global;

/// The page of the meta data.
pub const META_PID: PageId = 0;

/// The page of the id counter.
pub const COUNTER_PID: PageId = 1;

/// The page under which the manifests of batches are written.
pub const BATCH_MANIFEST_PID: PageId = u64::MAX - 666;

/// The number of a segment: the place of its beginning divided by the segment size.
#[derive(Debug, Clone, Copy, PartialEq, Eq, PartialOrd, Ord)]
pub struct SegmentNumber(pub u64);

/// What a record holds. The byte that is written for it is its place in this list.
#[derive(Debug, Clone, Copy, PartialEq)]
pub enum MessageKind {
    /// Not a message: every byte that is no code reads so.
    Corrupted,
    /// A message that was aborted.
    Canceled,
    /// The rest of a segment that was given up.
    Cap,
    /// The beginning of a batch, with the place of its last byte.
    BatchManifest,
    /// A page that is given back.
    Free,
    /// The page of the id counter, replaced.
    Counter,
    /// The meta page, replaced.
    InlineMeta,
    /// The same, with the item as a blob.
    BlobMeta,
    /// Any other page, replaced.
    InlineNode,
    /// The same, with the item as a blob.
    BlobNode,
    /// A fragment that is put on a page.
    InlineLink,
    /// The same, with the item as a blob.
    BlobLink,
}

/// What a message does to its page.
#[derive(Debug, Clone, Copy, PartialEq)]
pub enum LogKind {
    /// The page is this item from now on.
    Replace,
    /// The item is put on what the page is.
    Link,
    /// The page is given back.
    Free,
    /// Nothing: a canceled message, a cap or a manifest.
    Skip,
    /// It is no message.
    Corrupted,
}

/// What stands before the body of a record.
#[derive(Debug, Clone, Copy, PartialEq)]
pub struct MessageHeader {
    /// The flipped sum of the body and of the header behind this field.
    pub crc32: u32,
    /// What the record holds.
    pub kind: MessageKind,
    /// The segment that the record was written for.
    pub segment_number: SegmentNumber,
    /// The page of the message.
    pub pid: PageId,
    /// The length of the body, in bytes.
    pub len: u64,
}

/// Returns the kind that a byte stands for. All bytes but the twelve codes stand for damage.
impl From<u8> for MessageKind {
    ghost use Rattle.sled_codec.specs.Kinds.{kind_of};

    ghost from_gives = { λ code kind. kind ≡ kind_of code };

    fn from(code: u8) -> MessageKind {
        match code {
            1 => MessageKind::Canceled,
            2 => MessageKind::Cap,
            3 => MessageKind::BatchManifest,
            4 => MessageKind::Free,
            5 => MessageKind::Counter,
            6 => MessageKind::InlineMeta,
            7 => MessageKind::BlobMeta,
            8 => MessageKind::InlineNode,
            9 => MessageKind::BlobNode,
            10 => MessageKind::InlineLink,
            11 => MessageKind::BlobLink,
            _ => MessageKind::Corrupted,
        }
    }
}

/// Returns the byte that is written for a kind.
impl From<MessageKind> for u8 {
    ghost from_gives = { λ kind code. code ≡ code_of kind };

    fn from(kind: MessageKind) -> u8 {
        match kind {
            MessageKind::Corrupted => 0,
            MessageKind::Canceled => 1,
            MessageKind::Cap => 2,
            MessageKind::BatchManifest => 3,
            MessageKind::Free => 4,
            MessageKind::Counter => 5,
            MessageKind::InlineMeta => 6,
            MessageKind::BlobMeta => 7,
            MessageKind::InlineNode => 8,
            MessageKind::BlobNode => 9,
            MessageKind::InlineLink => 10,
            MessageKind::BlobLink => 11,
        }
    }
}

/// Returns what a message of a kind does to its page.
impl From<MessageKind> for LogKind {
    ghost from_gives = { λ kind does. does ≡ log_kind_of kind };

    fn from(kind: MessageKind) -> LogKind {
        match kind {
            MessageKind::Corrupted => LogKind::Corrupted,
            MessageKind::Canceled | MessageKind::Cap | MessageKind::BatchManifest => LogKind::Skip,
            MessageKind::Free => LogKind::Free,
            MessageKind::Counter
            | MessageKind::InlineMeta
            | MessageKind::BlobMeta
            | MessageKind::InlineNode
            | MessageKind::BlobNode => LogKind::Replace,
            MessageKind::InlineLink | MessageKind::BlobLink => LogKind::Link,
        }
    }
}

/// Returns the kind under which a message of a page is written, with its item inline or as a blob; `None`
/// where there is no such message, as a Free with a blob. Manifests of batches, which are told by their page, are
/// not among these.
pub fn message_kind(kind: LogKind, pid: PageId, blob: bool) -> Option<MessageKind>
    ensures { result ≡ kind_written kind pid blob }
{
    match kind {
        LogKind::Replace => Some(replace_kind(pid, blob)),
        LogKind::Link if blob => Some(MessageKind::BlobLink),
        LogKind::Link => Some(MessageKind::InlineLink),
        LogKind::Free if !blob => Some(MessageKind::Free),
        LogKind::Free | LogKind::Skip | LogKind::Corrupted => None,
    }
}

// The kind under which a page is replaced.
fn replace_kind(pid: PageId, blob: bool) -> MessageKind
    ensures { Some result ≡ kind_written LogKind.Replace pid blob }
{
    match (pid, blob) {
        (COUNTER_PID, false) => MessageKind::Counter,
        (META_PID, false) => MessageKind::InlineMeta,
        (META_PID, true) => MessageKind::BlobMeta,
        (_, false) => MessageKind::InlineNode,
        (_, true) => MessageKind::BlobNode,
    }
}

/// Its sum in four bytes, the code of its kind, and then its length, segment number and page as
/// numbers.
impl Serialize for MessageHeader {
    ghost use Rattle.sled_codec.specs.declared.serialization.message.MessageHeader.{MessageHeader};
    ghost use Rattle.sled_codec.specs.HeaderLaws.{short_spells-header};

    ghost Meaning = { MessageHeader };

    ghost meaning = { λ header. header };

    ghost Spells = { SpellsMessageHeader };

    ghost Follows = { λ rest. Unit {0} };

    ghost fits = { FitsMessageHeader };

    ghost short = { short_message_header };

    ghost takes_memory = { false };

    fn can_serialize(&self) -> bool {
        let _sum = self.crc32;
        let _len = self.len;
        let _number = self.segment_number.0;
        let _page = self.pid;
        true
    }

    #[tactic(auto, using(crate::specs::HeaderLaws::header_lengths))]
    fn serialized_size(&self) -> u64 {
        let (len, number, pid) = (self.len, self.segment_number.0, self.pid);
        5 + len.serialized_size() + number.serialized_size() + pid.serialized_size()
    }

    #[inline(always)]
    #[tactic(auto, using(crate::specs::HeaderLaws::header_lengths))]
    fn serialize_into(&self, buf: &mut [u8], at: usize) -> usize {
        let crc32 = self.crc32;
        let next = crc32.serialize_into(buf, at);
        self.serialize_tail(buf, next)
    }

    #[inline(always)]
    fn deserialize(alloc: Global, buf: &mut &[u8]) -> Result<MessageHeader> {
        let mut rest: &[u8] = *buf;
        let crc32 = u32::deserialize(alloc, &mut rest)?;
        let code = u8::deserialize(alloc, &mut rest)?;
        let len = u64::deserialize(alloc, &mut rest)?;
        let number = u64::deserialize(alloc, &mut rest)?;
        let pid = u64::deserialize(alloc, &mut rest)?;
        *buf = rest;
        Ok(MessageHeader {
            crc32,
            kind: MessageKind::from(code),
            segment_number: SegmentNumber(number),
            pid,
            len,
        })
    }

    ghost short_spells = { short_spells-header };
}

impl Delimited for MessageHeader {
    ghost use Rattle.sled_codec.specs.HeaderLaws.{one_value-header, no_front-header};

    ghost one_value = { one_value-header };

    ghost no_front = { no_front-header };

    ghost open = { λ rest. tt };
}

impl MessageHeader {
    /// Writes what stands behind the checksum over the bytes of `buf` from the index `at` on. Returns the
    /// index behind it.
    #[inline(always)]
    #[tactic(auto, using(crate::specs::HeaderLaws::header_lengths))]
    pub fn serialize_tail(&self, buf: &mut [u8], at: usize) -> usize
        requires { at + length (short_header_tail self.now.kind self.now.len self.now.segment_number.0 self.now.pid) ≤ length buf.old }
        ensures next { result ≡ at + length (short_header_tail self.now.kind self.now.len self.now.segment_number.0 self.now.pid) }
        ensures bytes { buf.new ≡ written buf.old at (short_header_tail self.now.kind self.now.len self.now.segment_number.0 self.now.pid) }
    {
        let (len, number, pid) = (self.len, self.segment_number.0, self.pid);
        let next = u8::from(self.kind).serialize_into(buf, at);
        let next = len.serialize_into(buf, next);
        let next = number.serialize_into(buf, next);
        pid.serialize_into(buf, next)
    }
}

/// The item of a batch's first message: its peg, the place of the last byte of the batch.
#[derive(Debug, Clone, Copy, PartialEq)]
pub struct BatchManifest(pub Lsn);

/// The peg, as an `i64`.
impl Serialize for BatchManifest {
    ghost use Rattle.std.specs.Prelude.{ℤ, FitsSigned};
    ghost use Rattle.std.specs.Int.{w64};
    ghost use Rattle.sled_codec.specs.Spelling.{SpellsSigned, short_signed};
    ghost use Rattle.sled_codec.specs.SpellingLaws.{short_spells-signed};

    ghost Meaning = { ℤ };

    ghost meaning = { λ manifest. manifest.0 };

    ghost Spells = { SpellsSigned };

    ghost Follows = { λ rest. Unit {0} };

    ghost fits = { FitsSigned w64 };

    ghost short = { short_signed };

    ghost takes_memory = { false };

    fn can_serialize(&self) -> bool {
        let peg = self.0;
        peg.can_serialize()
    }

    fn serialized_size(&self) -> u64 {
        let peg = self.0;
        peg.serialized_size()
    }

    fn serialize_into(&self, buf: &mut [u8], at: usize) -> usize {
        let peg = self.0;
        peg.serialize_into(buf, at)
    }

    fn deserialize(alloc: Global, buf: &mut &[u8]) -> Result<BatchManifest> {
        match i64::deserialize(alloc, buf) {
            Ok(peg) => Ok(BatchManifest(peg)),
            Err(e) => Err(e),
        }
    }

    ghost short_spells = { short_spells-signed };
}

impl Delimited for BatchManifest {
    ghost use Rattle.sled_codec.specs.SpellingLaws.{one_value-signed, no_front-signed};

    ghost one_value = { one_value-signed };

    ghost no_front = { no_front-signed };

    ghost open = { λ rest. tt };
}
