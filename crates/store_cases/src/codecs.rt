//! The codecs of all types: `TYPE VALUE -> LENGTH HEX` for what is written, `none` for a value without an
//! encoding, and `TYPE.dec HEX -> VALUE left N`, or `error`, for what is read.

use case_lines::lines::{Words, bytes, number, number_or_dash, pointer, signed, signed_or_dash};
use case_lines::texts::{Text, entry, freed, present};
use sled_codec::result::{DiskPtr, Error};
use sled_codec::serialization::snapshot::{Entry, PageState, Snapshot};
use sled_codec::serialization::{
    BatchManifest, MessageHeader, MessageKind, Meta, SegmentNumber, Serialize,
};
use std::alloc::Global;
use std::collections::BTreeMap;
use std::num::NonZeroU64;

/// Writes what came of a line.
pub fn answer(alloc: Global, asked: &str, out: &mut Text) {
    let (name, value) = asked.split_once(' ').unwrap_or((asked, ""));
    let case = Case {
        alloc,
        is_read: name.ends_with(".dec"),
        value,
    };
    of_numbers(&case, name.strip_suffix(".dec").unwrap_or(name), out);
}

// What a line asks for: a value that is written, or bytes that are read.
#[derive(Drop)]
struct Case<'a> {
    alloc: Global,
    is_read: bool,
    value: &'a str,
}

fn of_numbers(case: &Case<'_>, name: &str, out: &mut Text) {
    match name {
        "u64" => both_ways::<u64>(case, out),
        "i64" => both_ways::<i64>(case, out),
        "u32" => both_ways::<u32>(case, out),
        "u8" => both_ways::<u8>(case, out),
        "bool" => both_ways::<bool>(case, out),
        "unit" => both_ways::<()>(case, out),
        "bytes" => both_ways::<Vec<u8>>(case, out),
        "opt_u64" => both_ways::<Option<u64>>(case, out),
        "opt_i64" => both_ways::<Option<i64>>(case, out),
        _ => of_parts(case, name, out),
    }
}

fn of_parts(case: &Case<'_>, name: &str, out: &mut Text) {
    match name {
        "opt_nz" => both_ways::<Option<NonZeroU64>>(case, out),
        "ptr" => both_ways::<DiskPtr>(case, out),
        "manifest" => both_ways::<BatchManifest>(case, out),
        "head" => both_ways::<MessageHeader>(case, out),
        "triple" => both_ways::<Entry>(case, out),
        "pair" => both_ways::<(bool, u8)>(case, out),
        "state" => both_ways::<PageState>(case, out),
        "snapshot" => both_ways::<Snapshot>(case, out),
        "meta" => both_ways::<Meta>(case, out),
        _ => out.push("no such type"),
    }
}

/// A type whose values stand in the lines of this file.
pub trait Shown: Serialize + Drop {
    /// The value of a text; `None` where it is none, or memory is refused.
    fn of_text(alloc: Global, text: &str) -> Option<Self>;

    /// Writes the text of the value.
    fn show(&self, out: &mut Text);
}

// Writes the encoding of a value, or what is read from bytes.
fn both_ways<T: Shown>(case: &Case<'_>, out: &mut Text) {
    if case.is_read {
        match bytes(case.alloc, case.value) {
            Some(bytes) => read::<T>(case.alloc, &bytes, out),
            None => out.push("these are no bytes"),
        }
        return;
    }
    match T::of_text(case.alloc, case.value) {
        Some(value) => written(case.alloc, &value, out),
        None => out.push("this is no value"),
    }
}

// Writes the encoding of a value: its length and its bytes.
fn written<T: Shown>(alloc: Global, value: &T, out: &mut Text) {
    if !value.can_serialize() {
        out.push("none");
        return;
    }
    match value.serialize(alloc) {
        Ok(bytes) => {
            out.number(value.serialized_size());
            out.push(" ");
            out.hex(&bytes);
        }
        Err(_) => out.push("out of memory"),
    }
}

// Writes what is read from bytes, and how many are left. After an error all of them are.
fn read<T: Shown>(alloc: Global, bytes: &[u8], out: &mut Text) {
    let mut rest = bytes;
    match T::deserialize(alloc, &mut rest) {
        Ok(value) => {
            value.show(out);
            out.push(" left ");
            out.number(rest.len() as u64);
        }
        Err(e) => out.push(unread(&e, rest.len() == bytes.len())),
    }
}

// The name of an error of reading, after which all bytes are left.
fn unread(e: &Error, is_unmoved: bool) -> &'static str {
    match e {
        Error::Corruption { at: None } if is_unmoved => "error",
        _ => "another error",
    }
}

impl Shown for u64 {
    fn of_text(_alloc: Global, text: &str) -> Option<u64> {
        number(text)
    }

    fn show(&self, out: &mut Text) {
        out.number(*self);
    }
}

impl Shown for i64 {
    fn of_text(_alloc: Global, text: &str) -> Option<i64> {
        signed(text)
    }

    fn show(&self, out: &mut Text) {
        out.signed(*self);
    }
}

impl Shown for u32 {
    fn of_text(_alloc: Global, text: &str) -> Option<u32> {
        text.parse().ok()
    }

    fn show(&self, out: &mut Text) {
        out.number(u64::from(*self));
    }
}

impl Shown for u8 {
    fn of_text(_alloc: Global, text: &str) -> Option<u8> {
        text.parse().ok()
    }

    fn show(&self, out: &mut Text) {
        out.number(u64::from(*self));
    }
}

impl Shown for bool {
    fn of_text(_alloc: Global, text: &str) -> Option<bool> {
        match text {
            "false" => Some(false),
            "true" => Some(true),
            _ => None,
        }
    }

    fn show(&self, out: &mut Text) {
        out.truth(*self);
    }
}

impl Shown for () {
    fn of_text(_alloc: Global, _text: &str) -> Option<()> {
        Some(())
    }

    fn show(&self, out: &mut Text) {
        out.push("()");
    }
}

impl Shown for Vec<u8> {
    fn of_text(alloc: Global, text: &str) -> Option<Vec<u8>> {
        bytes(alloc, text)
    }

    fn show(&self, out: &mut Text) {
        out.hex(self);
    }
}

impl Shown for Option<u64> {
    fn of_text(_alloc: Global, text: &str) -> Option<Option<u64>> {
        number_or_dash(text)
    }

    fn show(&self, out: &mut Text) {
        out.number_or_dash(*self);
    }
}

impl Shown for Option<i64> {
    fn of_text(_alloc: Global, text: &str) -> Option<Option<i64>> {
        signed_or_dash(text)
    }

    fn show(&self, out: &mut Text) {
        out.signed_or_dash(*self);
    }
}

impl Shown for Option<NonZeroU64> {
    fn of_text(_alloc: Global, text: &str) -> Option<Option<NonZeroU64>> {
        match number_or_dash(text)? {
            None => Some(None),
            Some(n) => Some(NonZeroU64::new(n)),
        }
    }

    fn show(&self, out: &mut Text) {
        match self {
            None => out.push("-"),
            Some(n) => out.number(n.get()),
        }
    }
}

impl Shown for DiskPtr {
    fn of_text(_alloc: Global, text: &str) -> Option<DiskPtr> {
        pointer(text)
    }

    fn show(&self, out: &mut Text) {
        out.pointer(*self);
    }
}

impl Shown for BatchManifest {
    fn of_text(_alloc: Global, text: &str) -> Option<BatchManifest> {
        match signed(text) {
            Some(peg) => Some(BatchManifest(peg)),
            None => None,
        }
    }

    fn show(&self, out: &mut Text) {
        out.signed(self.0);
    }
}

// The number behind the name of a field, as in `len=4`.
fn field(words: &mut Words<'_>) -> u64 {
    match words.word().split_once('=') {
        Some((_, value)) => words.noted(number(value), "this is no number").unwrap_or(0),
        None => {
            words.bad("a field has a name and a number");
            0
        }
    }
}

// The number behind the name of a field, where it is of four bytes.
fn field32(words: &mut Words<'_>) -> u32 {
    let n = u32::try_from(field(words)).ok();
    words.noted(n, "this number is too wide").unwrap_or(0)
}

// The number behind the name of a field, where it is of one byte.
fn field8(words: &mut Words<'_>) -> u8 {
    let n = u8::try_from(field(words)).ok();
    words.noted(n, "this number is too wide").unwrap_or(0)
}

impl Shown for MessageHeader {
    fn of_text(_alloc: Global, text: &str) -> Option<MessageHeader> {
        let mut words = Words::new(text);
        let (crc32, kind) = (field32(&mut words), MessageKind::from(field8(&mut words)));
        let len = field(&mut words);
        let segment_number = SegmentNumber(field(&mut words));
        let pid = field(&mut words);
        words.end().ok()?;
        Some(MessageHeader {
            crc32,
            kind,
            segment_number,
            pid,
            len,
        })
    }

    fn show(&self, out: &mut Text) {
        out.push("crc=");
        out.number(u64::from(self.crc32));
        out.push(" kind=");
        out.number(u64::from(u8::from(self.kind)));
        out.push(" len=");
        out.number(self.len);
        out.push(" num=");
        out.number(self.segment_number.0);
        out.push(" pid=");
        out.number(self.pid);
    }
}

impl Shown for Entry {
    fn of_text(_alloc: Global, text: &str) -> Option<Entry> {
        entry(text)
    }

    fn show(&self, out: &mut Text) {
        out.entry(self);
    }
}

impl Shown for (bool, u8) {
    fn of_text(alloc: Global, text: &str) -> Option<(bool, u8)> {
        let (flag, byte) = text.split_once(' ')?;
        Some((bool::of_text(alloc, flag)?, u8::of_text(alloc, byte)?))
    }

    fn show(&self, out: &mut Text) {
        let (flag, byte) = *self;
        out.truth(flag);
        out.push(" ");
        out.number(u64::from(byte));
    }
}

impl Shown for PageState {
    fn of_text(alloc: Global, text: &str) -> Option<PageState> {
        if text == "uninitialized" {
            return Some(PageState::Uninitialized);
        }
        match text.strip_prefix("free(") {
            Some(behind) => freed(behind.strip_suffix(')').unwrap_or(behind)),
            None => present(alloc, text, "+"),
        }
    }

    fn show(&self, out: &mut Text) {
        match self {
            PageState::Present { base, frags } => out.entries(base, frags, "+"),
            PageState::Free(place, at) => {
                out.push("free(");
                out.spot(*place, *at);
                out.push(")");
            }
            PageState::Uninitialized => out.push("uninitialized"),
        }
    }
}

// The value behind the name of a field, as in `stable=-`.
fn value_of(word: Option<&str>) -> Option<&str> {
    let (_, value) = word?.split_once('=')?;
    Some(value)
}

// The pages of a text, each with a space behind it but the last one.
fn pages_of(alloc: Global, text: &str) -> Option<Vec<PageState>> {
    let mut pt = Vec::new(alloc);
    for page in text.split(") ") {
        if page != "]" {
            let page = page.strip_suffix(']').unwrap_or(page);
            pt.push(PageState::of_text(alloc, page)?).ok()?;
        }
    }
    Some(pt)
}

impl Shown for Snapshot {
    fn of_text(alloc: Global, text: &str) -> Option<Snapshot> {
        let (front, pages) = text.split_once(" [")?;
        let mut words = Words::new(front);
        let stable_lsn = signed_or_dash(value_of(words.next_word())?)?;
        let active_segment = number_or_dash(value_of(words.next_word())?)?;
        Some(Snapshot {
            stable_lsn,
            active_segment,
            pt: pages_of(alloc, pages)?,
        })
    }

    fn show(&self, out: &mut Text) {
        out.push("stable=");
        out.signed_or_dash(self.stable_lsn);
        out.push(" active=");
        out.number_or_dash(self.active_segment);
        out.push(" pages=");
        out.number(self.pt.len() as u64);
        out.push(" [");
        for (i, page) in self.pt.iter().enumerate() {
            if i > 0 {
                out.push(" ");
            }
            page.show(out);
        }
        out.push("]");
    }
}

impl Shown for Meta {
    fn of_text(alloc: Global, text: &str) -> Option<Meta> {
        let mut inner = BTreeMap::new(alloc);
        for pair in text.split(' ') {
            if let Some((name, page)) = pair.split_once(':') {
                inner.insert(bytes(alloc, name)?, number(page)?).ok()?;
            }
        }
        Some(Meta { inner })
    }

    fn show(&self, out: &mut Text) {
        out.push("{");
        for (name, page) in self.inner.iter() {
            out.push(" ");
            out.hex(name);
            out.push(":");
            out.number(*page);
        }
        out.push(" }");
    }
}
