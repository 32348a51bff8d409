//! The page of the journal: its frames from a number on, in hexadecimal.

ghost use Rattle.al_fields.specs.Members.{fields_by, object_of};
ghost use Rattle.al_office.specs.Images.{frames_of};
ghost use Rattle.al_restconf.specs.Members.{member_data, page_shown};
ghost use Rattle.al_restconf.specs.Pages.{front_within, page_of};
ghost use Rattle.hex.specs.Hex.{encode_lower};
ghost use Rattle.std.specs.Prelude.{◌≡◌, ◌≤◌, ◌<◌, ◌+◌, ◌-◌, ◌++◌, ◌∷◌, [], IfOk, OnOk, drop, length, map, option_map, slice_get};

use al_base::Text;
use al_disk::Disk;
use al_fields::{Field, Items, Leaf, Object, Series, Shown, object};
use al_frame::encode;
use al_office::journaled::Office;
use serde_json::Value;
use std::alloc::{AllocError, Global};

/// The most bytes of a page's frames.
const MOST_BYTES: usize = 1_048_576;

/// The most entries of a page behind its first one.
const MORE_ENTRIES: usize = 63;

/// The frame of the entry with this number, counted from 0.
fn frame_at<D: Disk>(
    alloc: Global,
    office: &Office<D>,
    n: usize,
) -> Result<Option<Vec<u8>>, AllocError>
    ensures { IfOk result (λ frame.
        option_map (λ f. f.items) frame ≡ slice_get (frames_of office.now.entries) n) }
{
    office.keeps_its_history();
    match office.entry(n) {
        Some(entry) => Ok(Some(encode(alloc, entry)?)),
        None => Ok(None),
    }
}

/// The bytes in lower-case hexadecimal.
fn text_of(alloc: Global, bytes: Vec<u8>) -> Result<Text, AllocError>
    ensures { IfOk result (λ text. text ≡ encode_lower bytes.items) }
{
    let digits = hex::encode(alloc, bytes)?;
    match Text::read(alloc, digits.as_bytes()) {
        Ok(text) => Ok(text),
        Err(_) => Err(AllocError),
    }
}

/// The frames of the page that begins with the entry of this number, each as text.
pub fn page_texts<D: Disk>(
    alloc: Global,
    office: &Office<D>,
    start: u32,
) -> Result<Vec<Text>, AllocError>
    ensures { IfOk result (λ texts.
        texts.items ≡ map encode_lower (page_of office.now.entries start)) }
{
    match frame_at(alloc, office, start as usize)? {
        Some(frame) => {
            let texts = texts_from(alloc, office, start as usize, frame)?;
            Ok(texts)
        }
        None => Ok(Vec::new(alloc)),
    }
}

/// The frames of a page whose first one is this frame, of the entry with this number.
fn texts_from<D: Disk>(
    alloc: Global,
    office: &Office<D>,
    first: usize,
    frame: Vec<u8>,
) -> Result<Vec<Text>, AllocError>
    requires { first < 4294967296 }
    ensures { IfOk result (λ texts.
        texts.items ≡ (encode_lower frame.items ∷ [])
        ++ map encode_lower (front_within 63 (1048576 - length frame.items)
        (drop (first + 1) (frames_of office.now.entries)))) }
{
    let room = MOST_BYTES.saturating_sub(frame.len());
    let mut texts = Vec::new(alloc);
    texts.push(text_of(alloc, frame)?)?;
    add_frames(alloc, office, first + 1, room, &mut texts)?;
    Ok(texts)
}

/// Adds the frames of a page behind its first one, as long as there is room for so many bytes.
fn add_frames<D: Disk>(
    alloc: Global,
    office: &Office<D>,
    next: usize,
    room: usize,
    texts: &mut Vec<Text>,
) -> Result<(), AllocError>
    requires { next ≤ 4294967296 }
    ensures { OnOk result (texts.new.items
        ≡ texts.old.items ++ map encode_lower
        (front_within 63 room (drop next (frames_of office.now.entries)))) }
{
    let mut left = room;
    for more in 0..MORE_ENTRIES {
        let Some(frame) = frame_at(alloc, office, next + more)? else {
            return Ok(());
        };
        if frame.len() > left {
            return Ok(());
        }
        left -= frame.len();
        texts.push(text_of(alloc, frame)?)?;
    }
    Ok(())
}

/// The texts of a page.
#[derive(Clone, Copy)]
struct Frames<'a>(&'a [Text]);

impl<'a> Series for Frames<'a> {
    ghost use Rattle.serde_json.specs.Data.{string};
    ghost use Rattle.std.specs.Prelude.{map};

    ghost trees = { λ s. map string s.0.now };

    fn count(&self) -> usize {
        self.0.len()
    }

    fn value_at(&self, alloc: Global, i: usize) -> Result<Option<Value>, AllocError> {
        match self.0.get(i) {
            Some(found) => Leaf::Text(found).value(alloc),
            None => Ok(None),
        }
    }

    fn put_at(&self, out: &mut Vec<u8>, i: usize) {
        if let Some(found) = self.0.get(i) {
            Leaf::Text(found).put(out);
        }
    }

    fn len_at(&self, i: usize) -> u64 {
        match self.0.get(i) {
            Some(found) => Leaf::Text(found).text_len(),
            None => 0,
        }
    }
}

/// What a member of the page says.
#[derive(Clone, Copy)]
pub enum Member<'a> {
    Leaf(Leaf<'a>),
    /// The frames.
    Frames(&'a [Text]),
}

impl Shown for Member<'_> {
    ghost use Rattle.al_restconf.specs.Members.{member_data};

    ghost said = { member_data };

    fn is_there(&self) -> bool {
        match self {
            Member::Leaf(leaf) => leaf.is_there(),
            Member::Frames(texts) => Items(Frames(texts)).is_there(),
        }
    }

    fn value(&self, alloc: Global) -> Result<Option<Value>, AllocError> {
        match self {
            Member::Leaf(leaf) => leaf.value(alloc),
            Member::Frames(texts) => Items(Frames(texts)).value(alloc),
        }
    }

    fn put(&self, out: &mut Vec<u8>) {
        match self {
            Member::Leaf(leaf) => leaf.put(out),
            Member::Frames(texts) => Items(Frames(texts)).put(out),
        }
    }

    fn text_len(&self) -> u64 {
        match self {
            Member::Leaf(leaf) => leaf.text_len(),
            Member::Frames(texts) => Items(Frames(texts)).text_len(),
        }
    }
}

#[tactic(auto, unfolding(crate::specs::Members::page_shown))]
fn page_object(texts: &[Text], len: u64) -> Object<[Field<Member<'_>>; 2]>
    ensures { object_of (fields_by member_data result.table) ≡ page_shown texts.now len }
{
    object! {
        "entry": Member::Frames(texts),
        "length": Member::Leaf(Leaf::Number(len)),
    }
}

/// A page of these texts, of a history of this length.
#[derive(Clone, Copy)]
pub struct Page<'a> {
    pub texts: &'a [Text],
    pub len: u64,
}

impl Shown for Page<'_> {
    ghost use Rattle.al_restconf.specs.Members.{page_shown};
    ghost use Rattle.std.specs.Prelude.{Some};

    ghost said = { λ page. Some (page_shown page.texts.now page.len) };

    fn is_there(&self) -> bool {
        true
    }

    fn value(&self, alloc: Global) -> Result<Option<Value>, AllocError> {
        page_object(self.texts, self.len).value(alloc)
    }

    fn put(&self, out: &mut Vec<u8>) {
        page_object(self.texts, self.len).put(out);
    }

    fn text_len(&self) -> u64 {
        page_object(self.texts, self.len).text_len()
    }
}
