//! What stands behind a navigation's transition, for display.

use item_list::Items;
use pickle_cells::{Blob, Text16};

/// A pair of strings that an extension has kept with a navigation. It owns both.
#[derive(Debug, PartialEq, Eq, Drop)]
pub struct InfoPair {
    pub key: Blob,
    pub value: Blob,
}

/// The fields behind a navigation's transition that read, in their order; the first that doesn't read and all after
/// it are None, and `left` holds the bytes from there. It owns its texts.
#[derive(Debug, Drop)]
pub struct More {
    pub type_mask: Option<i32>,
    pub referrer: Option<Blob>,
    pub old_policy: Option<i32>,
    pub original: Option<Blob>,
    pub overriding: Option<bool>,
    pub time: Option<i64>,
    pub terms: Option<Text16>,
    pub status: Option<i32>,
    pub policy: Option<i32>,
    pub info: Items<InfoPair>,
    pub left: Blob,
}
