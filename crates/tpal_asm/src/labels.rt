// The names of the blocks of a text, and its version.

ghost use Rattle.std.specs.Prelude.{◌≡◌, ◌<◌, ◌≤◌, [], true, OnOk, length, MatchOption};
ghost use Rattle.std.specs.Prelude.{slice_index_or, false};
ghost use Rattle.std.specs.List.{list_all};
ghost use Rattle.tpal_syntax.specs.Parts.{is_word};
ghost use Rattle.indexmap.specs.IndexMap.{index_map_len};
ghost use Rattle.tpal_asm.specs.Labels.{heads, names_of, place_of, with_head};

use indexmap::IndexMap;
use std::alloc::Global;
use tp_value::NoMemory;
use tpal_syntax::Version;

/// The names of blocks in the order in which they first stand, each with whether its block is
/// promotion-ready; and the version of their text.
#[derive(Drop)]
pub struct Labels<'a> {
    pub version: Version,
    pub places: IndexMap<&'a [u8], bool>,
    ghost few: { index_map_len places ≤ 67108864 },
    ghost words: { list_all is_word (names_of (heads places)) ≡ true },
}

impl<'a> Labels<'a> {
    /// No names, of a text of this version.
    pub fn new(alloc: Global, version: Version) -> Labels<'a>
        ensures none { heads result.places ≡ [] }
        ensures version { result.version ≡ version }
    {
        Labels {
            version,
            places: IndexMap::new(alloc),
        }
    }

    /// Adds a name at the end, where it isn't there.
    pub fn add(&mut self, name: &'a [u8], is_ready: bool) -> Result<(), NoMemory>
        requires word { is_word name.now ≡ true }
        requires room { index_map_len self.old.places < 67108864 }
        ensures added { OnOk result (heads self.new.places
            ≡ with_head (heads self.old.places) (name.now, is_ready)) }
        ensures version { self.new.version ≡ self.old.version }
    {
        if self.place(name) >= self.count() {
            self.places.insert(name, is_ready)?;
        }
        Ok(())
    }

    /// How many names there are.
    pub fn count(&self) -> u32
        ensures { result ≡ length (names_of (heads self.now.places)) }
    {
        self.places.len() as u32
    }

    /// Whether the block at a place is promotion-ready; None where there is none.
    pub fn is_ready(&self, place: u32) -> Option<bool>
        ensures { MatchOption result (length (names_of (heads self.now.places)) ≤ place)
            (λ ready. (place < length (names_of (heads self.now.places)))
            × (ready ≡ (slice_index_or (heads self.now.places) place ([], false)).1)) }
    {
        match self.places.get_index(place as usize) {
            None => None,
            Some((_, is_ready)) => Some(*is_ready),
        }
    }

    /// The place of a name, or the number of names where it is none of them.
    pub fn place(&self, name: &[u8]) -> u32
        ensures { result ≡ place_of (heads self.now.places) name.now }
    {
        match self.places.get_index_of(&name) {
            Some(place) => place as u32,
            None => self.places.len() as u32,
        }
    }
}
