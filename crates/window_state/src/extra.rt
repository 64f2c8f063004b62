//! Further values of a tab or a window, under keys.
ghost use Rattle.std.specs.Prelude.{◌≡◌, ◌<◌, ◌↔◌, ℕ, List, [], length, nat_eq, slice_get, Some, IsTrue, IfOk, OnOk, OnErr};
ghost use Rattle.std.specs.Map.Iter.{ShowsInOrder, deref_pair};
ghost use Rattle.std.specs.Cmp.Lexicographic.{pointwise};
ghost use Rattle.indexmap.specs.IndexMap.{insert_entry};

use indexmap::IndexMap;
use indexmap::map::Iter;
use pickle_cells::Blob;
use std::alloc::{AllocError, Global};
use std::marker::Model;

/// Pairs of a key and its value, in the order in which the keys came first; no key stands twice. Keys are looked up
/// by hashes with a fixed seed.
#[derive(Drop)]
pub struct Extra {
    pairs: IndexMap<Blob, Blob>,
    alloc: Global,
}

impl Model for Extra {
    ghost use Rattle.std.specs.Prelude.{ℕ, List, nat_eq};
    ghost use Rattle.std.specs.Cmp.Lexicographic.{pointwise};
    ghost use Rattle.indexmap.specs.IndexMap.{IsUnique};

    ghost Value = { List (List ℕ × List ℕ) };

    ghost view = { λ e. e.pairs.entries };

    ghost invariant = { λ e. IsUnique (pointwise nat_eq) e.pairs };
}

impl Extra {
    /// No pairs. It takes no memory.
    pub fn new(alloc: Global) -> Extra
        ensures { result ≡ [] }
    {
        Extra {
            pairs: IndexMap::new(alloc),
            alloc,
        }
    }

    pub fn len(&self) -> usize
        ensures { result ≡ length self.now }
    {
        self.pairs.len()
    }

    pub fn is_empty(&self) -> bool
        ensures { IsTrue result ↔ (self.now ≡ []) }
    {
        self.pairs.is_empty()
    }

    /// The pairs in their order. It takes no memory.
    pub fn iter(&self) -> Iter<'_, Blob, Blob>
        ensures rest { result ≡ self.now }
        ensures runs { ShowsInOrder (deref_pair {K = List ℕ} {X = List ℕ}) }
    {
        self.pairs.iter()
    }

    /// The key at a place and its value.
    pub fn at(&self, place: usize) -> (&Blob, &Blob)
        requires { place < length self.now }
        ensures { slice_get self.now place ≡ Some (result.0.now, result.1.now) }
    {
        match self.pairs.get_index(place) {
            Some(pair) => pair,
            None => unreachable!(),
        }
    }

    /// The value of the key is set; a new key goes last.
    pub fn set(&mut self, key: Blob, value: Blob) -> Result<(), AllocError>
        ensures ok { OnOk result (self.new ≡ insert_entry (pointwise nat_eq) self.old key value) }
        ensures err { OnErr result (self.new ≡ self.old) }
    {
        self.pairs.insert(key, value)?;
        Ok(())
    }

    /// The same pairs, in memory of their own.
    pub fn copy(&self) -> Result<Extra, AllocError>
        ensures { IfOk result (λ e. e ≡ self.now) }
    {
        let mut pairs = IndexMap::with_capacity(self.alloc, self.pairs.len())?;
        for (key, value) in self.pairs.iter() {
            let key = key.copy()?;
            let value = value.copy()?;
            pairs.insert(key, value)?;
        }
        Ok(Extra {
            pairs,
            alloc: self.alloc,
        })
    }
}
