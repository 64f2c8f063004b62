//! An ordered map of rows, each of which says its own key, seen as the list of the rows by rising key.
ghost use Rattle.std.specs.Prelude.{◌≡◌, ◌≤◌, nat_le, [], length, map, not, is_some, true, ◌↔◌, IsTrue, IfOk, OnOk, OnErr};
ghost use Rattle.std.specs.Option.{option_copied};
ghost use Rattle.std.specs.List.Sorted.{IsStrictlySortedBy};
ghost use Rattle.std.specs.Map.Iter.{ShowsInOrder, deref};
ghost use Rattle.std.specs.declared.cmp.Ordering.TheVariants.{Equal};
ghost use Rattle.window_state.specs.Limits.{limit};
ghost use Rattle.window_state.specs.RowLists.{find_row, on_key, put_row, step_row, without_row};

use std::alloc::{AllocError, Global};
use std::collections::BTreeMap;
use std::collections::btree_map::Values;
use std::marker::Model;

/// The most tabs, and the most windows, of a state.
pub const LIMIT: usize = 1_048_576;

/// A row of a map, under a key that it says itself.
pub trait Row: Drop {
    type Key: Ord + Copy;

    ghost key: { Self → Self.Key };

    fn key(&self) -> Self::Key
        ensures { result ≡ key self.now };

    fn copy(&self) -> Result<Self, AllocError>
        ensures { IfOk result (λ row. row ≡ self.now) };

    ghost same_key: { (x y : Self.Key) → Self.Key.cmp x y ≡ Equal → x ≡ y };
}

/// A row that is made where a change names it and it isn't there.
pub trait Changing: Row {
    type Change: Drop;

    ghost fresh: { Self.Key → Self };

    ghost changed: { Self.Change → Self → Self };

    fn fresh(alloc: Global, id: Self::Key) -> Self
        ensures { result ≡ fresh id };

    fn change(&mut self, change: Self::Change) -> Result<(), AllocError>
        ensures ok { OnOk result (self.new ≡ changed change self.old) }
        ensures err { OnErr result (self.new ≡ self.old) }
        ensures same_key { Self.key self.new ≡ Self.key self.old };

    ghost fresh_key: { (id : Self.Key) → Self.key (fresh id) ≡ id };
}

/// A row with changes that take no memory.
pub trait Editing: Row {
    type Edit: Drop;

    ghost edited: { Self.Edit → Self → Self };

    fn edit(&mut self, edit: Self::Edit)
        ensures edited { self.new ≡ edited edit self.old }
        ensures same_key { Self.key self.new ≡ Self.key self.old };
}

/// Rows by rising key. A call for one row takes time in the logarithm of their number.
#[derive(Drop)]
pub struct Rows<R: Row> {
    rows: BTreeMap<R::Key, R>,
}

impl<R: Row> Model for Rows<R> {
    ghost use Rattle.std.specs.Prelude.{List};
    ghost use Rattle.std.specs.Map.{values_of};
    ghost use Rattle.window_state.specs.RowLists.{IsKeyed};

    ghost Value = { List R };

    ghost view = { λ r. values_of r.rows.entries };

    ghost invariant = { λ r. IsKeyed R.key r.rows.entries };
}

impl<R: Row> Rows<R> {
    pub fn new(alloc: Global) -> Rows<R>
        ensures { result ≡ [] }
    {
        Rows {
            rows: BTreeMap::new(alloc),
        }
    }

    pub fn len(&self) -> usize
        ensures length { result ≡ length self.now }
        ensures ordered { IsStrictlySortedBy R.Key.cmp (map R.key self.now) }
    {
        self.rows.len()
    }

    pub fn is_empty(&self) -> bool
        ensures { IsTrue result ↔ (self.now ≡ []) }
    {
        self.rows.is_empty()
    }

    /// The rows by rising key.
    pub fn iter(&self) -> Values<'_, R::Key, R>
        ensures rest { result ≡ self.now }
        ensures runs { ShowsInOrder (deref {X = R}) }
        ensures ordered { IsStrictlySortedBy R.Key.cmp (map R.key self.now) }
    {
        self.rows.values()
    }

    pub fn get(&self, id: R::Key) -> Option<&R>
        ensures { option_copied result ≡ find_row R.Key.cmp R.key id self.now }
    {
        self.rows.get(&id)
    }

    /// Whether there are as many rows as there may be, and none with the key.
    pub fn is_full_for(&self, id: R::Key) -> bool
        requires { length self.now ≤ limit }
        ensures { (fresh : R) (change : R → R) →
            nat_le (length (step_row R.Key.cmp R.key id fresh change self.now)) limit ≡ not result }
    {
        let len = self.rows.len();
        if self.rows.contains_key(&id) {
            return false;
        }
        len == LIMIT
    }

    pub fn has(&self, id: R::Key) -> bool
        ensures { result ≡ is_some (find_row R.Key.cmp R.key id self.now) }
    {
        self.rows.contains_key(&id)
    }

    /// The row takes the place of the one with its key, or is put in by its key.
    pub fn put(&mut self, row: R) -> Result<(), AllocError>
        ensures ok { OnOk result (self.new ≡ put_row R.Key.cmp R.key row self.old) }
        ensures err { OnErr result (self.new ≡ self.old) }
    {
        self.rows.insert(row.key(), row)?;
        Ok(())
    }

    /// The row with the key goes, where it is there.
    pub fn remove(&mut self, id: R::Key)
        ensures { self.new ≡ without_row R.Key.cmp R.key id self.old }
    {
        self.rows.remove(&id);
    }

    /// The same rows, in memory of their own.
    pub fn copy(&self, alloc: Global) -> Result<Rows<R>, AllocError>
        ensures { IfOk result (λ rows. rows ≡ self.now) }
    {
        let mut rows = BTreeMap::new(alloc);
        for (id, row) in self.rows.iter() {
            let row = row.copy()?;
            rows.insert(*id, row)?;
        }
        Ok(Rows { rows })
    }
}

impl<R: Changing> Rows<R> {
    /// A fresh row with the key is put in where none has it.
    pub fn make(&mut self, alloc: Global, id: R::Key) -> Result<(), AllocError>
        ensures ok { OnOk result (self.new ≡ step_row R.Key.cmp R.key id (R.fresh id) (λ row. row) self.old) }
        ensures stood { is_some (find_row R.Key.cmp R.key id self.old) ≡ true → self.new ≡ self.old }
        ensures err { OnErr result (self.new ≡ self.old) }
    {
        // The length says that the keys are in order.
        let _len = self.rows.len();
        if self.rows.contains_key(&id) {
            return Ok(());
        }
        self.rows.insert(id, R::fresh(alloc, id))?;
        Ok(())
    }

    /// The row with the key is changed; where there is none, a fresh one is changed and put in.
    pub fn step(&mut self, alloc: Global, id: R::Key, change: R::Change) -> Result<(), AllocError>
        ensures ok { OnOk result (self.new ≡ step_row R.Key.cmp R.key id (R.fresh id) (R.changed change) self.old) }
        ensures err { OnErr result (self.new ≡ self.old) }
    {
        match self.rows.get_mut(&id) {
            Some(row) => row.change(change),
            None => {
                let mut row = R::fresh(alloc, id);
                row.change(change)?;
                self.rows.insert(id, row)?;
                Ok(())
            }
        }
    }
}

impl<R: Editing> Rows<R> {
    /// The row with the key is changed, where it is there.
    pub fn edit(&mut self, id: R::Key, edit: R::Edit)
        ensures { self.new ≡ map (on_key R.Key.cmp R.key id (R.edited edit)) self.old }
    {
        let Some(row) = self.rows.get_mut(&id) else {
            return;
        };
        row.edit(edit);
    }
}
