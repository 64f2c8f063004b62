//! Which tabs stand in which window, as an ordered set of pairs.
ghost use Rattle.std.specs.Prelude.{◌≡◌, ℤ, ◌+◌, ◌||◌, length, [], true, false, IfOk, OnOk, OnErr, IfSome, IfNone};
ghost use Rattle.window_state.specs.Members.{has_pair, stands_in, AreMembers, LeavesWindow, SetsPair};

use crate::rows::Rows;
use crate::tab::Tab;
use std::alloc::{AllocError, Global};
use std::collections::BTreeSet;
use std::marker::Model;

/// Pairs of a window and a tab in it. A call for one pair takes time in the logarithm of their number, and only
/// `of`, `insert` and `copy` take memory.
#[derive(Drop)]
pub struct Members {
    pairs: BTreeSet<(i32, i32)>,
}

impl Model for Members {
    ghost use Rattle.std.specs.Prelude.{ℤ, List};
    ghost use Rattle.window_state.specs.Members.{AreInRange};

    ghost Value = { List (ℤ × ℤ) };

    ghost view = { λ m. m.pairs.keys };

    ghost invariant = { λ m. AreInRange m.pairs.keys };
}

impl Members {
    pub fn new(alloc: Global) -> Members
        ensures { result ≡ [] }
    {
        Members {
            pairs: BTreeSet::new(alloc),
        }
    }

    /// The pairs of these tabs and their windows. It makes O(t log t) comparisons for t tabs.
    pub fn of(alloc: Global, tabs: &Rows<Tab>) -> Result<Members, AllocError>
        ensures { IfOk result (λ m. AreMembers m tabs.now) }
    {
        let mut members = Members::new(alloc);
        for tab in tabs.iter() {
            members.add(tab)?;
        }
        Ok(members)
    }

    // The tab's pair with its window, where it has one, is there from now on.
    fn add(&mut self, tab: &Tab) -> Result<(), AllocError>
        ensures { OnOk result
            ((w t : ℤ) → has_pair w t self.new ≡ has_pair w t self.old || stands_in w t tab.now) }
    {
        match tab.window {
            Some(window) => self.insert(window, tab.info.id),
            None => Ok(()),
        }
    }

    /// The pair is there from now on.
    pub fn insert(&mut self, window: i32, tab: i32) -> Result<(), AllocError>
        ensures ok { OnOk result (SetsPair window tab true self.old self.new) }
        ensures err { OnErr result (self.new ≡ self.old) }
    {
        self.pairs.insert((window, tab))?;
        Ok(())
    }

    /// The tab's pair with the window `from` goes, unless that is `to`, the window where the tab stands now.
    pub fn leave(&mut self, tab: i32, from: Option<i32>, to: Option<i32>)
        ensures { LeavesWindow tab from to self.old self.new }
    {
        if let Some(window) = from {
            if to != from {
                self.pairs.remove(&(window, tab));
            }
        }
    }

    /// One tab of the window, whose pair goes; `None` where the window has none.
    pub fn take(&mut self, window: i32) -> Option<i32>
        ensures gone { IfSome result (λ tab. SetsPair window tab false self.old self.new) }
        ensures fewer { IfSome result (λ tab. length self.new + 1 ≡ length self.old) }
        ensures had { IfSome result (λ tab. has_pair window tab self.old ≡ true) }
        ensures none { IfNone result ((t : ℤ) → has_pair window t self.old ≡ false) }
        ensures unchanged { IfNone result (self.new ≡ self.old) }
    {
        match self.first(window) {
            Some(tab) => {
                self.pairs.remove(&(window, tab));
                Some(tab)
            }
            None => None,
        }
    }

    fn first(&self, window: i32) -> Option<i32>
        ensures some { IfSome result (λ tab. has_pair window tab self.now ≡ true) }
        ensures none { IfNone result ((t : ℤ) → has_pair window t self.now ≡ false) }
    {
        let least = (window, i32::MIN);
        match self.pairs.range(least..=(window, i32::MAX)).next() {
            Some(pair) => Some(pair.1),
            None => None,
        }
    }

    /// The same pairs, in memory of their own.
    pub fn copy(&self) -> Result<Members, AllocError>
        ensures { IfOk result (λ m. m ≡ self.now) }
    {
        let pairs = self.pairs.clone()?;
        Ok(Members { pairs })
    }
}
