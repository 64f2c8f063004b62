//! The tabs of each window in order of place.
//! An order holds ids; what a tab is stands in the state.
ghost use Rattle.std.specs.Prelude.{◌≡◌, ◌<◌, ◌≤◌, ℤ, [], ◌∷◌, length, drop, IfOk, OnOk, OnErr};
ghost use Rattle.std.specs.List.{insert, remove};
ghost use Rattle.browser_driver.specs.Orders.{between, order_of, moved, SameOrders, SetsOrder};

use std::alloc::{AllocError, Global};
use std::collections::BTreeMap;
use std::marker::Model;

/// The ids of a window's tabs in order of place.
#[derive(Drop)]
pub struct Order {
    ids: Vec<i32>,
}

impl Model for Order {
    ghost use Rattle.std.specs.Prelude.{ℤ, List};

    ghost Value = { List ℤ };

    ghost view = { λ o. o.ids.items };
}

impl Order {
    fn of_one(alloc: Global, id: i32) -> Result<Order, AllocError>
        ensures { IfOk result (λ o. o ≡ id ∷ []) }
    {
        let mut ids = Vec::new(alloc);
        ids.push(id)?;
        Ok(Order { ids })
    }

    fn as_slice(&self) -> &[i32]
        ensures { result.now ≡ self.now }
    {
        self.ids.as_slice()
    }

    fn insert(&mut self, place: usize, id: i32) -> Result<(), AllocError>
        requires { place ≤ length self.old }
        ensures ok { OnOk result (self.new ≡ insert self.old place id) }
        ensures err { OnErr result (self.new ≡ self.old) }
    {
        self.ids.insert(place, id)?;
        Ok(())
    }

    fn remove(&mut self, place: usize)
        requires { place < length self.old }
        ensures { self.new ≡ remove self.old place }
    {
        self.ids.remove(place);
    }

    // Those between the two places move by one.
    fn shift(&mut self, from: usize, to: usize)
        requires from { from < length self.old }
        requires to { to < length self.old }
        ensures { self.new ≡ moved from to self.old }
    {
        shift_ids(self.ids.as_mut_slice(), from, to);
    }
}

/// The order of each window's tabs; a window that has no order has no tabs. A call takes time in the logarithm of the
/// number of windows and in the number of the tabs behind the place.
#[derive(Drop)]
pub struct Orders {
    orders: BTreeMap<i32, Order>,
    alloc: Global,
}

impl Model for Orders {
    ghost use Rattle.std.specs.Prelude.{ℤ, List};

    ghost Value = { List (ℤ × List ℤ) };

    ghost view = { λ o. o.orders.entries };
}

impl Orders {
    /// No orders. It takes no memory.
    pub(crate) fn new(alloc: Global) -> Orders
        ensures { result ≡ [] }
    {
        Orders {
            orders: BTreeMap::new(alloc),
            alloc,
        }
    }

    /// The tabs of a window in order of place.
    pub(crate) fn of(&self, window: i32) -> &[i32]
        ensures { result.now ≡ order_of window self.now }
    {
        match self.orders.get(&window) {
            Some(order) => order.as_slice(),
            None => &[],
        }
    }

    /// Those from a place on.
    pub(crate) fn from(&self, window: i32, place: usize) -> &[i32]
        requires { place ≤ length (order_of window self.now) }
        ensures { result.now ≡ drop place (order_of window self.now) }
    {
        ids_from(self.of(window), place)
    }

    /// Those from a place to another, both among them.
    pub(crate) fn between(&self, window: i32, first: usize, last: usize) -> &[i32]
        requires order { first ≤ last }
        requires within { last < length (order_of window self.now) }
        ensures { result.now ≡ between first last (order_of window self.now) }
    {
        ids_between(self.of(window), first, last)
    }

    /// The tab comes to the place. After want of memory the orders are as they were.
    pub(crate) fn insert(&mut self, window: i32, place: usize, id: i32) -> Result<(), AllocError>
        requires { place ≤ length (order_of window self.old) }
        ensures ok { OnOk result (SetsOrder window (insert (order_of window self.old) place id) self.old self.new) }
        ensures err { OnErr result (SameOrders self.old self.new) }
    {
        match self.orders.get_mut(&window) {
            Some(order) => order.insert(place, id),
            None => {
                let order = Order::of_one(self.alloc, id)?;
                self.orders.insert(window, order)?;
                Ok(())
            }
        }
    }

    /// The tab at the place goes. It takes no memory.
    pub(crate) fn remove(&mut self, window: i32, place: usize)
        requires { place < length (order_of window self.old) }
        ensures { SetsOrder window (remove (order_of window self.old) place) self.old self.new }
    {
        let Some(order) = self.orders.get_mut(&window) else {
            return;
        };
        order.remove(place);
    }

    /// The tab at a place goes to another place of its window. It takes no memory.
    pub(crate) fn shift(&mut self, window: i32, from: usize, to: usize)
        requires from { from < length (order_of window self.old) }
        requires to { to < length (order_of window self.old) }
        ensures { SetsOrder window (moved from to (order_of window self.old)) self.old self.new }
    {
        let Some(order) = self.orders.get_mut(&window) else {
            return;
        };
        order.shift(from, to);
    }

    /// All tabs of the window go. It takes no memory.
    pub(crate) fn forget(&mut self, window: i32)
        ensures { SetsOrder window [] self.old self.new }
    {
        self.orders.remove(&window);
    }
}

fn ids_from(ids: &[i32], place: usize) -> &[i32]
    requires { place ≤ length ids.now }
    ensures { result.now ≡ drop place ids.now }
{
    &ids[place..]
}

fn ids_between(ids: &[i32], first: usize, last: usize) -> &[i32]
    requires order { first ≤ last }
    requires within { last < length ids.now }
    ensures { result.now ≡ between first last ids.now }
{
    &ids[first..last + 1]
}

fn shift_ids(ids: &mut [i32], from: usize, to: usize)
    requires from { from < length ids.old }
    requires to { to < length ids.old }
    ensures { ids.new ≡ moved from to ids.old }
{
    if from < to {
        ids[from..to + 1].rotate_left(1);
    } else {
        ids[to..from + 1].rotate_right(1);
    }
}
