//! Empty calls by which the code around learns that numbers are in the ranges of their types.
ghost use Rattle.tab_pages.specs.Ranges.{AreBoundsInRange, AreUnits, IsGroupInRange, IsNavigationInRange};

use navigation_entry::{Bounds, GroupInfo, Navigation};

pub fn of_navigation(navigation: &Navigation)
    ensures { IsNavigationInRange navigation.now }
{
    let _transition = navigation.transition;
    of_units(navigation.title.units());
}

pub fn of_group(group: &GroupInfo)
    ensures { IsGroupInRange group.now }
{
    let (_high, _low, _colour) = (group.high, group.low, group.colour);
    of_units(group.title.units());
}

pub fn of_bounds(bounds: &Bounds)
    ensures { AreBoundsInRange bounds.now }
{
    let (_x, _y) = (bounds.x, bounds.y);
    let (_width, _height, _show) = (bounds.width, bounds.height, bounds.show);
}

fn of_units(units: &[u16])
    ensures { AreUnits units.now }
{}
