//! Groups of tabs as rows under their tokens.
ghost use Rattle.std.specs.Prelude.{◌≡◌, IfOk};
ghost use Rattle.window_state.specs.Keys.{group_key};
ghost use Rattle.window_state.specs.KeyLaws.{same_group};

use crate::group_id::GroupId;
use crate::rows::Row;
use navigation_entry::GroupInfo;
use std::alloc::AllocError;

impl Row for GroupInfo {
    type Key = GroupId;

    ghost key = { group_key };

    fn key(&self) -> GroupId {
        GroupId {
            high: self.high,
            low: self.low,
        }
    }

    fn copy(&self) -> Result<GroupInfo, AllocError> {
        GroupInfo::copy(self)
    }

    ghost same_key = { same_group };
}
