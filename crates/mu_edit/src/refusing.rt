ghost use Rattle.std.specs.Prelude.{◌≡◌};
ghost use Rattle.mu_edit.specs.Changes.{Tests, builtin_where, not_empty_where, taken_where, too_many as too_many_reason, unknown_unless};

use mu_flat::EditFault;
use mu_tree::{CountWord, Name, NoMemory, Refusal};
use std::alloc::Global;

/// Refuses a name that must be there, unless it is.
pub(crate) fn expect(alloc: Global, is_there: bool, name: &Name) -> Result<(), EditFault>
    ensures { Tests (unknown_unless is_there name.now) result }
{
    if is_there {
        return Ok(());
    }
    Err(EditFault::Refused(Refusal::Unknown(name.copy(alloc)?.into_bytes())))
}

/// Refuses a new name that is there already.
pub(crate) fn expect_new(alloc: Global, is_there: bool, name: &Name) -> Result<(), EditFault>
    ensures { Tests (taken_where is_there name.now) result }
{
    if !is_there {
        return Ok(());
    }
    Err(EditFault::Refused(Refusal::Taken(name.copy(alloc)?.into_bytes())))
}

/// Refuses a name of the base theory, which stays as it is.
pub(crate) fn expect_own(alloc: Global, is_base: bool, name: &Name) -> Result<(), EditFault>
    ensures { Tests (builtin_where is_base name.now) result }
{
    if !is_base {
        return Ok(());
    }
    Err(EditFault::Refused(Refusal::Builtin(name.copy(alloc)?.into_bytes())))
}

/// Refuses to drop what holds something.
pub(crate) fn expect_empty(alloc: Global, holds: bool, name: &Name) -> Result<(), EditFault>
    ensures { Tests (not_empty_where holds name.now) result }
{
    if !holds {
        return Ok(());
    }
    Err(EditFault::Refused(Refusal::NotEmpty(name.copy(alloc)?.into_bytes())))
}

/// Refuses one more where there are as many as there may be.
pub(crate) fn expect_room(word: CountWord, most: usize, count: usize) -> Result<(), EditFault>
    ensures { Tests (too_many_reason word most count) result }
{
    if count < most {
        return Ok(());
    }
    Err(EditFault::Refused(Refusal::TooMany(word)))
}
