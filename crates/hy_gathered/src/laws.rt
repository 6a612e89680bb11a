//! What is gathered for a SELECT with GROUP BY is enough for its reply and for its records.

ghost use Rattle.hy_gathered.specs.GroupLaws.{GatheredGroups, GroupsAreRecorded, GatheredIsRecorded};

/// What is told of the rows gathered for the plan of a SELECT with GROUP BY is its reply over its table.
pub fn gathered_groups_answer()
    ensures { GatheredGroups }
{}

/// A SELECT with GROUP BY logs one record, whatever the rows of its table are: that of its plan, with the plan's
/// condition. The columns that are gathered are among those of the record.
pub fn gathered_groups_read()
    ensures records { GroupsAreRecorded }
    ensures columns { GatheredIsRecorded }
{}
