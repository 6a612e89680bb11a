//! GROUP BY: what is gathered of the table for it.

ghost use Rattle.std.specs.Prelude.{◌≡◌, ◌∷◌, ◌++◌, IfOk};
ghost use Rattle.hy_bound.specs.Records.{columns_of, columns_summed, shape_of};
ghost use Rattle.hy_plan.specs.ColumnSets.{named_columns};
ghost use Rattle.hy_gathered.specs.GroupPlans.{group_plan_for};

use hy_bound::{Aggregate, Bound, Pred, Shape, table_shape};
use hy_plan::{PlanPart, Read, reads};
use hy_value::ColMask;
use std::alloc::{AllocError, Global};

/// How a SELECT with GROUP BY is run.
#[derive(Drop)]
pub struct GroupPlan {
    /// What is gathered of its table: of the rows of which WHERE is true, the grouped and the summed column.
    pub part: PlanPart,
    /// The columns of its record: those that are gathered, and those of WHERE.
    pub recorded: ColMask,
    /// The column by whose values the rows are grouped.
    pub key: u32,
    /// What is told of each group.
    pub aggregate: Aggregate,
}

/// The plan of a statement, for tables of these shapes, if it is a SELECT with GROUP BY.
pub fn plan_group(
    alloc: Global,
    shapes: &[Shape],
    statement: &Bound,
) -> Result<Option<GroupPlan>, AllocError>
    ensures { IfOk result (λ plan. plan ≡ group_plan_for shapes.now statement.now) }
{
    let Bound::Group {
        table,
        pred,
        key,
        aggregate,
    } = statement
    else {
        return Ok(None);
    };
    let part = PlanPart {
        table: *table,
        width: table_shape(shapes, *table).width,
        pred: pred.copy(alloc)?,
        // WHERE is asked before a row is gathered, so that its columns need not be kept.
        columns: looked_at(alloc, shapes, *table, Pred::always(), *key, *aggregate)?,
        lookup: None,
    };
    let recorded = looked_at(alloc, shapes, *table, pred.copy(alloc)?, *key, *aggregate)?;
    Ok(Some(GroupPlan {
        part,
        recorded,
        key: *key,
        aggregate: *aggregate,
    }))
}

/// The columns that a SELECT with GROUP BY looks at.
fn looked_at(
    alloc: Global,
    shapes: &[Shape],
    table: u32,
    pred: Pred,
    key: u32,
    aggregate: Aggregate,
) -> Result<ColMask, AllocError>
    ensures { IfOk result (λ columns. columns
        ≡ named_columns 0 (shape_of shapes.now table).width (key ∷ columns_summed aggregate ++ columns_of pred)) }
{
    let statement = Bound::Group {
        table,
        pred,
        key,
        aggregate,
    };
    match reads(alloc, shapes, &statement, &[])?.as_slice() {
        [read] => Ok(read.columns),
        _ => unreachable!(),
    }
}
