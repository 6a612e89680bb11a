//! The first of the conditions that AND joins, and whether two conditions are the same.

ghost use Rattle.std.specs.Prelude.{◌≡◌, ◌↔◌, IsTrue};
ghost use Rattle.hy_bound.specs.Condition.{True};
ghost use Rattle.hy_bound.specs.PredView.{viewed_side};
ghost use Rattle.hy_validate.specs.FirstConditions.{first_condition_of};

use hy_bound::{Pred, Root, SideView};

/// The first of the conditions that AND joins in this one; where there are none it is no condition.
pub fn first_condition(pred: &Pred) -> &Pred
    ensures { result.now ≡ first_condition_of pred.now }
{
    match pred.root() {
        Root::And(left, right) => {
            let first = first_condition(left);
            if is_always(first) {
                first_condition(right)
            } else {
                first
            }
        }
        _ => pred,
    }
}

/// Whether this is no condition.
fn is_always(pred: &Pred) -> bool
    ensures { IsTrue result ↔ (pred.now ≡ True) }
{
    matches!(pred.root(), Root::True)
}

/// Whether two conditions are the same as they are written.
pub fn is_same(left: &Pred, right: &Pred) -> bool
    ensures { IsTrue result ↔ (left.now ≡ right.now) }
{
    match (left.root(), right.root()) {
        (Root::True, Root::True) => true,
        (
            Root::Compare { column, op, side },
            Root::Compare {
                column: other,
                op: other_op,
                side: other_side,
            },
        ) => column == other && op == other_op && is_same_side(side, other_side),
        (Root::IsNull(column), Root::IsNull(other)) => column == other,
        (Root::Not(inner), Root::Not(other)) => is_same(inner, other),
        (Root::And(first, second), Root::And(other_first, other_second)) => {
            is_same(first, other_first) && is_same(second, other_second)
        }
        (Root::Or(first, second), Root::Or(other_first, other_second)) => {
            is_same(first, other_first) && is_same(second, other_second)
        }
        _ => false,
    }
}

/// Whether the right sides of two comparisons are the same as they are written.
fn is_same_side(left: SideView, right: SideView) -> bool
    ensures { IsTrue result ↔ (viewed_side left.entry ≡ viewed_side right.entry) }
{
    match (left, right) {
        (SideView::Column(column), SideView::Column(other)) => column == other,
        (SideView::Null, SideView::Null) => true,
        (SideView::Int(number), SideView::Int(other)) => number == other,
        (SideView::Text(text), SideView::Text(other)) => text.as_bytes() == other.as_bytes(),
        _ => false,
    }
}
