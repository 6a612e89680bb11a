//! Laws of bodies.

ghost use Rattle.hy_log_record.specs.Laws.{BodiesAreOne, LengthsTell, RecordsAreOne};

/// The bytes of a body tell its entry, up to what it noted of positions that had no row and have none; and those of a
/// record tell where it ends.
pub fn bodies_are_one()
    ensures bodies { BodiesAreOne }
    ensures lengths { LengthsTell }
    ensures records { RecordsAreOne }
{}
