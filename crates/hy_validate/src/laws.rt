//! What a validation tells of statements, and which changes it may leave out.

ghost use Rattle.std.specs.Prelude.{◌≡◌, List, filter};
ghost use Rattle.std.specs.Option.{option_map};
ghost use Rattle.hy_bound.specs.declared.Record.{Record};
ghost use Rattle.hy_value.specs.declared.change.Change.{Change};
ghost use Rattle.hy_notes.specs.Notes.{is_change};
ghost use Rattle.hy_stamp.specs.declared.Label.{Label};
ghost use Rattle.hy_validate.specs.TreeHits.{first_hit_of};
ghost use Rattle.hy_validate.specs.Hits.{hit_among};
ghost use Rattle.hy_validate.specs.Statements.{statement_at, statement_hit};

/// The first record that a change hits is of the first statement that it hits. What is absent before and after is no
/// hit, so that a validation may leave it out.
pub fn hits_are_of_statements_and_rows()
    ensures statements { (records : List Record) (change : Change)
        → option_map (statement_at records) (first_hit_of records change) ≡ statement_hit records change }
    ensures rows { (records : List Record) (other : Label) (changes : List Change)
        → hit_among records other (filter is_change changes) ≡ hit_among records other changes }
{}
