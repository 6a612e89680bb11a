//! What the engine is given of a script.

ghost use Rattle.std.specs.Prelude.{◌≡◌, ◌++◌, IfOk, map, drop};
ghost use Rattle.hy_top.specs.Settings.{setting_at};
ghost use Rattle.hy_setting.specs.Kinds.{catalog_kinds};
ghost use Rattle.hy_top.specs.Program.{names_at};

use hy_bound::{Schedule, Statements, Txn, Txns};
use hy_machine::Setting;
use hy_render::{Names, Texts};
use hy_schema::Catalog;
use hy_script::{NamedTxns, Script};
use hy_setting::{all_kinds, shapes_of, table_names};
use hy_value::Seq;
use hy_world::Kinds;
use std::alloc::{AllocError, Global};

/// What the engine is given of a script.
#[derive(Drop)]
pub struct Given {
    /// What doesn't change while it runs.
    pub setting: Setting,
    /// The types of the columns of each table.
    pub kinds: Seq<Kinds>,
    /// The names that its outcome is printed with.
    pub names: Names,
    /// Its schedule.
    pub schedule: Schedule,
}

/// What the engine is given of a script.
pub fn given_of(alloc: Global, script: Script) -> Result<Given, AllocError>
    ensures setting { IfOk result (λ given. given.setting ≡ setting_at script) }
    ensures kinds { IfOk result (λ given. given.kinds ≡ catalog_kinds script.catalog) }
    ensures names { IfOk result (λ given. given.names ≡ names_at script) }
    ensures schedule { IfOk result (λ given. given.schedule ≡ script.schedule) }
{
    let (given, _catalog) = given_and_catalog(alloc, script)?;
    Ok(given)
}

/// The same, and the script's tables as they are defined.
pub fn given_and_catalog(alloc: Global, script: Script) -> Result<(Given, Catalog), AllocError>
    ensures setting { IfOk result (λ both. both.0.setting ≡ setting_at script) }
    ensures kinds { IfOk result (λ both. both.0.kinds ≡ catalog_kinds script.catalog) }
    ensures names { IfOk result (λ both. both.0.names ≡ names_at script) }
    ensures schedule { IfOk result (λ both. both.0.schedule ≡ script.schedule) }
    ensures catalog { IfOk result (λ both. both.1 ≡ script.catalog) }
{
    let Script {
        catalog,
        rows,
        sessions,
        schedule,
        options,
    } = script;
    let shapes = shapes_of(alloc, catalog.tables())?;
    let kinds = all_kinds(alloc, catalog.tables())?;
    let tables = table_names(alloc, catalog.tables())?;
    let names = session_names(alloc, sessions.as_slice())?;
    let programs = programs_of(alloc, sessions)?;
    let setting = Setting {
        chunks: options.chunks,
        rows: options.rows,
        shapes,
        first: rows,
        programs,
    };
    let names = Names {
        tables,
        sessions: names,
    };
    let given = Given {
        setting,
        kinds,
        names,
        schedule,
    };
    Ok((given, catalog))
}

/// The names of sessions.
fn session_names(alloc: Global, sessions: &[NamedTxns]) -> Result<Texts, AllocError>
    ensures { IfOk result (λ names. names ≡ map (λ session. session.name) sessions.now) }
{
    let mut names = Seq::new(alloc);
    for session in sessions {
        names.push(session.name.text().copy())?;
    }
    Ok(names)
}

/// The types inside a session, for `let _: Met`, of which docs/DECISIONS.md says what it is for.
type Met = Option<(Txn, Statements)>;

/// The transactions of each session.
fn programs_of(alloc: Global, sessions: Seq<NamedTxns>) -> Result<Seq<Txns>, AllocError>
    ensures { IfOk result (λ programs. programs ≡ map (λ session. session.txns) sessions) }
{
    let _: Met = None;
    let mut programs = Seq::new(alloc);
    let mut rest = sessions.into_vec();
    while !rest.is_empty() {
        let NamedTxns { txns, .. } = rest.remove(0);
        programs.push(txns)?;
    }
    Ok(programs)
}
