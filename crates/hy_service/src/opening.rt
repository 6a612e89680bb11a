//! The world that is opened at the first line of a session.

ghost use Rattle.std.specs.Prelude.{◌≡◌, [], IfNone, IfOk, IsNone, OnOk, map};
ghost use Rattle.hy_bind.specs.Shapes.{catalog_shapes};
ghost use Rattle.hy_machine.specs.Runs.{opening_of};
ghost use Rattle.hy_service.specs.Knowing.{KnowsBy, KnowsSessions};
ghost use Rattle.hy_service.specs.Logging.{entries_in};
ghost use Rattle.hy_service.specs.Service.{Service, no_programs, setting_with};
ghost use Rattle.hy_service.specs.Sound.{IsUnused};
ghost use Rattle.hy_serving.specs.Saying.{first_rows, without_rows};
ghost use Rattle.hy_setting.specs.Kinds.{catalog_kinds};
ghost use Rattle.hy_stepping.specs.Runnable.{IsRunnable};
ghost use Rattle.hy_stepping.specs.Typed.{AreTyped};
ghost use Rattle.hy_world.specs.Worlds.{ShowsState};

use crate::Server;
use hy_bound::Txns;
use hy_limits::MOST_SESSIONS;
use hy_machine::Setting;
use hy_setting::{all_kinds, shapes_of, table_names};
use hy_value::Seq;
use hy_world::World;
use std::alloc::{AllocError, Global};

/// The scripts of all sessions that there may be, which have nothing to do.
fn no_programs(alloc: Global) -> Result<Seq<Txns>, AllocError>
    ensures { IfOk result (λ programs. programs ≡ no_programs) }
{
    let mut programs = Seq::new(alloc);
    for _ in 0..MOST_SESSIONS {
        programs.push(Seq::new(alloc))?;
    }
    Ok(programs)
}

impl Server {
    /// The world of the tables that are defined, where nothing has happened. Their first rows are taken out of the desk.
    fn open(&mut self, alloc: Global) -> Result<World, AllocError>
        requires runnable { IsRunnable (setting_with self.old.options self.old.desk no_programs) }
        requires typed { AreTyped (catalog_kinds self.old.desk.sofar.catalog) (catalog_shapes self.old.desk.sofar.catalog)
            (first_rows self.old.desk) no_programs }
        ensures shows { IfOk result (λ world. ShowsState (setting_with self.old.options self.old.desk no_programs)
            (opening_of (setting_with self.old.options self.old.desk no_programs)) world) }
        ensures kinds { IfOk result (λ world. world.kinds ≡ catalog_kinds self.old.desk.sofar.catalog) }
        ensures entries { IfOk result (λ world. world.core.entries ≡ []) }
        ensures opened { OnOk result (self.new ≡ record self.old {
          desk = without_rows self.old.desk;
          names = record self.old.names { tables = map (λ table. table.name) self.old.desk.sofar.catalog };
        }) }
        ensures same { (self.new.options ≡ self.old.options) × (self.new.prunes ≡ self.old.prunes) × (self.new.world ≡ self.old.world)
            × (self.new.log ≡ self.old.log) }
    {
        let tables = self.desk.sofar.catalog.tables();
        let shapes = shapes_of(alloc, tables)?;
        let kinds = all_kinds(alloc, tables)?;
        self.names.tables = table_names(alloc, tables)?;
        let first = self.desk.take_rows(alloc)?;
        let setting = Setting {
            chunks: self.options.chunks,
            rows: self.options.rows,
            shapes,
            first,
            programs: no_programs(alloc)?,
        };
        World::open(alloc, setting, kinds.as_slice(), self.prunes)
    }

    /// The world, which is opened where it isn't there yet. Until it is put back there is none.
    pub(crate) fn take_world(&mut self, alloc: Global) -> Result<World, AllocError>
        requires { IfNone self.old.world (IsRunnable (setting_with self.old.options self.old.desk no_programs)
            × AreTyped (catalog_kinds self.old.desk.sofar.catalog) (catalog_shapes self.old.desk.sofar.catalog)
            (first_rows self.old.desk) no_programs) }
        ensures knows { (service : Service) → IsUnused self.old.options service
            → KnowsBy self.old.options service self.old.desk self.old.names self.old.world
            → IfOk result (λ world. KnowsSessions self.old.options service self.new.desk self.new.names world) }
        ensures entries { IfOk result (λ world. world.core.entries ≡ entries_in self.old.world) }
        ensures none { IsNone self.new.world }
        ensures same { (self.new.options ≡ self.old.options) × (self.new.prunes ≡ self.old.prunes) × (self.new.log ≡ self.old.log) }
    {
        match self.world.take() {
            Some(world) => Ok(world),
            None => self.open(alloc),
        }
    }
}
