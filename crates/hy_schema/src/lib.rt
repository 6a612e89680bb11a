//! The catalog of tables, and names with their numbers.
#![tactic(auto)]

ghost use Rattle.std.specs.Prelude.{◌≡◌, ◌<◌, ◌≤◌, List, [], ◌∷◌, ◌++◌, ◌⊎◌, length, IfOk, IfErr, OnOk, OnErr, IfSome, Some, None, slice_index_or};
ghost use Rattle.std.specs.Prelude.{slice_get, Ok, Err};
ghost use Rattle.std.specs.Option.{option_copied};
ghost use Rattle.hy_schema.specs.Names.{number_of, table_number, table_at, refusal_of};

use hy_limits::{MOST_COLUMNS, MOST_TABLES};
use hy_value::{Kind, Seq, Text};
use indexmap::{IndexMap, IndexSet};
use std::alloc::{AllocError, AllocFailed, Global};
use std::marker::Model;

/// Names that differ, in the order in which they came. A name's number is its index in that order.
#[derive(Drop)]
pub struct Names {
    names: IndexSet<Vec<u8>>,
}

impl Model for Names {
    ghost use Rattle.std.specs.Prelude.{ℕ, List, map};

    ghost Value = { List (List ℕ) };

    ghost view = { λ a. map (λ name. name.items) a.names.keys };
}

impl Names {
    /// No names.
    pub fn new(alloc: Global) -> Names
        ensures { result ≡ [] }
    {
        Names {
            names: IndexSet::new(alloc),
        }
    }

    /// The number of a name that is there.
    pub fn find(&self, name: &[u8]) -> Option<usize>
        ensures { result ≡ number_of self.now name.now }
    {
        self.names.get_index_of(name)
    }

    /// How many names there are.
    pub fn len(&self) -> usize
        ensures { result ≡ length self.now }
    {
        self.names.len()
    }

    /// Adds a name that is not there yet.
    pub fn add(&mut self, alloc: Global, name: &[u8]) -> Result<(), AllocError>
        requires { number_of self.old name.now ≡ None }
        ensures added { OnOk result (self.new ≡ self.old ++ name.now ∷ []) }
        ensures unchanged { OnErr result (self.new ≡ self.old) }
    {
        let name = Vec::from_slice(alloc, name)?;
        self.names.insert(name)?;
        Ok(())
    }
}

/// A column of a table.
#[derive(Drop)]
pub struct Column {
    /// Its name.
    pub name: Text,
    /// The type of its values.
    pub kind: Kind,
}

/// The columns of a table, by number.
pub type Columns = Seq<Column>;

/// A table.
#[derive(Drop)]
pub struct TableDef {
    /// Its name.
    pub name: Text,
    /// Its columns.
    pub columns: Columns,
    /// The number of its PRIMARY KEY, if it has one.
    pub key: Option<u32>,
}

/// Why a table is not added.
#[derive(Clone, Copy, Debug, PartialEq, Eq)]
pub enum AddError {
    /// A table of that name is there.
    Duplicate,
    /// There are as many tables as may be, or it has too many columns.
    Limit,
    /// There is no memory.
    OutOfMemory,
}

/// The tables, by number.
#[derive(Drop)]
pub struct Catalog {
    tables: IndexMap<Vec<u8>, TableDef>,
}

impl Model for Catalog {
    ghost use Rattle.std.specs.Prelude.{◌≡◌, ◌≤◌, List, map, length};
    ghost use Rattle.hy_schema.specs.declared.TableDef.{TableDef};
    ghost use Rattle.hy_schema.specs.Names.{table_names};

    ghost Value = { List TableDef };

    ghost view = { λ a. map (λ entry. entry.1) a.tables.entries };

    ghost invariant = { λ a. (map (λ entry. entry.0.items) a.tables.entries ≡ table_names (map (λ entry. entry.1) a.tables.entries))
        × (length a.tables.entries ≤ 16) };
}

impl Catalog {
    /// No tables.
    pub fn new(alloc: Global) -> Catalog
        ensures { result ≡ [] }
    {
        Catalog {
            tables: IndexMap::new(alloc),
        }
    }

    /// Adds a table, whose number is answered. A refused one is gone.
    pub fn add(&mut self, alloc: Global, def: TableDef) -> Result<u32, AddError>
        ensures number { IfOk result (λ number. number ≡ length self.old) }
        ensures added { OnOk result (self.new ≡ self.old ++ def ∷ []) }
        ensures unchanged { OnErr result (self.new ≡ self.old) }
        ensures accepts { OnOk result (refusal_of self.old def ≡ None) }
        ensures refuses { IfErr result (λ error. (error ≡ AddError.OutOfMemory) ⊎ (refusal_of self.old def ≡ Some error)) }
    {
        if self.find(def.name.as_bytes()).is_some() {
            return Err(AddError::Duplicate);
        }
        if self.tables.len() >= MOST_TABLES || def.columns.len() > MOST_COLUMNS {
            return Err(AddError::Limit);
        }
        self.put(alloc, def)
    }

    /// Adds a table that may be added.
    fn put(&mut self, alloc: Global, def: TableDef) -> Result<u32, AddError>
        requires { (table_number self.old def.name ≡ None) × (length self.old < 16) }
        ensures number { IfOk result (λ number. number ≡ length self.old) }
        ensures added { OnOk result (self.new ≡ self.old ++ def ∷ []) }
        ensures unchanged { OnErr result (self.new ≡ self.old) }
        ensures memory { IfErr result (λ error. error ≡ AddError.OutOfMemory) }
    {
        let number = self.tables.len() as u32;
        let name = Vec::from_slice(alloc, def.name.as_bytes())?;
        self.tables.insert(name, def)?;
        Ok(number)
    }

    /// The number of the table of this name.
    pub fn find(&self, name: &[u8]) -> Option<u32>
        ensures { result ≡ table_number self.now name.now }
    {
        let number = table_index(self.tables.values().as_slice(), name)?;
        Some(number as u32)
    }

    /// The table of this number.
    pub fn table(&self, number: u32) -> Option<&TableDef>
        ensures { option_copied result ≡ table_at self.now number }
    {
        match self.tables.get_index(number as usize) {
            Some((_, def)) => Some(def),
            None => None,
        }
    }

    /// The tables, in order.
    pub fn tables(&self) -> &[TableDef]
        ensures { result.now ≡ self.now }
    {
        self.tables.values().as_slice()
    }

    /// How many tables there are.
    pub fn len(&self) -> usize
        ensures { result ≡ length self.now }
    {
        self.tables.len()
    }
}

/// The index of the table of this name among a few: they are looked at one after the other, which takes less than a hash.
fn table_index(tables: &[TableDef], name: &[u8]) -> Option<usize>
    ensures number { result ≡ table_number tables.now name.now }
    ensures within { IfSome result (λ number. number < length tables.now) }
{
    tables
        .iter()
        .position(|table| name == table.name.as_bytes())
}

impl From<AllocError> for AddError {
    ghost use Rattle.std.specs.Prelude.{◌≡◌};
    ghost use Rattle.hy_schema.specs.declared.AddError.{AddError};

    ghost from_gives = { λ _ e. e ≡ AddError.OutOfMemory };

    fn from(_: AllocError) -> AddError {
        AddError::OutOfMemory
    }
}

impl From<AllocFailed<(Vec<u8>, TableDef)>> for AddError {
    ghost use Rattle.std.specs.Prelude.{◌≡◌};
    ghost use Rattle.hy_schema.specs.declared.AddError.{AddError};

    ghost from_gives = { λ _ e. e ≡ AddError.OutOfMemory };

    fn from(_: AllocFailed<(Vec<u8>, TableDef)>) -> AddError {
        AddError::OutOfMemory
    }
}
