//! What the engine is given of tables that are defined: their shapes, the types of their columns, and their names. What is bound
//! over them is of these types, and its texts are UTF-8.
#![tactic(auto)]

ghost use Rattle.std.specs.Prelude.{◌≡◌, ◌++◌, IfOk, map, drop};
ghost use Rattle.hy_bind.specs.Shapes.{defined_shape, catalog_shapes};
ghost use Rattle.hy_setting.specs.Kinds.{catalog_kinds};
ghost use Rattle.hy_setting.specs.Texts.{PiecesAreTokens, WhatIsParsedIsUtf8};
ghost use Rattle.hy_setting.specs.Typing.{WhatIsBoundIsTyped};

use hy_bound::{Shape, Shapes};
use hy_parse::scripts_are_parsed;
use hy_schema::{Column, TableDef};
use hy_value::{Kind, Seq, Text};
use std::alloc::{AllocError, Global};

/// The shape of a table. A width past 32 bits would be want of memory.
fn shape_of(def: &TableDef) -> Result<Shape, AllocError>
    ensures { IfOk result (λ shape. shape ≡ defined_shape def.now) }
{
    match u32::try_from(def.columns.len()) {
        Ok(width) => Ok(Shape {
            width,
            key: def.key,
        }),
        Err(_) => Err(AllocError),
    }
}

/// The types of a table's columns.
fn kinds_of(alloc: Global, columns: &[Column]) -> Result<Seq<Kind>, AllocError>
    ensures { IfOk result (λ kinds. kinds ≡ map (λ column. column.kind) columns.now) }
{
    let mut kinds = Seq::new(alloc);
    for column in columns {
        kinds.push(column.kind)?;
    }
    Ok(kinds)
}

/// The types of the columns of each table.
pub fn all_kinds(alloc: Global, tables: &[TableDef]) -> Result<Seq<Seq<Kind>>, AllocError>
    ensures { IfOk result (λ kinds. kinds ≡ catalog_kinds tables.now) }
{
    let mut all = Seq::new(alloc);
    for table in tables {
        all.push(kinds_of(alloc, table.columns.as_slice())?)?;
    }
    Ok(all)
}

/// The shapes of tables.
pub fn shapes_of(alloc: Global, tables: &[TableDef]) -> Result<Shapes, AllocError>
    ensures { IfOk result (λ shapes. shapes ≡ catalog_shapes tables.now) }
{
    let mut shapes = Seq::new(alloc);
    for table in tables {
        shapes.push(shape_of(table)?)?;
    }
    Ok(shapes)
}

/// The names of tables.
pub fn table_names(alloc: Global, tables: &[TableDef]) -> Result<Seq<Text>, AllocError>
    ensures { IfOk result (λ names. names ≡ map (λ table. table.name) tables.now) }
{
    let mut names = Seq::new(alloc);
    for table in tables {
        names.push(table.name.copy())?;
    }
    Ok(names)
}

/// A law: the values that are bound over tables are of the types of their columns.
pub fn what_is_bound_is_typed()
    ensures { WhatIsBoundIsTyped }
{}

/// A law: the pieces of a statement are tokens of its script.
pub fn pieces_are_tokens()
    ensures { PiecesAreTokens }
{}

/// A law: the texts that a statement writes are UTF-8, where the script is.
pub fn what_is_parsed_is_utf8()
    ensures { WhatIsParsedIsUtf8 }
{
    pieces_are_tokens();
    scripts_are_parsed();
}
