//! The world: its chunks, its core, its sessions.

use hy_bound::Shapes;
use hy_chunk::Chunk;
use hy_core::Core;
use hy_session::Session;
use std::marker::Model;

/// A world. Contracts see the plain data of its parts and its sessions.
#[derive(Drop)]
pub struct World {
    pub(crate) shapes: Shapes,
    pub(crate) tables: u32,
    pub(crate) per_table: u32,
    pub(crate) chunks: Vec<Chunk>,
    pub(crate) core: Core,
    pub(crate) sessions: Vec<Session>,
}

impl Model for World {
    ghost use Rattle.hy_world.specs.Worlds.{WorldData, world_code, seen_world, IsWorld};

    ghost Value = { WorldData };

    ghost coded = { world_code };

    ghost view = { λ a. seen_world a.tables a.per_table a.chunks.items a.core a.sessions.items };

    ghost invariant = { λ a. IsWorld a.shapes a.tables a.per_table a.chunks.items a.core a.sessions.items };
}
