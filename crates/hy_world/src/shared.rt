//! Parts that sessions share: the chunks of a world and its core.

ghost use Rattle.std.specs.Prelude.{◌≡◌, false, IfOk, OnErr, map};
ghost use Rattle.std.specs.List.{AllByRecursion};
ghost use Rattle.hy_event.specs.Events.{NeededVisit};
ghost use Rattle.hy_event.specs.Needs.{need_of};
ghost use Rattle.hy_session.specs.Entered.{has_entry};
ghost use Rattle.hy_world.specs.Shared.{CoreOf, IsChunk, AreParts, KeepsLayout, KeepsTypes, MayVisit, chunk_shared, part_of, parts_shared};

use hy_chunk::Chunk;
use hy_core::Core;
use hy_protocol::Progress;
use hy_session::Session;
use std::alloc::{AllocError, Global};
use std::marker::Model;

/// What a part is. It is behind a pointer, so that whoever takes the part and gives it back moves little.
#[derive(Drop)]
pub(crate) enum PartKind {
    /// A chunk of a table.
    Chunk(Box<Chunk>),
    /// What all transactions share beside the chunks.
    Core(Box<Core>),
}

/// A part that sessions share. Contracts see its plain data, and the types of a chunk's columns, but not its room: so a
/// part that was given back for want of memory is as it was.
#[derive(Drop)]
pub(crate) struct SharedPart {
    pub(crate) kind: PartKind,
}

impl Model for SharedPart {
    ghost use Rattle.hy_world.specs.Shared.{SharedData, shared_code};
    ghost use Rattle.hy_world.specs.Kinds.{shared_by};

    ghost Value = { SharedData };

    ghost coded = { shared_code };

    ghost view = { λ a. shared_by a.kind };
}

impl SharedPart {
    /// A chunk as a part.
    fn chunk(alloc: Global, chunk: Chunk) -> Result<SharedPart, AllocError>
        ensures { IfOk result (λ part. part ≡ chunk_shared chunk) }
    {
        let chunk = Box::new(alloc, chunk)?;
        Ok(SharedPart {
            kind: PartKind::Chunk(chunk),
        })
    }

    /// The core as a part.
    fn core(alloc: Global, core: Core) -> Result<SharedPart, AllocError>
        ensures { IfOk result (λ part. part ≡ CoreOf core) }
    {
        let core = Box::new(alloc, core)?;
        Ok(SharedPart {
            kind: PartKind::Core(core),
        })
    }
}

/// The chunks and the core as parts, the core last.
pub(crate) fn share(
    alloc: Global,
    chunks: Vec<Chunk>,
    core: Core,
) -> Result<Vec<SharedPart>, AllocError>
    ensures { IfOk result (λ parts. parts.items ≡ parts_shared chunks.items core) }
{
    let mut parts = Vec::new(alloc);
    for chunk in chunks {
        parts.push(SharedPart::chunk(alloc, chunk)?)?;
    }
    parts.push(SharedPart::core(alloc, core)?)?;
    Ok(parts)
}

/// The chunks that these parts are.
fn chunks_of(alloc: Global, parts: Vec<SharedPart>) -> Result<Vec<Chunk>, AllocError>
    requires { AllByRecursion IsChunk parts.items }
    ensures { IfOk result (λ chunks. map chunk_shared chunks.items ≡ parts.items) }
{
    let mut chunks = Vec::new(alloc);
    for part in parts {
        let PartKind::Chunk(chunk) = part.kind else {
            unreachable!()
        };
        chunks.push(Box::into_inner(chunk))?;
    }
    Ok(chunks)
}

/// The chunks and the core that these parts are.
pub(crate) fn unshare(
    alloc: Global,
    parts: Vec<SharedPart>,
) -> Result<(Vec<Chunk>, Core), AllocError>
    requires { AreParts parts.items }
    ensures { IfOk result (λ given. parts_shared given.0.items given.1 ≡ parts.items) }
{
    let mut parts = parts;
    let Some(last) = parts.pop() else {
        unreachable!()
    };
    let PartKind::Core(core) = last.kind else {
        unreachable!()
    };
    Ok((chunks_of(alloc, parts)?, Box::into_inner(core)))
}

/// A visit of a session to the part that it needs. Err is for want of memory, and changes nothing that contracts see; it
/// never comes where the session's open transaction has its entry, for whose end others may wait.
pub(crate) fn visit_part(
    alloc: Global,
    session: &mut Session,
    part: &mut SharedPart,
) -> Result<Progress, AllocError>
    requires { MayVisit (need_of session.old) session.old part.old }
    ensures visit { IfOk result (λ progress. NeededVisit (need_of session.old) session.old (part_of part.old) progress session.new (part_of part.new)) }
    ensures types { KeepsTypes part.old part.new }
    ensures kept { OnErr result ((session.new ≡ session.old) × (part.new ≡ part.old)) }
    ensures entered { OnErr result (has_entry session.old ≡ false) }
{
    match &mut part.kind {
        PartKind::Chunk(chunk) => session.visit_or_pass(alloc, chunk),
        PartKind::Core(core) => session.visit_core(alloc, core),
    }
}
