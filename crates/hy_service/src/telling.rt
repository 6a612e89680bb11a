//! What sessions are told.

ghost use Rattle.std.specs.Prelude.{◌≡◌, ◌++◌, [], true, OnOk, IfOk, codes, slice_index_or};
ghost use Rattle.std.specs.Fmt.{decimal};
ghost use Rattle.hy_render.specs.Report.{line};
ghost use Rattle.hy_serving.specs.Answers.{fronted, prefix};
ghost use Rattle.hy_service.specs.Knowing.{told_of};

use hy_render::{Names, print_end, print_reply};
use hy_serving::named;
use hy_world::World;
use std::alloc::{AllocError, Global};

/// The name of the session of a number.
pub(crate) fn name_at(names: &Names, number: usize) -> &[u8]
    ensures { result.now ≡ slice_index_or names.now.sessions number [] }
{
    match names.sessions.as_slice().get(number) {
        Some(name) => name.as_bytes(),
        None => &[],
    }
}

/// Appends the line of a BEGIN, whose transaction reads the tables after so many commits.
fn print_begun(prefix: u32, out: &mut Vec<u8>) -> Result<(), AllocError>
    ensures { OnOk result (out.new.items ≡ out.old.items ++ line (codes "begun " ++ decimal prefix)) }
{
    out.extend_from_slice(b"begun ")?;
    let digits = prefix.to_string(*out.allocator())?;
    out.extend_from_slice(digits.as_bytes())?;
    out.push(b'\n')?;
    Ok(())
}

/// Appends the line that a session's transaction was dropped.
pub(crate) fn print_dropped(name: &[u8], out: &mut Vec<u8>) -> Result<(), AllocError>
    ensures { OnOk result (out.new.items ≡ out.old.items ++ prefix name.now ++ line (codes "dropped")) }
{
    out.extend_from_slice(name)?;
    out.extend_from_slice(b": dropped\n")
}

/// Appends what a session is told after its turn: how its transaction ended, or where it began, or else its last reply.
fn print_told(
    names: &Names,
    world: &World,
    session: u32,
    begins: bool,
    out: &mut Vec<u8>,
) -> Result<(), AllocError>
    ensures { OnOk result (out.new.items ≡ out.old.items ++ told_of names.now begins world.now session) }
{
    match world.open_prefix(session) {
        Some(prefix) if begins => print_begun(prefix, out),
        Some(_) => match world.latest_reply(session) {
            Some(reply) => print_reply(reply, out),
            None => Ok(()),
        },
        None => match world.latest_ending(session) {
            Some(ending) => print_end(names, &ending, out),
            None => Ok(()),
        },
    }
}

/// What a session is told after its turn, with its name in front of each line.
pub(crate) fn told(
    alloc: Global,
    names: &Names,
    world: &World,
    session: u32,
    begins: bool,
) -> Result<Vec<u8>, AllocError>
    ensures { IfOk result (λ told. told.items
        ≡ fronted (prefix (slice_index_or names.now.sessions session [])) true (told_of names.now begins world.now session)) }
{
    let mut text = Vec::new(alloc);
    print_told(names, world, session, begins, &mut text)?;
    let mut out = Vec::new(alloc);
    named(name_at(names, session as usize), text.as_slice(), &mut out)?;
    Ok(out)
}
