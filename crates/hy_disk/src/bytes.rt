//! Bytes that are overwritten.
ghost use Rattle.std.specs.Prelude.{◌≡◌, OnOk, OnErr};
ghost use Rattle.hy_disk.specs.Bytes.{overwritten};

use std::alloc::AllocError;

/// Puts `from` in place of the bytes from `at` on, and past the end. Where memory runs out, they stay.
pub(crate) fn overwrite(bytes: &mut Vec<u8>, at: usize, from: &[u8]) -> Result<(), AllocError>
    ensures done { OnOk result (bytes.new.items ≡ overwritten bytes.old.items at from.now) }
    ensures kept { OnErr result (bytes.new.items ≡ bytes.old.items) }
{
    let start = at.min(bytes.len());
    let inside = from.len().min(bytes.len() - start);
    bytes.extend_from_slice(&from[inside..])?;
    bytes[start..start + inside].copy_from_slice(&from[..inside]);
    Ok(())
}
