//! A replay of what a disk in memory did, which offers images of each moment.
ghost use Rattle.std.specs.Prelude.{◌≡◌, ◌-◌, nat_lt, [], ◌∷◌, ◌++◌, if◌then◌else◌, IfOk, OnOk};
ghost use Rattle.hy_disk.specs.Bytes.{overwritten};
ghost use Rattle.hy_disk.specs.Memory.{Moment};
ghost use Rattle.hy_disk.specs.Offered.{StandsAt, each_items, varied_of, written_of};
ghost use Rattle.hy_disk.specs.Replay.{moment_after};

use crate::bytes::overwrite;
use crate::memory::Event;
use std::alloc::{AllocError, Global};

/// Of how many pending writes every way is offered.
pub(crate) const VARIED: usize = 4;

/// A moment of the replay.
#[derive(Drop)]
pub(crate) struct Replay {
    alloc: Global,
    /// What a read gives.
    bytes: Vec<u8>,
    /// The images that are offered of the moment.
    ways: Vec<Vec<u8>>,
    /// Of how many more pending writes every way is offered.
    left: usize,
}

impl Replay {
    /// The first moment of a disk that began with these bytes.
    pub(crate) fn new(alloc: Global, start: &[u8]) -> Result<Replay, AllocError>
        ensures { IfOk result (λ r. StandsAt (record { durable = start.now; pending = [] }) r.bytes.items (each_items r.ways.items) r.left) }
    {
        let mut ways = Vec::new(alloc);
        ways.push(Vec::from_slice(alloc, start)?)?;
        Ok(Replay {
            alloc,
            bytes: Vec::from_slice(alloc, start)?,
            ways,
            left: VARIED,
        })
    }

    /// Goes on to the next moment.
    pub(crate) fn follow(&mut self, event: &Event) -> Result<(), AllocError>
        ensures { OnOk result ((moment : Moment) → StandsAt moment self.old.bytes.items (each_items self.old.ways.items) self.old.left
            → StandsAt (moment_after moment event.now) self.new.bytes.items (each_items self.new.ways.items) self.new.left) }
    {
        match event {
            Event::Write(at, from) => self.write(*at, from),
            Event::Sync => self.sync(),
        }
    }

    fn write(&mut self, at: usize, from: &[u8]) -> Result<(), AllocError>
        ensures bytes { OnOk result (self.new.bytes.items ≡ overwritten self.old.bytes.items at from.now) }
        ensures ways { OnOk result (each_items self.new.ways.items ≡ (if nat_lt 0 self.old.left
            then varied_of (each_items self.old.ways.items) at from.now else written_of (each_items self.old.ways.items) at from.now)) }
        ensures left { OnOk result (self.new.left ≡ self.old.left - 1) }
    {
        overwrite(&mut self.bytes, at, from)?;
        if self.left > 0 {
            self.ways = varied(self.alloc, &self.ways, at, from)?;
        } else {
            self.ways = written(self.alloc, &self.ways, at, from)?;
        }
        self.left = self.left.saturating_sub(1);
        Ok(())
    }

    fn sync(&mut self) -> Result<(), AllocError>
        ensures bytes { self.new.bytes.items ≡ self.old.bytes.items }
        ensures ways { OnOk result (each_items self.new.ways.items ≡ self.old.bytes.items ∷ []) }
        ensures left { OnOk result (self.new.left ≡ VARIED) }
    {
        let image = Vec::from_slice(self.alloc, &self.bytes)?;
        self.ways.clear();
        self.ways.push(image)?;
        self.left = VARIED;
        Ok(())
    }

    /// Offers the images of the moment, where they are asked for, behind those that were offered.
    pub(crate) fn offer(&self, is_asked: bool, offered: &mut Vec<Vec<u8>>) -> Result<(), AllocError>
        ensures { OnOk result (each_items offered.new.items
            ≡ each_items offered.old.items ++ (if is_asked then each_items self.now.ways.items else [])) }
    {
        if !is_asked {
            return Ok(());
        }
        'images: for image in &self.ways {
            offered.push(Vec::from_slice(self.alloc, image)?)?;
        }
        Ok(())
    }
}

/// Each image with the range as it was, as it was written, and all 255.
fn varied(
    alloc: Global,
    images: &[Vec<u8>],
    at: usize,
    from: &[u8],
) -> Result<Vec<Vec<u8>>, AllocError>
    ensures { IfOk result (λ ways. each_items ways.items ≡ varied_of (each_items images.now) at from.now) }
{
    let mut all_set = Vec::new(alloc);
    all_set.resize(from.len(), 255)?;
    let mut ways = Vec::new(alloc);
    'images: for image in images {
        ways.push(Vec::from_slice(alloc, image)?)?;
        ways.push(written_in(alloc, image, at, from)?)?;
        ways.push(written_in(alloc, image, at, &all_set)?)?;
    }
    Ok(ways)
}

/// Each image with the range as it was written.
fn written(
    alloc: Global,
    images: &[Vec<u8>],
    at: usize,
    from: &[u8],
) -> Result<Vec<Vec<u8>>, AllocError>
    ensures { IfOk result (λ ways. each_items ways.items ≡ written_of (each_items images.now) at from.now) }
{
    let mut ways = Vec::new(alloc);
    'images: for image in images {
        ways.push(written_in(alloc, image, at, from)?)?;
    }
    Ok(ways)
}

/// The image with these bytes at the offset.
fn written_in(alloc: Global, image: &[u8], at: usize, from: &[u8]) -> Result<Vec<u8>, AllocError>
    ensures { IfOk result (λ bytes. bytes.items ≡ overwritten image.now at from.now) }
{
    let mut bytes = Vec::from_slice(alloc, image)?;
    overwrite(&mut bytes, at, from)?;
    Ok(bytes)
}
