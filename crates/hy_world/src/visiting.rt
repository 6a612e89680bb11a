//! A step of a session: it visits the part that it needs.

ghost use Rattle.std.specs.Prelude.{◌≡◌, ◌+◌, ◌*◌, false, IfOk, IfSome, OnErr};
ghost use Rattle.hy_event.specs.declared.Need.{Need};
ghost use Rattle.hy_protocol.specs.declared.Progress.{Progress};
ghost use Rattle.hy_stamp.specs.declared.Label.{Label};
ghost use Rattle.hy_world.specs.Asks.{has_entry_at, need_at};
ghost use Rattle.hy_world.specs.Follows.{MovesOn, Steps};
ghost use Rattle.hy_world.specs.Logged.{GrowByOne};
ghost use Rattle.hy_world.specs.Openings.{prunings};

use crate::World;
use hy_event::Need;
use hy_protocol::Progress;
use std::alloc::{AllocError, Global};

/// Where a chunk of a table stands among all chunks.
fn place_of(per_table: u32, table: u32, chunk: u32) -> usize
    ensures { result ≡ table * per_table + chunk }
{
    table as usize * per_table as usize + chunk as usize
}

impl World {
    /// The part that a session needs next; one that is not there needs none.
    fn next_need(&self, number: u32) -> Need
        ensures { result ≡ need_at self.now.sessions number }
    {
        match self.sessions.get(number as usize) {
            Some(session) => session.next(),
            None => Need::Done,
        }
    }

    /// A session visits the core. Err is for want of memory, and changes nothing that contracts see.
    fn visit_core(&mut self, alloc: Global, number: u32) -> Result<Progress, AllocError>
        requires { need_at self.old.sessions number ≡ Need.Core }
        ensures step { IfOk result (λ progress. Steps number progress self.old self.new) }
        ensures err { OnErr result (self.new ≡ self.old) }
        ensures grows { GrowByOne self.old.core.entries self.new.core.entries }
        ensures entered { OnErr result (has_entry_at self.old.sessions number ≡ false) }
        ensures blocked { IfOk result (λ progress. (by : Label) → progress ≡ Progress.Blocked by → self.new ≡ self.old) }
        ensures prunes { prunings self.new.sessions ≡ prunings self.old.sessions }
        ensures kinds { self.new.kinds ≡ self.old.kinds }
    {
        hy_stepping::cores_are_near();
        hy_stepping::visits_are_steps();
        let session = &mut self.sessions[number as usize];
        session.visit_core(alloc, &mut self.core)
    }

    /// A session visits a chunk of a table. Err is for want of memory, and changes nothing that contracts see.
    fn visit_chunk(
        &mut self,
        alloc: Global,
        number: u32,
        table: u32,
        chunk: u32,
    ) -> Result<Progress, AllocError>
        requires { need_at self.old.sessions number ≡ Need.Chunk table chunk }
        ensures step { IfOk result (λ progress. Steps number progress self.old self.new) }
        ensures err { OnErr result (self.new ≡ self.old) }
        ensures grows { GrowByOne self.old.core.entries self.new.core.entries }
        ensures entered { OnErr result (has_entry_at self.old.sessions number ≡ false) }
        ensures blocked { IfOk result (λ progress. (by : Label) → progress ≡ Progress.Blocked by → self.new ≡ self.old) }
        ensures prunes { prunings self.new.sessions ≡ prunings self.old.sessions }
        ensures kinds { self.new.kinds ≡ self.old.kinds }
    {
        hy_stepping::needed_chunks_are_there();
        hy_stepping::chunks_are_near();
        hy_stepping::visits_are_steps();
        let place = place_of(self.per_table, table, chunk);
        let session = &mut self.sessions[number as usize];
        let part = &mut self.chunks[place];
        session.visit_chunk(alloc, part)
    }

    /// What a session needs next, where a statement of it is at work that may go past chunks.
    fn need_to_pass(&self, number: u32) -> Option<Need>
        ensures { IfSome result (λ need. need ≡ need_at self.now.sessions number) }
    {
        self.sessions.get(number as usize)?.next_to_pass()
    }

    /// A session, which needs this chunk of a table, goes past chunks from there on for as long as a statement neither ends in them
    /// nor changes anything and that is seen at once.
    fn pass_chunks(&mut self, number: u32, table: u32, chunk: u32)
        requires { need_at self.old.sessions number ≡ Need.Chunk table chunk }
        ensures moves { MovesOn number self.old self.new }
        ensures entries { self.new.core.entries ≡ self.old.core.entries }
        ensures kinds { self.new.kinds ≡ self.old.kinds }
    {
        hy_stepping::needed_chunks_are_there();
        hy_stepping::chunks_may_be_passed();
        hy_stepping::passes_are_steps();
        let place = place_of(self.per_table, table, chunk);
        let session = &mut self.sessions[number as usize];
        let _ = session.pass(&mut self.chunks.as_mut_slice()[place..]);
    }

    /// A session takes steps for as long as they go past chunks in which a statement neither ends nor changes anything and that is
    /// seen at once. It takes no memory.
    #[tactic(auto, using(crate::proofs::PassedChunks::stays_there))]
    pub(crate) fn pass(&mut self, number: u32)
        ensures moves { MovesOn number self.old self.new }
        ensures entries { self.new.core.entries ≡ self.old.core.entries }
        ensures kinds { self.new.kinds ≡ self.old.kinds }
    {
        if let Some(Need::Chunk { table, chunk }) = self.need_to_pass(number) {
            self.pass_chunks(number, table, chunk);
        }
    }

    /// A step of a session. One that is blocked changes nothing, and none changes who prunes or what types columns have. Err is for want of memory, and
    /// changes nothing that contracts see; it never comes where the session's open transaction has its entry, so that the
    /// steps from an entry to its end take none.
    pub fn step(&mut self, alloc: Global, number: u32) -> Result<Progress, AllocError>
        ensures step { IfOk result (λ stepped. Steps number stepped self.old self.new) }
        ensures err { OnErr result (self.new ≡ self.old) }
        ensures grows { GrowByOne self.old.core.entries self.new.core.entries }
        ensures entered { OnErr result (has_entry_at self.old.sessions number ≡ false) }
        ensures blocked { IfOk result (λ stepped. (by : Label) → stepped ≡ Progress.Blocked by → self.new ≡ self.old) }
        ensures prunes { prunings self.new.sessions ≡ prunings self.old.sessions }
        ensures kinds { self.new.kinds ≡ self.old.kinds }
    {
        hy_stepping::ended_stay_as_they_are();
        match self.next_need(number) {
            Need::Core => self.visit_core(alloc, number),
            Need::Chunk { table, chunk } => self.visit_chunk(alloc, number, table, chunk),
            Need::Done => Ok(Progress::Ended),
        }
    }
}
