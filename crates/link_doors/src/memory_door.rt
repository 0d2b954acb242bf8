ghost use Rattle.std.specs.Prelude.{◌≡◌, ◌<◌, ◌≤◌, ◌↔◌, [], ◌∷◌, ◌++◌, length, ltb, IsErr, IfOk};
ghost use Rattle.route_io.specs.Calls.{IsToFail};
ghost use Rattle.route_io.specs.Forms.{memory_sink_state, memory_source_state};
ghost use Rattle.link_doors.specs.Doors.{Gives, next_shown, returned_one};
ghost use Rattle.link_doors.specs.Forms.{MemoryGives, door_with, memory_door_state, memory_link_state, placed};
ghost use Rattle.link_doors.specs.Links.{state_of};

use crate::Door;
use route_io::calls::CallList;
use route_io::memory::{MemorySink, MemorySource};
use route_io::{Failed, Link, MemoryLink};
use std::alloc::{AllocError, Global};
use std::collections::VecDeque;
use std::marker::Model;
use std::snapshot::Snapshot;

/// Links in memory as a door. It fails at the calls for a link whose numbers, from 0, it was given, and keeps the links that
/// were given back.
#[derive(Drop)]
pub struct MemoryDoor {
    place: u64,
    rest: VecDeque<MemoryLink>,
    gave: Vec<Snapshot<MemoryLink>>,
    took: Vec<MemoryLink>,
    calls: CallList,
}

impl Model for MemoryDoor {
    ghost use Rattle.std.specs.Prelude.{◌+◌, ◌≤◌, map, vec_len, vec_capacity};
    ghost use Rattle.std.specs.VecDeque.{deque_len};
    ghost use Rattle.link_doors.specs.Forms.{MemoryDoor};

    ghost Value = { MemoryDoor };

    ghost view = { λ d. record {
      place = d.place;
      rest = d.rest.items;
      gave = map (λ link. link.value) d.gave.items;
      took = d.took.items;
      calls = d.calls;
    } };

    ghost invariant = { λ d. (vec_len d.took ≤ vec_len d.gave)
        × (vec_len d.gave + deque_len d.rest ≤ vec_capacity d.gave)
        × (vec_len d.gave + deque_len d.rest ≤ vec_capacity d.took) };
}

impl MemoryDoor {
    /// A door of these links, whose calls of these numbers fail. It takes all the memory that it ever needs.
    pub fn new(alloc: Global, links: Vec<MemoryLink>, fails: Vec<u64>) -> Result<Self, AllocError>
        ensures { IfOk result (λ door. door ≡ door_with links.items fails.items) }
    {
        let gave = Vec::with_capacity(alloc, links.len())?;
        let took = Vec::with_capacity(alloc, links.len())?;
        Ok(MemoryDoor {
            place: 0,
            rest: VecDeque::from_vec(links),
            gave,
            took,
            calls: CallList::new(fails),
        })
    }

    /// A door that has ended from the start.
    pub(crate) fn without_links(alloc: Global) -> Self
        ensures { result ≡ door_with [] [] }
    {
        MemoryDoor {
            place: 0,
            rest: VecDeque::new(alloc),
            gave: Vec::new(alloc),
            took: Vec::new(alloc),
            calls: CallList::new(Vec::new(alloc)),
        }
    }

    /// The same door at this place, which gives at most so many of its links.
    pub(crate) fn placed(mut self, place: u64, links: u32) -> Self
        ensures { result ≡ placed links place self }
    {
        self.place = place;
        self.rest.truncate(links as usize);
        self
    }

    /// It failed at a call.
    pub(crate) fn has_failed(&self) -> bool
        ensures { result ≡ ltb 0 (memory_door_state self.now).faults }
    {
        self.calls.has_failed()
    }

    /// The links that were given back, in order.
    pub fn given_back(&self) -> &[MemoryLink]
        ensures { result.now ≡ self.now.took }
    {
        &self.took
    }
}

impl Door for MemoryDoor {
    type From = MemorySource;

    type To = MemorySink;

    ghost state = { memory_door_state };

    fn next_link(&mut self) -> Result<Option<Link<MemorySource, MemorySink>>, Failed>
        ensures listed { IsErr result ↔ IsToFail self.old.calls }
        ensures in_order { MemoryGives self.old self.new result }
        ensures gives { Gives (memory_door_state self.old) (memory_door_state self.new)
            (next_shown memory_link_state result) }
    {
        self.calls.make()?;
        let Some(link) = self.rest.pop_front() else {
            return Ok(None);
        };
        self.gave.push_reserved(Snapshot::of(&link));
        Ok(Some(link))
    }

    fn give_back(&mut self, link: Link<MemorySource, MemorySink>)
        requires owed { length self.old.took < length self.old.gave }
        ensures kept { self.new ≡ record self.old { took = self.old.took ++ link ∷ [] } }
        ensures returned { memory_door_state self.new
            ≡ returned_one (memory_door_state self.old) (memory_link_state link) }
    {
        self.took.push_reserved(link);
    }
}
