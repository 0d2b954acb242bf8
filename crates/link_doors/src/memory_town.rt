ghost use Rattle.std.specs.Prelude.{◌≡◌, ◌+◌, ◌≤◌, [], Err, All, IfOk, OnOk, drop, false, get_or, length, ltb, map, vec_capacity};
ghost use Rattle.std.specs.List.{list_any};
ghost use Rattle.route_io.specs.Calls.{IsToFail, none_made};
ghost use Rattle.route_io.specs.Causes.{IsCounted};
ghost use Rattle.link_doors.specs.Forms.{IsUnused, after_listen, door_with, handed_out, memory_door_state, memory_town_state};
ghost use Rattle.link_doors.specs.Towns.{AreNumbered, Listens, TakesBack, any_failed, doors_shown};

use crate::{MemoryDoor, Town, TownFault};
use route_io::calls::CallList;
use std::alloc::Global;
use std::collections::VecDeque;
use std::marker::Model;

/// Doors in memory as a town. It fails at the calls of `listen` whose numbers, from 0, it was given, and keeps the doors that
/// were taken back.
#[derive(Drop)]
pub struct MemoryTown {
    alloc: Global,
    waiting: VecDeque<MemoryDoor>,
    asked: bool,
    lent: u64,
    doors: Vec<MemoryDoor>,
    calls: CallList,
}

impl Model for MemoryTown {
    ghost use Rattle.std.specs.Prelude.{All};
    ghost use Rattle.link_doors.specs.Forms.{IsUnused, MemoryTown};

    ghost Value = { MemoryTown };

    ghost view = { λ t. record {
      waiting = t.waiting.items;
      asked = t.asked;
      lent = t.lent;
      doors = t.doors.items;
      calls = t.calls;
    } };

    ghost invariant = { λ t. All IsUnused t.waiting.items };
}

impl MemoryTown {
    /// A town of these doors, whose calls of these numbers fail.
    pub fn new(alloc: Global, doors: Vec<MemoryDoor>, fails: Vec<u64>) -> Self
        requires unused { All IsUnused doors.items }
        ensures { result ≡ record {
          waiting = doors.items;
          asked = false;
          lent = 0;
          doors = [];
          calls = none_made fails.items;
        } }
    {
        MemoryTown {
            alloc,
            waiting: VecDeque::from_vec(doors),
            asked: false,
            lent: 0,
            doors: Vec::new(alloc),
            calls: CallList::new(fails),
        }
    }

    /// The doors that were taken back, and none before that.
    pub fn doors(&self) -> &[MemoryDoor]
        ensures { result.now ≡ self.now.doors }
    {
        &self.doors
    }
}

impl Town for MemoryTown {
    type Door = MemoryDoor;

    ghost state = { memory_town_state };

    ghost admits = { λ _ _ _ _. Unit {0} };

    /// Hands out the first of its doors, and doors without links where it has fewer.
    fn listen(
        &mut self,
        _sessions: &str,
        _operator: &str,
        lanes: u32,
        links: u32,
    ) -> Result<Vec<MemoryDoor>, TownFault>
        requires unasked { self.old.asked ≡ false }
        ensures fails { result ≡ Err TownFault.Failed → IsToFail self.old.calls }
        ensures answers { OnOk result (¬ IsToFail self.old.calls) }
        ensures counted { self.new.calls ≡ after_listen self.old.calls result }
        ensures in_order { IfOk result (λ doors.
            doors.items ≡ handed_out links (lanes + 1) self.old.waiting) }
        ensures listens { Listens (memory_town_state self.old) (memory_town_state self.new)
            lanes links (doors_shown memory_door_state result) }
    {
        let count = u64::from(lanes) + 1;
        let mut doors = Vec::with_capacity(self.alloc, count as usize)?;
        self.asked = true;
        if self.calls.make().is_err() {
            return Err(TownFault::Failed);
        }
        hand_out(self.alloc, &mut self.waiting, count, links, &mut doors);
        self.lent = count;
        Ok(doors)
    }

    fn take_back(&mut self, doors: Vec<MemoryDoor>)
        requires all { length doors.items ≡ self.old.lent }
        requires places { AreNumbered (map memory_door_state doors.items) }
        ensures kept { self.new.doors ≡ doors.items }
        ensures takes_back { TakesBack (memory_town_state self.old) (memory_town_state self.new)
            (map memory_door_state doors.items) }
    {
        self.lent = 0;
        count_failed(&doors, &mut self.calls);
        self.doors = doors;
    }
}

/// Counts a fault where one of these doors has failed.
fn count_failed(doors: &[MemoryDoor], calls: &mut CallList)
    ensures { IsCounted (any_failed (map memory_door_state doors.now))
        calls.old.faults calls.new.faults }
{
    if any_failed(doors) {
        calls.fail();
    }
}

/// One of these doors has failed.
fn any_failed(doors: &[MemoryDoor]) -> bool
    ensures { result ≡ list_any (λ door. ltb 0 (memory_door_state door).faults) doors.now }
{
    doors.iter().any(|door| door.has_failed())
}

/// Puts so many doors into a list, each at its place: those that wait, and doors without links where there are fewer.
fn hand_out(
    alloc: Global,
    waiting: &mut VecDeque<MemoryDoor>,
    count: u64,
    links: u32,
    doors: &mut Vec<MemoryDoor>,
)
    requires empty { doors.old.items ≡ [] }
    requires room { count ≤ vec_capacity doors.old }
    ensures doors { doors.new.items ≡ handed_out links count waiting.old.items }
    ensures waiting { waiting.new.items ≡ drop count waiting.old.items }
{
    for place in 0..count {
        let door = next_door(alloc, waiting);
        doors.push_reserved(door.placed(place, links));
    }
}

/// The first door that waits, or one without links.
fn next_door(alloc: Global, waiting: &mut VecDeque<MemoryDoor>) -> MemoryDoor
    ensures first { result ≡ get_or waiting.old.items 0 (door_with [] []) }
    ensures rest { waiting.new.items ≡ drop 1 waiting.old.items }
{
    match waiting.pop_front() {
        Some(door) => door,
        None => MemoryDoor::without_links(alloc),
    }
}
