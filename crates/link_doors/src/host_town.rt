//! The host's addresses as a town.
ghost use Rattle.std.specs.Prelude.{◌≡◌, ◌+◌, ◌≤◌, [], false, length, ltb, map, Err, IfOk, OnOk, vec_capacity};
ghost use Rattle.std.specs.List.{list_any};
ghost use Rattle.route_io.specs.Causes.{IsCounted, count_up};
ghost use Rattle.link_doors.specs.Forms.{host_door_state, host_town_state, new_host_door, new_host_doors};
ghost use Rattle.link_doors.specs.Towns.{AreNumbered, Listens, TakesBack, any_failed, doors_shown};

use crate::listener::{HostListener, remove_files};
use crate::{HostDoor, Town, TownFault};
use route_io::calls::count;
use std::alloc::Global;
use std::fs::{self, Files};
use std::io;
use std::marker::Model;
use std::net::{Net, TcpListener, TcpStream};
use std::time::Duration;

/// How many seconds a read or a write of a session's connection may wait.
const SESSION_PATIENCE: u64 = 600;

/// The host's network and socket files, whose listeners are doors. It counts each error of the system, of whatever kind, but
/// for those of removing its socket files in the end.
#[derive(Drop)]
pub struct HostTown<R: Net> {
    rt: R,
    alloc: Global,
    asked: bool,
    lent: u64,
    doors: Vec<HostDoor>,
    socket_files: Vec<String>,
    faults: u64,
}

impl<R: Net> Model for HostTown<R> {
    ghost use Rattle.link_doors.specs.Forms.{HostTown};

    ghost Value = { HostTown };

    ghost view = { λ t. record {
      faults = t.faults;
      asked = t.asked;
      lent = t.lent;
      doors = t.doors.items;
    } };
}

impl<R: Net> HostTown<R> {
    /// The network that this part of the runtime reaches, where nothing listens yet.
    pub fn new(alloc: Global, rt: R) -> Self
        ensures { result ≡ record { faults = 0; asked = false; lent = 0; doors = [] } }
    {
        HostTown {
            rt,
            alloc,
            asked: false,
            lent: 0,
            doors: Vec::new(alloc),
            socket_files: Vec::new(alloc),
            faults: 0,
        }
    }
}

impl<R: Net<Listener = TcpListener, Stream = TcpStream> + Files> Town for HostTown<R> {
    type Door = HostDoor;

    ghost state = { host_town_state };

    ghost admits = { λ _ _ _ _. Unit {0} };

    /// Listens at both addresses. One is a host's name or number and a port, as `127.0.0.1:7001`, or `unix:` and the path of a
    /// socket file, which is made then for its owner alone and removed when the doors are taken back.
    fn listen(
        &mut self,
        sessions: &str,
        operator: &str,
        lanes: u32,
        links: u32,
    ) -> Result<Vec<HostDoor>, TownFault>
        requires unasked { self.old.asked ≡ false }
        ensures counted { result ≡ Err TownFault.Failed → self.new.faults ≡ count_up self.old.faults }
        ensures new_doors { IfOk result (λ doors. doors.items ≡ new_host_doors links (lanes + 1)) }
        ensures listens { Listens (host_town_state self.old) (host_town_state self.new)
            lanes links (doors_shown host_door_state result) }
    {
        let count_of_doors = u64::from(lanes) + 1;
        let mut doors = Vec::with_capacity(self.alloc, count_of_doors as usize)?;
        self.asked = true;
        if self
            .open_doors(sessions, operator, lanes, links, &mut doors)
            .is_err()
        {
            remove_files(&self.rt, &mut self.socket_files);
            count(&mut self.faults);
            return Err(TownFault::Failed);
        }
        self.lent = count_of_doors;
        Ok(doors)
    }

    fn take_back(&mut self, doors: Vec<HostDoor>)
        requires all { length doors.items ≡ self.old.lent }
        requires places { AreNumbered (map host_door_state doors.items) }
        ensures kept { self.new.doors ≡ doors.items }
        ensures takes_back { TakesBack (host_town_state self.old) (host_town_state self.new)
            (map host_door_state doors.items) }
    {
        self.lent = 0;
        remove_files(&self.rt, &mut self.socket_files);
        count_failed(&doors, &mut self.faults);
        self.doors = doors;
    }
}

/// Counts a fault where one of these doors has failed.
fn count_failed(doors: &[HostDoor], faults: &mut u64)
    ensures { IsCounted (any_failed (map host_door_state doors.now)) faults.old faults.new }
{
    if any_failed(doors) {
        count(faults);
    }
}

/// One of these doors has failed.
fn any_failed(doors: &[HostDoor]) -> bool
    ensures { result ≡ list_any (λ door. ltb 0 (host_door_state door).faults) doors.now }
{
    doors.iter().any(|door| door.has_failed())
}

impl<R: Net<Listener = TcpListener, Stream = TcpStream> + Files> HostTown<R> {
    /// Binds both addresses, and puts their doors into a list, the operator's first.
    fn open_doors(
        &mut self,
        sessions: &str,
        operator: &str,
        lanes: u32,
        links: u32,
        doors: &mut Vec<HostDoor>,
    ) -> io::Result<()>
        requires empty { doors.old.items ≡ [] }
        requires room { lanes + 1 ≤ vec_capacity doors.old }
        ensures opened { OnOk result (doors.new.items ≡ new_host_doors links (lanes + 1)) }
        ensures same { self.new ≡ self.old }
    {
        let own = HostListener::bind(&self.rt, self.alloc, operator, &mut self.socket_files)?;
        doors.push_reserved(HostDoor::new(own, None, 0, links));
        let shared = HostListener::bind(&self.rt, self.alloc, sessions, &mut self.socket_files)?;
        for lane in 0..u64::from(lanes) {
            doors.push_reserved(session_door(&shared, lane + 1, links)?);
        }
        Ok(())
    }
}

/// A door of sessions at this place, at a listener that it shares.
fn session_door(shared: &HostListener, place: u64, links: u32) -> io::Result<HostDoor>
    ensures { IfOk result (λ door. door ≡ new_host_door links place) }
{
    let listener = shared.try_clone()?;
    let patience = Duration::from_secs(SESSION_PATIENCE);
    Ok(HostDoor::new(listener, Some(patience), place, links))
}
