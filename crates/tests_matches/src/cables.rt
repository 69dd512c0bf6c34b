//! The cables between machines: what is given on a socket comes to the socket at its other end.

use machine_host::HostFault;
use memory_host::{Line, Machine};
use std::alloc::Global;
use std::cell::RefCell;
use std::test::Fail;

/// The port at which the first machine is found. The others follow it.
const FIRST_PORT: u16 = 7000;

/// A socket that one machine connected, and the one that another machine accepted for it.
#[derive(Clone, Copy)]
struct Cable {
    /// The machine that connected, and the place of its socket among those that it has.
    from: usize,
    near: usize,
    /// The machine that accepted, and how many it accepted before.
    to: usize,
    far: usize,
    /// How many bytes were carried there and back.
    there: usize,
    back: usize,
    /// Whether each side was told that the other one gives no more.
    is_there_over: bool,
    is_back_over: bool,
}

/// The machines of a match, which of them is found at each port, and their cables.
#[derive(Drop)]
pub(crate) struct Network<'a> {
    machines: &'a [RefCell<Machine>],
    found: [usize; 4],
    cables: Vec<Cable>,
}

/// Which of the sockets of a machine.
#[derive(Clone, Copy)]
enum End {
    /// The one at this place.
    At(usize),
    /// The one before which so many were accepted.
    Accepted(usize),
}

/// The place of the socket that was accepted after so many others.
fn accepted(lines: &[Line], count: usize) -> Option<usize> {
    let mut before = 0usize;
    for place in 0..lines.len() {
        if lines[place].addr.is_none() {
            if before == count {
                return Some(place);
            }
            before = before.saturating_add(1);
        }
    }
    None
}

/// The place of this end of a cable, if it is there yet.
fn place_of(lines: &[Line], end: End) -> Option<usize> {
    match end {
        End::At(place) => Some(place),
        End::Accepted(count) => accepted(lines, count),
    }
}

/// What was given at this end from a byte on, and whether no more is given there.
fn given(
    alloc: Global,
    machine: &RefCell<Machine>,
    end: End,
    at: usize,
) -> Result<(Vec<u8>, bool), Fail> {
    let machine = match machine.try_borrow_mut() {
        Err(_) => return Err("a machine that is in use".into()),
        Ok(machine) => machine,
    };
    let lines = machine.lines.as_slice();
    let Some(line) = place_of(lines, end).and_then(|place| lines.get(place)) else {
        return Ok((Vec::new(alloc), false));
    };
    let bytes = Vec::from_slice(alloc, line.given.get(at..).unwrap_or(b""))?;
    Ok((bytes, line.is_closed || line.writes_ended))
}

/// What the other side of a socket does.
#[derive(Clone, Copy)]
enum Deed<'b> {
    Answers,
    Brings(&'b [u8]),
    Ends,
    Breaks(HostFault),
    Takes(usize),
}

fn do_to(line: &mut Line, deed: Deed<'_>) -> bool {
    match deed {
        Deed::Answers => line.answer(),
        Deed::Brings(bytes) => return line.bring(bytes).is_ok(),
        Deed::Ends => line.end(),
        Deed::Breaks(fault) => line.break_by(fault),
        Deed::Takes(most) => line.limit(most),
    }
    true
}

/// The other side of the socket at this end does that. It says whether the socket is there and
/// there was memory.
fn does(machine: &RefCell<Machine>, end: End, deed: Deed<'_>) -> bool {
    match machine.try_borrow_mut() {
        Err(_) => false,
        Ok(mut machine) => {
            let Some(place) = place_of(machine.lines.as_slice(), end) else {
                return false;
            };
            match machine.lines.get_mut(place) {
                None => false,
                Some(line) => do_to(line, deed),
            }
        }
    }
}

/// The port to which the socket at this place is to be connected, if it is.
fn port_at(machine: &RefCell<Machine>, place: usize) -> Option<u16> {
    match machine.try_borrow_mut() {
        Err(_) => None,
        Ok(machine) => {
            let addr = machine.lines.get(place)?.addr?;
            Some(addr.port)
        }
    }
}

/// How many sockets the machine has.
fn count_of(machine: &RefCell<Machine>) -> usize {
    match machine.try_borrow_mut() {
        Err(_) => 0,
        Ok(machine) => machine.lines.len(),
    }
}

/// Carries what was given at one end from a byte on to the other end. It says up to which byte,
/// and whether no more is given there.
fn carry(
    alloc: Global,
    from: (&RefCell<Machine>, End),
    to: (&RefCell<Machine>, End),
    at: usize,
) -> Result<(usize, bool), Fail> {
    let (bytes, is_over) = given(alloc, from.0, from.1, at)?;
    if bytes.is_empty() {
        return Ok((at, is_over));
    }
    if !does(to.0, to.1, Deed::Brings(&bytes)) {
        // who connected may give before the other machine accepts
        return Ok((at, false));
    }
    Ok((at.saturating_add(bytes.len()), is_over))
}

impl<'a> Network<'a> {
    pub(crate) fn new(alloc: Global, machines: &'a [RefCell<Machine>; 4]) -> Network<'a> {
        Network {
            machines,
            found: [0, 1, 2, 3],
            cables: Vec::new(alloc),
        }
    }

    /// The machine that is found at this port.
    fn machine_at(&self, port: u16) -> Option<usize> {
        let number = usize::from(port.checked_sub(FIRST_PORT)?);
        self.found.get(number).copied()
    }

    /// All that is connected to the first machine breaks, and another one is found in its place.
    pub(crate) fn replace(&mut self, first: usize, other: usize) {
        for cable in self.cables.as_slice() {
            if cable.from == first || cable.to == first {
                self.happens(*cable, Deed::Breaks(HostFault::Reset));
            }
        }
        if let Some(found) = self.found.get_mut(first) {
            *found = other;
        }
    }

    fn has_cable(&self, from: usize, near: usize) -> bool {
        self.cables
            .iter()
            .any(|cable| cable.from == from && cable.near == near)
    }

    /// How many sockets were connected to this machine.
    fn connected_to(&self, to: usize) -> usize {
        self.cables.iter().filter(|cable| cable.to == to).count()
    }

    /// Lays a cable from the socket at this place, if it is one to be connected.
    fn lay(&mut self, from: usize, near: usize) -> Result<(), Fail> {
        let machines = self.machines;
        let Some(machine) = machines.get(from) else {
            return Ok(());
        };
        let Some(port) = port_at(machine, near) else {
            return Ok(());
        };
        let Some(to) = self.machine_at(port) else {
            return Ok(());
        };
        if self.has_cable(from, near) {
            return Ok(());
        }
        let far = self.connected_to(to);
        self.cables.push(Cable {
            from,
            near,
            to,
            far,
            there: 0,
            back: 0,
            is_there_over: false,
            is_back_over: false,
        })?;
        does(machine, End::At(near), Deed::Answers);
        if let Some(machine) = machines.get(to)
            && let Ok(mut machine) = machine.try_borrow_mut()
        {
            machine.knock();
        }
        Ok(())
    }

    /// Lays a cable from each socket that was connected since.
    fn lay_all(&mut self) -> Result<(), Fail> {
        let machines = self.machines;
        for from in 0..machines.len() {
            for near in 0..count_of(&machines[from]) {
                self.lay(from, near)?;
            }
        }
        Ok(())
    }

    fn put(&mut self, place: usize, cable: Cable) {
        if place < self.cables.len() {
            self.cables[place] = cable;
        }
    }

    /// Carries along the cable of this place what was given since, and each side's end after it.
    fn carry_there(&mut self, alloc: Global, place: usize) -> Result<(), Fail> {
        let machines = self.machines;
        let Some(mut cable) = self.cables.get(place).copied() else {
            return Ok(());
        };
        let (Some(from), Some(to)) = (machines.get(cable.from), machines.get(cable.to)) else {
            return Ok(());
        };
        let near = End::At(cable.near);
        let far = End::Accepted(cable.far);
        let (there, is_over) = carry(alloc, (from, near), (to, far), cable.there)?;
        cable.there = there;
        if is_over && !cable.is_there_over {
            cable.is_there_over = does(to, far, Deed::Ends);
        }
        self.put(place, cable);
        Ok(())
    }

    /// The same towards the machine that connected.
    fn carry_back(&mut self, alloc: Global, place: usize) -> Result<(), Fail> {
        let machines = self.machines;
        let Some(mut cable) = self.cables.get(place).copied() else {
            return Ok(());
        };
        let (Some(from), Some(to)) = (machines.get(cable.from), machines.get(cable.to)) else {
            return Ok(());
        };
        let near = End::At(cable.near);
        let far = End::Accepted(cable.far);
        let (back, is_over) = carry(alloc, (to, far), (from, near), cable.back)?;
        cable.back = back;
        if is_over && !cable.is_back_over {
            cable.is_back_over = does(from, near, Deed::Ends);
        }
        self.put(place, cable);
        Ok(())
    }

    /// Lays cables from what was connected, and carries along all of them.
    pub(crate) fn carry_all(&mut self, alloc: Global) -> Result<(), Fail> {
        self.lay_all()?;
        for place in 0..self.cables.len() {
            self.carry_there(alloc, place)?;
            self.carry_back(alloc, place)?;
        }
        Ok(())
    }

    /// This happens at both ends of a cable.
    fn happens(&self, cable: Cable, deed: Deed<'_>) {
        let machines = self.machines;
        if let Some(machine) = machines.get(cable.from) {
            does(machine, End::At(cable.near), deed);
        }
        if let Some(machine) = machines.get(cable.to) {
            does(machine, End::Accepted(cable.far), deed);
        }
    }

    /// All that is connected breaks.
    pub(crate) fn break_all(&self) {
        for cable in self.cables.as_slice() {
            self.happens(*cable, Deed::Breaks(HostFault::Reset));
        }
    }

    /// From now on each write on what is connected takes so many bytes at most.
    pub(crate) fn narrow_all(&self, most: usize) {
        for cable in self.cables.as_slice() {
            self.happens(*cable, Deed::Takes(most));
        }
    }
}
