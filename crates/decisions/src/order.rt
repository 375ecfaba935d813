// Places in the order in which they were moved to the front last. Nothing holds of the order: who reads a place tests it.
use std::alloc::Global;
use symbols::Memory;

// No place.
const NONE: u32 = u32::MAX;

/// Places, each with its neighbours and the time at which it was moved to the front.
#[derive(Debug, Drop)]
pub(crate) struct Order {
    older: Vec<u32>,
    newer: Vec<u32>,
    times: Vec<u64>,
    time: u64,
    first: u32,
    /// Where the next walk begins.
    at: u32,
}

fn read(cells: &[u32], at: u32) -> u32 {
    if (at as usize) < cells.len() {
        cells[at as usize]
    } else {
        NONE
    }
}

fn write(cells: &mut Vec<u32>, at: u32, to: u32) {
    if (at as usize) < cells.len() {
        cells[at as usize] = to;
    }
}

impl Order {
    /// The places from 0 on, the first of them in front.
    pub(crate) fn new(alloc: Global, count: u32) -> Result<Order, Memory> {
        let mut order = Order {
            older: Vec::new(alloc),
            newer: Vec::new(alloc),
            times: Vec::new(alloc),
            time: count as u64,
            first: 0,
            at: 0,
        };
        for place in 0..count {
            order
                .older
                .push(if place + 1 < count { place + 1 } else { NONE })?;
            order.newer.push(if place == 0 { NONE } else { place - 1 })?;
            order.times.push((count - place) as u64)?;
        }
        Ok(order)
    }

    /// How many places there are.
    pub(crate) fn len(&self) -> usize {
        self.older.len()
    }

    /// Where a walk begins: the places before it have nothing open.
    pub(crate) fn at(&self) -> u32 {
        self.at
    }

    /// The place behind this one, or none.
    pub(crate) fn behind(&self, place: u32) -> Option<u32> {
        let older = read(&self.older, place);
        if older == NONE { None } else { Some(older) }
    }

    /// The next walk begins here.
    pub(crate) fn begin_at(&mut self, place: u32) {
        self.at = place;
    }

    /// The next walk begins in front.
    pub(crate) fn begin_anew(&mut self) {
        self.at = self.first;
    }

    fn time_of(&self, place: u32) -> u64 {
        if (place as usize) < self.times.len() {
            self.times[place as usize]
        } else {
            0
        }
    }

    /// Something is open at the place again: the next walk begins no later.
    pub(crate) fn reopen(&mut self, place: u32) {
        if self.time_of(self.at) < self.time_of(place) {
            self.at = place;
        }
    }

    // Takes the place out, and has the next walk begin beside it where it began there.
    fn take(&mut self, place: u32) {
        let older = read(&self.older, place);
        let newer = read(&self.newer, place);
        write(&mut self.newer, older, newer);
        write(&mut self.older, newer, older);
        if self.at == place {
            self.at = if older == NONE { newer } else { older };
        }
    }

    /// Moves the place to the front.
    pub(crate) fn prefer(&mut self, place: u32) {
        if place == self.first || self.times.len() <= place as usize {
            return;
        }
        self.take(place);
        write(&mut self.newer, self.first, place);
        write(&mut self.older, place, self.first);
        write(&mut self.newer, place, NONE);
        self.first = place;
        self.time = self.time.saturating_add(1);
        let time = self.time;
        if (place as usize) < self.times.len() {
            self.times[place as usize] = time;
        }
    }
}
