// The search for a certificate.

use crate::known::Known;
use crate::stops::{Heads, Stops};
use gg_base::NoMemory;
use std::alloc::Global;
use std::collections::BTreeMap;
use vax_core::{Code, CodeItem};
use vax_pairs_cuts::cut::Cut;
use vax_pairs_cuts::limits::LIMITS;
use vax_pairs_masks::labels::Labels;
use vax_pairs_walk::code::Walk;
use vax_pairs_walk::gap::Gap;
use vax_pairs_walk::state::State;
use vax_pairs_walk::tree::Tree;

/// The greatest number of pieces that are walked.
const PIECES: u32 = 1_000_000;

/// The first symbol behind those that stand for registers.
const SYMBOLS: u8 = 30;

/// Two places, one of each code.
type Places = (usize, usize);

// What is known of two places, and whether pieces from there are still to be walked.
#[derive(Clone, Copy)]
struct Meeting {
    known: Known,
    waits: bool,
}

#[derive(Drop)]
struct Finder<'a> {
    alloc: Global,
    first: Walk<'a>,
    second: Walk<'a>,
    meetings: BTreeMap<Places, Meeting>,
    waiting: Vec<Places>,
}

// The tree of a piece; None where it has none.
fn piece(walk: Walk, place: usize, state: State) -> Result<Option<Tree>, NoMemory> {
    let mut questions = LIMITS.questions;
    match walk.piece(
        &mut questions,
        LIMITS.instructions,
        false,
        place,
        SYMBOLS,
        state,
    ) {
        Ok(tree) => Ok(Some(tree)),
        Err(Gap::NoTree) => Ok(None),
        Err(Gap::NoMemory) => Err(NoMemory),
    }
}

// The place behind the entry mask that is next from a place on.
fn entry(items: &[CodeItem], place: usize) -> Option<usize> {
    for (at, item) in items.iter().enumerate().skip(place) {
        match item {
            CodeItem::Label(_) | CodeItem::Globl(_) => {}
            CodeItem::Mask(_) => return at.checked_add(1),
            CodeItem::Instr(_) => return None,
        }
    }
    None
}

impl<'a> Finder<'a> {
    fn arrive(&mut self, places: Places, known: Known) -> Result<(), NoMemory> {
        let known = match self.meetings.get(&places) {
            None => known,
            Some(meeting) => {
                let less = meeting.known.and(known);
                if meeting.known.same(less) {
                    return Ok(());
                }
                less
            }
        };
        let waits = self
            .meetings
            .get(&places)
            .is_some_and(|meeting| meeting.waits);
        if !waits {
            self.waiting.push(places)?;
        }
        self.meetings
            .insert(places, Meeting { known, waits: true })?;
        Ok(())
    }

    // What is known where two pieces end, as far as they go the same ways, with at most so many questions on each.
    fn meet(&mut self, questions: u32, t: &Tree, u: &Tree) -> Result<(), NoMemory> {
        let alloc = self.alloc;
        match (t, u) {
            (Tree::Asks(_, _, _, yes, no), Tree::Asks(_, _, _, others_yes, others_no)) => {
                let Some(left) = questions.checked_sub(1) else {
                    return Ok(());
                };
                self.meet(left, yes, others_yes)?;
                self.meet(left, no, others_no)
            }
            (Tree::Arrives(_, _, p, s), Tree::Arrives(_, _, q, t)) => {
                self.arrive((*p, *q), Known::of(alloc, s, t)?)
            }
            (Tree::Calls(_, _, _, p, s), Tree::Calls(_, _, _, q, t)) => {
                self.arrive((*p, *q), Known::of(alloc, s, t)?.behind_call())
            }
            _ => Ok(()),
        }
    }

    // Walks the pieces from two places.
    fn walk(&mut self, places: Places) -> Result<(), NoMemory> {
        let Some(meeting) = self.meetings.get_mut(&places) else {
            return Ok(());
        };
        meeting.waits = false;
        let known = meeting.known;
        let t = piece(self.first, places.0, known.first(self.alloc)?)?;
        let u = piece(self.second, places.1, known.second(self.alloc)?)?;
        match (&t, &u) {
            (Some(t), Some(u)) => self.meet(LIMITS.questions, t, u),
            _ => Ok(()),
        }
    }

    // Where the functions of a label's name begin in both codes.
    fn entries(&self, item: &CodeItem, place: usize, labels: &Labels) -> Option<Places> {
        let CodeItem::Label(name) = item else {
            return None;
        };
        let other = labels.place(name.as_slice())?;
        Some((
            entry(self.first.items, place)?,
            entry(self.second.items, other)?,
        ))
    }

    // Functions of the same name begin alike; the labels are those of the second code.
    fn enter(&mut self, labels: &Labels) -> Result<(), NoMemory> {
        let items = self.first.items;
        for (place, item) in items.iter().enumerate() {
            if let Some(places) = self.entries(item, place, labels) {
                self.arrive(places, Known::NOTHING)?;
            }
        }
        Ok(())
    }

    fn all(&mut self) -> Result<(), NoMemory> {
        for _ in 0..PIECES {
            match self.waiting.pop() {
                None => return Ok(()),
                Some(places) => self.walk(places)?,
            }
        }
        Ok(())
    }

    fn cuts(&self) -> Result<Vec<Cut>, NoMemory> {
        let mut cuts = Vec::new(self.alloc);
        for (places, meeting) in self.meetings.iter() {
            cuts.push(Cut {
                rank: 0,
                first: places.0,
                second: places.1,
                facts: meeting.known.facts(self.alloc)?,
            })?;
        }
        Ok(cuts)
    }
}

/// Looks for places of two codes that stand to each other, and for what is known there of the registers of both machines: cuts in the order
/// of their places. Nothing is promised of them.
pub fn search(alloc: Global, heads: Heads, c: &Code, d: &Code) -> Result<Vec<Cut>, NoMemory> {
    let (items, others) = (c.items.as_slice(), d.items.as_slice());
    let labels = Labels::of(alloc, items)?;
    let others_labels = Labels::of(alloc, others)?;
    let mut stops = Stops::of(alloc, heads, items, &labels)?;
    let mut others_stops = Stops::of(alloc, heads, others, &others_labels)?;
    stops.beside(heads, items, &others_stops, others, &others_labels);
    others_stops.beside(heads, others, &stops, items, &labels);
    stops.spread(items);
    others_stops.spread(others);
    let mut finder = Finder {
        alloc,
        first: Walk {
            alloc,
            layout: c.area.as_slice(),
            items,
            cuts: stops.as_slice(),
        },
        second: Walk {
            alloc,
            layout: d.area.as_slice(),
            items: others,
            cuts: others_stops.as_slice(),
        },
        meetings: BTreeMap::new(alloc),
        waiting: Vec::new(alloc),
    };
    finder.enter(&others_labels)?;
    finder.all()?;
    finder.cuts()
}
