// Events that are the same, in the same order.
ghost use Rattle.std.specs.Prelude.{◌≡◌, map, OnOk};
ghost use Rattle.vax_pairs.specs.SameTrees.{SameEvent};
ghost use Rattle.vax_pairs_walk.specs.Views.{event_of};
ghost use Rattle.vax_pairs_same.specs.Parts.{SameEvents};

use crate::doubt::Doubt;
use crate::terms::{agree, same_size};
use std::alloc::Global;
use vax_pairs_walk::operands::Event;

// The two events are the same.
fn same_event(alloc: Global, a: &Event, b: &Event) -> Result<(), Doubt>
    ensures { OnOk result (SameEvent (event_of a.now) (event_of b.now)) }
{
    match (a, b) {
        (Event::Reads(size, s), Event::Reads(other, t)) => {
            same_size(*size, *other)?;
            agree(alloc, s, t)?;
            Ok(())
        }
        (Event::Stores(size, s, v), Event::Stores(other, t, w)) => {
            same_size(*size, *other)?;
            agree(alloc, s, t)?;
            agree(alloc, v, w)?;
            Ok(())
        }
        (Event::Lowers(s), Event::Lowers(t))
        | (Event::Divides(s), Event::Divides(t))
        | (Event::Puts(s), Event::Puts(t)) => {
            agree(alloc, s, t)?;
            Ok(())
        }
        (Event::Gets, Event::Gets) => Ok(()),
        _ => Err(Doubt::NotShown),
    }
}

/// The events are the same, one by one.
pub fn same_events(alloc: Global, a: &[Event], b: &[Event]) -> Result<(), Doubt>
    ensures { OnOk result (SameEvents (map event_of a.now) (map event_of b.now)) }
{
    match (a, b) {
        ([], []) => Ok(()),
        ([e, es @ ..], [f, fs @ ..]) => {
            same_event(alloc, e, f)?;
            same_events(alloc, es, fs)?;
            Ok(())
        }
        _ => Err(Doubt::NotShown),
    }
}
