//! The systems that wait to be followed.
ghost use Rattle.std.specs.Prelude.{◌≡◌, ◌++◌, ◌∷◌, [], Some, None, IfNone, IfOk, IfSome, IsTrue, slice_get};
ghost use Rattle.std.specs.List.{All};
ghost use Rattle.mb_world.specs.Alike.{IsAlike};
ghost use Rattle.mb_explore.specs.Search.{GoesOn, IsJoined, IsMet, IsTakenFrom, Spot};

use crate::digest::digest_of;
use crate::layers::Layers;
use crate::links::Links;
use crate::waiting::Waiting;
use mb_actor::{Actor, Behaviours};
use mb_world::{Choice, World};
use std::alloc::{AllocError, Global};
use std::marker::Model;

/// The systems that wait to be followed, each once, and which comes next: one that has come no farther than the others.
#[derive(Drop)]
pub(crate) struct Frontier<A: Actor, K: Behaviours> {
    /// Each system that ever waited; `None` where it was taken out.
    waiting: Vec<Option<Waiting<A, K>>>,
    layers: Layers,
    links: Links,
}

impl<A: Actor, K: Behaviours> Model for Frontier<A, K> {
    ghost use Rattle.std.specs.Prelude.{List, Option};
    ghost use Rattle.mb_explore.specs.Search.{Spot};

    ghost Value = { List (Option Spot) };

    ghost view = { λ f. f.waiting.items };
}

impl<A: Actor, K: Behaviours> Frontier<A, K> {
    /// No system waits yet. The only error: memory was refused.
    pub(crate) fn new(alloc: Global) -> Result<Self, AllocError>
        ensures { IfOk result (λ frontier. frontier ≡ []) }
    {
        Ok(Frontier {
            waiting: Vec::new(alloc),
            layers: Layers::new(alloc),
            links: Links::new(alloc)?,
        })
    }

    /// Adds a system, to which so many orders lead, of which this is the shortest; where one that is alike waits already, these orders lead to it
    /// too. The only error: memory was refused.
    pub(crate) fn join(
        &mut self,
        alloc: Global,
        world: World<A, K>,
        schedule: Vec<Choice>,
        orders: u64,
    ) -> Result<(), AllocError>
        requires goes_on { GoesOn world }
        ensures { IfOk result (λ _. IsJoined self.old self.new (schedule.items, world)) }
    {
        let digest = digest_of(alloc, &world)?;
        match self.find(&world, digest) {
            Some(place) => {
                self.meet_at(place, world, schedule, orders);
                Ok(())
            }
            None => self.push(alloc, world, schedule, orders, digest),
        }
    }

    /// So many more orders lead to the system that waits at this place, or to one that is alike, and this is the shortest of them.
    fn meet_at(&mut self, place: usize, world: World<A, K>, schedule: Vec<Choice>, orders: u64)
        requires goes_on { GoesOn world }
        requires waits { (spot : Spot) × (slice_get self.old place ≡ Some (Some spot)) × IsAlike spot.1 world }
        ensures { IsJoined self.old self.new (schedule.items, world) }
    {
        meet_in(&mut self.waiting[place], world, schedule, orders);
    }

    /// Adds a system that is like none that waits. The only error: memory was refused.
    fn push(
        &mut self,
        alloc: Global,
        world: World<A, K>,
        schedule: Vec<Choice>,
        orders: u64,
        digest: u64,
    ) -> Result<(), AllocError>
        requires goes_on { GoesOn world }
        ensures { IfOk result (λ _. self.new ≡ self.old ++ Some (schedule.items, world) ∷ []) }
    {
        self.layers
            .add(alloc, world.progress(), self.waiting.len())?;
        self.links.add(digest)?;
        self.waiting
            .push(Some(Waiting::new(world, schedule, orders)))?;
        Ok(())
    }

    /// Where a system waits that is alike, if one does.
    fn find(&self, world: &World<A, K>, digest: u64) -> Option<usize>
        ensures { IfSome result (λ place. (spot : Spot) × (slice_get self.now place ≡ Some (Some spot)) × IsAlike spot.1 world.now) }
    {
        let mut place = self.links.first(digest);
        for _tried in 0..self.waiting.len() {
            if self.links.digest(place)? == digest {
                if let Some(Some(waiting)) = self.waiting.get(place) {
                    if waiting.world().is_alike(world) {
                        return Some(place);
                    }
                }
            }
            place = self.links.next(place)?;
        }
        None
    }

    /// Takes out the system that comes next; `None` if there is none.
    pub(crate) fn next(&mut self) -> Option<Waiting<A, K>>
        ensures taken { IfSome result (IsTakenFrom self.old self.new) }
        ensures none { IfNone result (self.new ≡ self.old) }
    {
        let place = self.layers.next()?;
        match self.waiting.get_mut(place) {
            Some(waiting) => waiting.take(),
            None => None,
        }
    }

    /// Whether no system waits any more.
    pub(crate) fn is_empty(&self) -> bool
        ensures { IsTrue result → All (λ w. w ≡ None) self.now }
    {
        for place in 0..self.waiting.len() {
            if self.waiting[place].is_some() {
                return false;
            }
        }
        true
    }
}

/// So many more orders lead to the system that waits here, or to one that is alike, and this is the shortest of them.
fn meet_in<A: Actor, K: Behaviours>(
    place: &mut Option<Waiting<A, K>>,
    world: World<A, K>,
    schedule: Vec<Choice>,
    orders: u64,
)
    requires goes_on { GoesOn world }
    ensures { (was : Spot) → place.old ≡ Some was → (met : Spot) × (place.new ≡ Some met) × IsMet was met (schedule.items, world) }
{
    if let Some(waiting) = place {
        waiting.meet(world, schedule, orders);
    }
}
