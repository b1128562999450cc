//! The steps of a path.
ghost use Rattle.std.specs.Prelude.{◌≡◌, ◌≤◌, ◌<◌, ◌++◌, ◌∷◌, [], length, IfOk};
ghost use Rattle.cs_jsonmatch.specs.Path.{Path};
ghost use Rattle.cs_jsonmatch.specs.View.{step_of, path_of};
ghost use Rattle.cs_jsonmatch.specs.declared.class.Class.TheVariants.{Letter, Opening};
ghost use Rattle.cs_jsonmatch.specs.Machine.{State, start, one_dot, two_dots, done};
ghost use Rattle.cs_jsonmatch.specs.Reading.{reading, next_class, IsRead, Moved, TakesName, TakesBracket};

use crate::class::Class;
use crate::cursor::{Cursor, Stop};
use crate::path::{Item, Items, Step};
use std::alloc::Global;

impl<'t> Cursor<'t> {
    // The name whose first letter stands next, as a step.
    fn named(&mut self, alloc: Global, deep: bool) -> Result<Step, Stop>
        requires { next_class self.old.rest.now ≡ Letter }
        ensures step { (s0 : State) (p : Path) → TakesName s0 p deep →
            Moved result s0 (λ s. done (p ++ step_of s ∷ [])) self.old self.new }
        ensures shorter { length self.new.rest.now ≤ length self.old.rest.now }
    {
        let items = Items::One(Item::Named(self.name(alloc)?));
        Ok(Step { deep, items })
    }

    // The bracket whose beginning stands next, as a step.
    fn bracketed(&mut self, alloc: Global, deep: bool) -> Result<Step, Stop>
        requires { next_class self.old.rest.now ≡ Opening }
        ensures step { (s0 : State) (p : Path) → TakesBracket s0 p deep →
            Moved result s0 (λ s. done (p ++ step_of s ∷ [])) self.old self.new }
        ensures shorter { length self.new.rest.now < length self.old.rest.now }
    {
        self.advance(Class::Opening);
        let items = self.items(alloc)?;
        Ok(Step { deep, items })
    }

    // The step behind `..`.
    fn deep_step(&mut self, alloc: Global) -> Result<Step, Stop>
        ensures step { (p : Path) →
            Moved result (two_dots p) (λ s. done (p ++ step_of s ∷ [])) self.old self.new }
        ensures shorter { length self.new.rest.now ≤ length self.old.rest.now }
    {
        match self.peek() {
            Class::Letter => self.named(alloc, true),
            Class::Opening => self.bracketed(alloc, true),
            _ => Err(Stop::Here),
        }
    }

    // The first step of a path.
    fn first_step(&mut self, alloc: Global) -> Result<Step, Stop>
        ensures step { Moved result start (λ s. done (step_of s ∷ [])) self.old self.new }
        ensures shorter { length self.new.rest.now ≤ length self.old.rest.now }
    {
        match self.peek() {
            Class::Letter => self.named(alloc, false),
            Class::Opening => self.bracketed(alloc, false),
            Class::Dot => {
                self.advance(Class::Dot);
                if !self.skip(Class::Dot) {
                    return Err(Stop::Here);
                }
                self.deep_step(alloc)
            }
            _ => Err(Stop::Here),
        }
    }

    // The step behind a dot.
    fn dotted(&mut self, alloc: Global) -> Result<Step, Stop>
        ensures step { (p : Path) →
            Moved result (one_dot p) (λ s. done (p ++ step_of s ∷ [])) self.old self.new }
        ensures shorter { length self.new.rest.now ≤ length self.old.rest.now }
    {
        match self.peek() {
            Class::Letter => self.named(alloc, false),
            Class::Dot => {
                self.advance(Class::Dot);
                self.deep_step(alloc)
            }
            _ => Err(Stop::Here),
        }
    }

    // A further step of a path.
    fn next_step(&mut self, alloc: Global) -> Result<Step, Stop>
        requires { 0 < length self.old.rest.now }
        ensures step { (p : Path) →
            Moved result (done p) (λ s. done (p ++ step_of s ∷ [])) self.old self.new }
        ensures shorter { IfOk result (λ _. length self.new.rest.now < length self.old.rest.now) }
    {
        match self.peek() {
            Class::Opening => self.bracketed(alloc, false),
            Class::Dot => {
                self.advance(Class::Dot);
                self.dotted(alloc)
            }
            _ => Err(Stop::Here),
        }
    }

    // The steps of a path, to the end of the text.
    pub fn steps(&mut self, alloc: Global) -> Result<Vec<Step>, Stop>
        ensures { IsRead result (λ ss. reading [] (done (path_of ss.items)))
            (reading self.old.rest.now start) self.new.rest.now }
    {
        let mut steps = Vec::new(alloc);
        steps.push(self.first_step(alloc)?)?;
        while !self.rest.is_empty() {
            steps.push(self.next_step(alloc)?)?;
        }
        Ok(steps)
    }
}
