//! Where the reading of a path stands.
ghost use Rattle.std.specs.Prelude.{ℕ, ◌≡◌, ◌≢◌, ◌<◌, ◌≤◌, ◌++◌, length, [], encode_utf8, MatchOption, MatchBool, Some};
ghost use Rattle.cs_jsonmatch.specs.Reading.{next_class, Took, Missed, reading};
ghost use Rattle.cs_jsonmatch.specs.Machine.{State, taken};
ghost use Rattle.cs_jsonmatch.specs.declared.class.Class.TheVariants.{Other, Space};

use crate::class::{Class, class_of};
use cs_value::NoMemory;
use std::alloc::{AllocError, AllocFailed};

// What is left of the text of a path. A function that fails leaves the cursor where it stopped.
#[derive(Drop)]
pub(crate) struct Cursor<'t> {
    pub rest: &'t str,
}

// Why a function stopped: the text goes on as no path does, or there is no memory.
#[derive(Drop)]
pub(crate) enum Stop {
    Here,
    NoMemory,
}

impl From<NoMemory> for Stop {
    ghost use Rattle.std.specs.Prelude.{◌≡◌};
    ghost use Rattle.cs_jsonmatch.specs.declared.cursor.Stop.TheVariants.{NoMemory};

    ghost from_gives = { λ _ e. e ≡ NoMemory };

    fn from(_refused: NoMemory) -> Stop {
        Stop::NoMemory
    }
}

impl From<AllocError> for Stop {
    ghost use Rattle.std.specs.Prelude.{◌≡◌};
    ghost use Rattle.cs_jsonmatch.specs.declared.cursor.Stop.TheVariants.{NoMemory};

    ghost from_gives = { λ _ e. e ≡ NoMemory };

    fn from(_refused: AllocError) -> Stop {
        Stop::NoMemory
    }
}

impl<T: Drop> From<AllocFailed<T>> for Stop {
    ghost use Rattle.std.specs.Prelude.{◌≡◌};
    ghost use Rattle.cs_jsonmatch.specs.declared.cursor.Stop.TheVariants.{NoMemory};

    ghost from_gives = { λ _ e. e ≡ NoMemory };

    fn from(_refused: AllocFailed<T>) -> Stop {
        Stop::NoMemory
    }
}

impl<'t> Cursor<'t> {
    // The class of the next character; `Other` at the end too.
    pub fn peek(&self) -> Class
        ensures { result ≡ next_class self.now.rest.now }
    {
        match self.rest.chars().next() {
            Some(c) => class_of(c),
            None => Class::Other,
        }
    }

    // The next character, taken.
    pub fn next(&mut self) -> Option<char>
        ensures { MatchOption result ((self.old.rest.now ≡ []) × (self.new.rest.now ≡ []))
            (λ c. (self.old.rest.now ≡ encode_utf8 c ++ self.new.rest.now)
            × (length self.new.rest.now < length self.old.rest.now)) }
    {
        let mut chars = self.rest.chars();
        let next = chars.next();
        self.rest = chars.as_str();
        next
    }

    // The next character, taken where it is of the class.
    pub fn take(&mut self, wanted: Class) -> Option<char>
        requires { wanted ≢ Other }
        ensures { MatchOption result (Missed wanted self.old.rest.now self.new.rest.now)
            (λ c. Took wanted c self.old.rest.now self.new.rest.now) }
    {
        if self.peek() != wanted {
            return None;
        }
        self.next()
    }

    // Whether the next character is of the class; it is taken then.
    pub fn skip(&mut self, wanted: Class) -> bool
        requires { wanted ≢ Other }
        ensures { MatchBool result ((b : ℕ) × Took wanted b self.old.rest.now self.new.rest.now)
            (Missed wanted self.old.rest.now self.new.rest.now) }
    {
        self.take(wanted).is_some()
    }

    // Takes the next character, which is of the class.
    pub fn advance(&mut self, wanted: Class)
        requires some { wanted ≢ Other }
        requires next { next_class self.old.rest.now ≡ wanted }
        ensures { (b : ℕ) × Took wanted b self.old.rest.now self.new.rest.now }
    {
        drop(self.take(wanted));
    }

    // Takes the spaces that stand next.
    pub fn skip_spaces(&mut self)
        ensures reads { (s : State) → taken s 32 ≡ Some s →
            reading self.old.rest.now s ≡ reading self.new.rest.now s }
        ensures next { next_class self.new.rest.now ≢ Space }
        ensures shorter { length self.new.rest.now ≤ length self.old.rest.now }
    {
        while self.skip(Class::Space) {}
    }
}
