//! Names, numbers and texts in a path.
ghost use Rattle.std.specs.Prelude.{ℕ, pos, neg_ℤ, ◌≡◌, ◌≢◌, ◌⊎◌, ◌<◌, ◌≤◌, ◌^◌, ◌++◌, ◌∷◌, [], List, Bool, cond, length, take, drop, encode_utf8, MatchBool, MatchOption, MatchResult, IfOk};
ghost use Rattle.std.specs.Str.{IsCharBoundary};
ghost use Rattle.cs_jsonmatch.specs.Path.{Item, Path};
ghost use Rattle.cs_jsonmatch.specs.declared.class.Class.TheVariants.{Letter, Digit, Quote};
ghost use Rattle.cs_jsonmatch.specs.Grammar.{class};
ghost use Rattle.cs_jsonmatch.specs.Machine.{Slot, State, text_item, quoted, after};
ghost use Rattle.cs_jsonmatch.specs.Reading.{reading, next_class, Missed, IsStop, IsRead, Moved, IsNameRead, AreDigitsRead, IsIntRead, before_int, TakesQuote};

use crate::class::{Class, class_of};
use crate::cursor::{Cursor, Stop};
use cs_value::{NoMemory, Txt};
use std::alloc::Global;

// A number that digits spell, with its sign.
fn signed(negative: bool, number: u64) -> i64
    requires { number < 10 ^ 18 }
    ensures { result ≡ cond negative (neg_ℤ (pos number)) (pos number) }
{
    if negative {
        -(number as i64)
    } else {
        number as i64
    }
}

// Whether a byte may stand in a name, behind its first letter.
fn is_in_name(byte: u8) -> bool
    ensures { MatchBool result ((class byte ≡ Letter) ⊎ (class byte ≡ Digit))
        ((class byte ≡ Letter → ⊥) × (class byte ≡ Digit → ⊥)) }
{
    matches!(class_of(byte as char), Class::Letter | Class::Digit)
}

// The length of the name that the text begins with. All its characters are ASCII.
fn name_len(text: &str) -> usize
    requires { next_class text.now ≡ Letter }
    ensures name { IsNameRead (take result text.now) text.now (drop result text.now) }
    ensures cut { IsCharBoundary text.now result }
{
    let bytes = text.as_bytes();
    for (at, byte) in bytes.iter().enumerate() {
        if !is_in_name(*byte) {
            return at;
        }
    }
    bytes.len()
}

impl<'t> Cursor<'t> {
    // The name whose first letter stands next.
    pub fn name(&mut self, alloc: Global) -> Result<Txt, NoMemory>
        requires { next_class self.old.rest.now ≡ Letter }
        ensures name { IfOk result (λ n. IsNameRead n self.old.rest.now self.new.rest.now) }
        ensures shorter { length self.new.rest.now ≤ length self.old.rest.now }
    {
        let end = name_len(self.rest);
        let name = Txt::copy_of(alloc, &self.rest[..end])?;
        self.rest = &self.rest[end..];
        Ok(name)
    }

    // The number that the next digits spell, at most eighteen of them.
    fn digits(&mut self) -> Option<u64>
        ensures digits { MatchOption result (Missed Digit self.old.rest.now self.new.rest.now)
            (λ n. AreDigitsRead n self.old.rest.now self.new.rest.now) }
        ensures shorter { length self.new.rest.now ≤ length self.old.rest.now }
    {
        let mut number = 0;
        for count in 0..18u64 {
            let Some(digit) = self.take(Class::Digit) else {
                return if count == 0 { None } else { Some(number) };
            };
            number = 10 * number + (digit as u64 - 48);
        }
        Some(number)
    }

    // The integer that stands next, if one does.
    pub fn int(&mut self) -> Result<Option<i64>, Stop>
        ensures int { (p : Path) (d : Bool) (is : List Item) (g : Slot) →
            MatchResult result (λ n. IsIntRead n p d is g self.old.rest.now self.new.rest.now)
            (λ e. IsStop e (reading self.old.rest.now (before_int p d is g)) self.new.rest.now) }
        ensures shorter { length self.new.rest.now ≤ length self.old.rest.now }
    {
        let negative = self.skip(Class::Minus);
        match self.digits() {
            Some(number) => Ok(Some(signed(negative, number))),
            None if negative => Err(Stop::Here),
            None => Ok(None),
        }
    }

    // The character that `c` stands for between quotes, where `c` has been taken.
    fn unescaped(&mut self, c: char) -> Result<char, Stop>
        ensures text { (p : Path) (d : Bool) (is : List Item) (g : Slot) (q : ℕ) (s : List ℕ) →
            class q ≡ Quote → c ≢ q → IsRead result
            (λ e. reading self.new.rest.now (quoted p d is g q (s ++ encode_utf8 e)))
            (reading (encode_utf8 c ++ self.old.rest.now) (quoted p d is g q s))
            self.new.rest.now }
        ensures shorter { length self.new.rest.now ≤ length self.old.rest.now }
    {
        if c != '\\' {
            return Ok(c);
        }
        if let Some(quote) = self.take(Class::Quote) {
            return Ok(quote);
        }
        match self.take(Class::Backslash) {
            Some(backslash) => Ok(backslash),
            None => Err(Stop::Here),
        }
    }

    // The text up to the closing quote, where the opening one has been taken.
    fn unquoted(&mut self, alloc: Global, quote: char) -> Result<Txt, Stop>
        requires { class quote ≡ Quote }
        ensures text { (p : Path) (d : Bool) (is : List Item) (g : Slot) →
            Moved result (quoted p d is g quote []) (λ s. after p d (is ++ text_item g s ∷ []))
            self.old self.new }
        ensures shorter { length self.new.rest.now ≤ length self.old.rest.now }
    {
        let mut text = String::new(alloc);
        while let Some(c) = self.next() {
            if c == quote {
                return Ok(Txt::from_string(text));
            }
            text.push(self.unescaped(c)?)?;
        }
        Err(Stop::Here)
    }

    // The quoted text whose opening quote stands next.
    pub fn text(&mut self, alloc: Global) -> Result<Txt, Stop>
        requires { next_class self.old.rest.now ≡ Quote }
        ensures text { (s0 : State) (p : Path) (d : Bool) (is : List Item) (g : Slot) →
            TakesQuote s0 p d is g →
            Moved result s0 (λ s. after p d (is ++ text_item g s ∷ [])) self.old self.new }
        ensures shorter { length self.new.rest.now ≤ length self.old.rest.now }
    {
        let Some(quote) = self.take(Class::Quote) else {
            return Err(Stop::Here);
        };
        self.unquoted(alloc, quote)
    }
}
