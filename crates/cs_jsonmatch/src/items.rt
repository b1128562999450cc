//! The items inside a bracket.
ghost use Rattle.std.specs.Prelude.{ℕ, ◌≡◌, ◌≢◌, ◌<◌, ◌≤◌, ◌++◌, ◌∷◌, [], List, Bool, map, length, encode_utf8, MatchBool};
ghost use Rattle.cs_value.specs.Tree.{Tree};
ghost use Rattle.cs_value.specs.View.{tree};
ghost use Rattle.cs_jsonmatch.specs.Path.{Item as PathItem, Path, meets};
ghost use Rattle.cs_jsonmatch.specs.View.{item_of, items_of};
ghost use Rattle.cs_jsonmatch.specs.declared.class.Class.TheVariants.{Letter, Space};
ghost use Rattle.cs_jsonmatch.specs.Machine.{front, before, to, left_done, half, angle, literal, letters, next_letter, after, done, more};
ghost use Rattle.cs_jsonmatch.specs.Reading.{reading, next_class, after_int, IsRead, Moved};

use crate::class::Class;
use crate::cursor::{Cursor, Stop};
use crate::path::{Comparison, Item, Items, Test};
use cs_value::{Txt, Val};
use std::alloc::Global;

impl<'t> Cursor<'t> {
    // Names with dots between them; the first letter stands next.
    fn names(&mut self, alloc: Global) -> Result<Vec<Txt>, Stop>
        requires { next_class self.old.rest.now ≡ Letter }
        ensures names { (p : Path) (d : Bool) (is : List PathItem) →
            Moved result (before p d is) (λ ns. left_done p d is ns.items) self.old self.new }
        ensures shorter { length self.new.rest.now ≤ length self.old.rest.now }
    {
        let mut names = Vec::new(alloc);
        names.push(self.name(alloc)?)?;
        while self.skip(Class::Dot) {
            if self.peek() != Class::Letter {
                return Err(Stop::Here);
            }
            names.push(self.name(alloc)?)?;
        }
        Ok(names)
    }

    // The second sign of an operator that has two.
    fn equal_sign(&mut self, comparison: Comparison) -> Result<Comparison, Stop>
        ensures operator { (p : Path) (d : Bool) (is : List PathItem) (ns : List (List ℕ)) →
            Moved result (half p d is ns comparison) (λ c. literal p d is ns c) self.old self.new }
        ensures shorter { length self.new.rest.now ≤ length self.old.rest.now }
    {
        if self.skip(Class::EqualSign) {
            Ok(comparison)
        } else {
            Err(Stop::Here)
        }
    }

    // The operator that begins with `<` or `>`, which has been taken.
    fn angle(&mut self, alone: Comparison, with_equal: Comparison) -> Comparison
        ensures operator { (p : Path) (d : Bool) (is : List PathItem) (ns : List (List ℕ)) →
            reading self.old.rest.now (angle p d is ns alone with_equal)
            ≡ reading self.new.rest.now (literal p d is ns result) }
        ensures shorter { length self.new.rest.now ≤ length self.old.rest.now }
    {
        if self.skip(Class::EqualSign) {
            with_equal
        } else {
            alone
        }
    }

    fn comparison(&mut self) -> Result<Comparison, Stop>
        ensures operator { (p : Path) (d : Bool) (is : List PathItem) (ns : List (List ℕ)) →
            Moved result (left_done p d is ns) (λ c. literal p d is ns c) self.old self.new }
        ensures shorter { length self.new.rest.now ≤ length self.old.rest.now }
    {
        self.skip_spaces();
        match self.peek() {
            Class::EqualSign => {
                self.advance(Class::EqualSign);
                self.equal_sign(Comparison::Equal)
            }
            Class::Bang => {
                self.advance(Class::Bang);
                self.equal_sign(Comparison::NotEqual)
            }
            Class::Below => {
                self.advance(Class::Below);
                Ok(self.angle(Comparison::Less, Comparison::AtMost))
            }
            Class::Above => {
                self.advance(Class::Above);
                Ok(self.angle(Comparison::Greater, Comparison::AtLeast))
            }
            _ => Err(Stop::Here),
        }
    }

    // Whether this letter stands next; it is taken then.
    fn skip_letter(&mut self, wanted: char) -> bool
        requires { wanted < 128 }
        ensures { MatchBool result (self.old.rest.now ≡ encode_utf8 wanted ++ self.new.rest.now)
            ((self.new.rest.now ≡ self.old.rest.now) ×
            ((t : List ℕ) → self.old.rest.now ≢ wanted ∷ t)) }
    {
        let mut chars = self.rest.chars();
        match chars.next() {
            Some(c) => {
                if c != wanted {
                    return false;
                }
                self.rest = chars.as_str();
                true
            }
            None => false,
        }
    }

    // This letter, the next of a word.
    fn letter(&mut self, wanted: char) -> Result<(), Stop>
        requires { wanted < 128 }
        ensures letter { (p : Path) (d : Bool) (is : List PathItem) (ns : List (List ℕ))
            (c : Comparison) (t : Tree) (left : List ℕ) →
            Moved result (letters p d is ns c t (wanted ∷ left))
            (λ _. next_letter p d is ns c t left) self.old self.new }
        ensures shorter { length self.new.rest.now ≤ length self.old.rest.now }
    {
        if self.skip_letter(wanted) {
            Ok(())
        } else {
            Err(Stop::Here)
        }
    }

    // These letters, the next of a word.
    fn three_letters(&mut self, first: char, second: char, third: char) -> Result<(), Stop>
        requires { (first < 128) × (second < 128) × (third < 128) }
        ensures letters { (p : Path) (d : Bool) (is : List PathItem) (ns : List (List ℕ))
            (c : Comparison) (t : Tree) (left : List ℕ) →
            Moved result (letters p d is ns c t (first ∷ second ∷ third ∷ left))
            (λ _. next_letter p d is ns c t left) self.old self.new }
        ensures shorter { length self.new.rest.now ≤ length self.old.rest.now }
    {
        self.letter(first)?;
        self.letter(second)?;
        self.letter(third)
    }

    // `true`, `false` or `null`; a letter stands next.
    fn word(&mut self) -> Result<Val, Stop>
        requires { next_class self.old.rest.now ≡ Letter }
        ensures word { (p : Path) (d : Bool) (is : List PathItem) (ns : List (List ℕ))
            (c : Comparison) → Moved result (literal p d is ns c)
            (λ v. after p d (is ++ meets ns c (tree v) ∷ [])) self.old self.new }
        ensures shorter { length self.new.rest.now ≤ length self.old.rest.now }
    {
        if self.skip_letter('t') {
            self.three_letters('r', 'u', 'e')?;
            return Ok(Val::Bool(true));
        }
        if self.skip_letter('f') {
            self.three_letters('a', 'l', 's')?;
            self.letter('e')?;
            return Ok(Val::Bool(false));
        }
        if self.skip_letter('n') {
            self.three_letters('u', 'l', 'l')?;
            return Ok(Val::Null);
        }
        Err(Stop::Here)
    }

    fn constant(&mut self, alloc: Global) -> Result<Val, Stop>
        ensures constant { (p : Path) (d : Bool) (is : List PathItem) (ns : List (List ℕ))
            (c : Comparison) → Moved result (literal p d is ns c)
            (λ v. after p d (is ++ meets ns c (tree v) ∷ [])) self.old self.new }
        ensures shorter { length self.new.rest.now ≤ length self.old.rest.now }
    {
        self.skip_spaces();
        if let Some(number) = self.int()? {
            return Ok(Val::Num(number));
        }
        match self.peek() {
            Class::Quote => Ok(Val::Text(self.text(alloc)?)),
            Class::Letter => self.word(),
            _ => Err(Stop::Here),
        }
    }

    // The comparison of what stands under the names.
    fn test(&mut self, alloc: Global, names: Vec<Txt>) -> Result<Item, Stop>
        ensures item { (p : Path) (d : Bool) (is : List PathItem) →
            Moved result (left_done p d is names.items) (λ i. after p d (is ++ item_of i ∷ []))
            self.old self.new }
        ensures shorter { length self.new.rest.now ≤ length self.old.rest.now }
    {
        let comparison = self.comparison()?;
        let constant = self.constant(alloc)?;
        let test = Test {
            names,
            comparison,
            constant,
        };
        Ok(Item::Meets(Box::new(alloc, test)?))
    }

    // The range whose first end and colon have been taken.
    fn range(&mut self, from: Option<i64>) -> Result<Item, Stop>
        ensures item { (p : Path) (d : Bool) (is : List PathItem) →
            Moved result (to p d is from) (λ i. after p d (is ++ item_of i ∷ []))
            self.old self.new }
        ensures shorter { length self.new.rest.now ≤ length self.old.rest.now }
    {
        Ok(Item::Range(from, self.int()?))
    }

    // The item that begins with an integer, which has been taken.
    fn position_or_range(&mut self, number: i64) -> Result<Item, Stop>
        ensures item { (p : Path) (d : Bool) (is : List PathItem) →
            IsRead result (λ i. reading self.new.rest.now (after p d (is ++ item_of i ∷ [])))
            (after_int self.old.rest.now p d is front number) self.new.rest.now }
        ensures shorter { length self.new.rest.now ≤ length self.old.rest.now }
    {
        if self.skip(Class::Colon) {
            self.range(Some(number))
        } else {
            Ok(Item::Position(number))
        }
    }

    fn item(&mut self, alloc: Global) -> Result<Item, Stop>
        ensures item { (p : Path) (d : Bool) (is : List PathItem) →
            Moved result (before p d is) (λ i. after p d (is ++ item_of i ∷ [])) self.old self.new }
        ensures shorter { length self.new.rest.now ≤ length self.old.rest.now }
    {
        self.skip_spaces();
        if let Some(number) = self.int()? {
            return self.position_or_range(number);
        }
        match self.peek() {
            Class::Colon => {
                self.advance(Class::Colon);
                self.range(None)
            }
            Class::Star => {
                self.advance(Class::Star);
                Ok(Item::Every)
            }
            Class::Quote => Ok(Item::Named(self.text(alloc)?)),
            Class::AtSign => {
                self.advance(Class::AtSign);
                self.test(alloc, Vec::new(alloc))
            }
            Class::Letter => {
                let names = self.names(alloc)?;
                self.test(alloc, names)
            }
            _ => Err(Stop::Here),
        }
    }

    // The items of a bracket and its end, where the first has been taken, with the spaces behind
    // it.
    fn more_items(&mut self, alloc: Global, first: Item) -> Result<Vec<Item>, Stop>
        requires { next_class self.old.rest.now ≢ Space }
        ensures items { (p : Path) (d : Bool) →
            Moved result (after p d (item_of first ∷ []))
            (λ is. done (more p d (map item_of is.items))) self.old self.new }
        ensures shorter { length self.new.rest.now ≤ length self.old.rest.now }
    {
        let mut items = Vec::new(alloc);
        items.push(first)?;
        while self.skip(Class::Comma) {
            items.push(self.item(alloc)?)?;
            self.skip_spaces();
        }
        if !self.skip(Class::Closing) {
            return Err(Stop::Here);
        }
        Ok(items)
    }

    // The items of a bracket and its end, where its beginning has been taken.
    pub fn items(&mut self, alloc: Global) -> Result<Items, Stop>
        ensures items { (p : Path) (d : Bool) →
            Moved result (before p d []) (λ is. done (more p d (items_of is))) self.old self.new }
        ensures shorter { length self.new.rest.now ≤ length self.old.rest.now }
    {
        let first = self.item(alloc)?;
        self.skip_spaces();
        if self.skip(Class::Closing) {
            return Ok(Items::One(first));
        }
        Ok(Items::Many(self.more_items(alloc, first)?))
    }
}
