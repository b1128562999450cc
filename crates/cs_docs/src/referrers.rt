//! Those who know who refers to an id.
ghost use Rattle.std.specs.Prelude.{◌≡◌, List, option_map};
ghost use Rattle.cs_value.specs.Tree.{Tree};
ghost use Rattle.cs_shelf.specs.Referring.{next_referrer};

use cs_value::Txt;

/// A dataset that knows who refers to an id. Its meaning is the dataset.
pub trait Referrers {
    ghost dataset: { Self → List Tree };

    /// The least id, above `low` where it is given, of a document that has the target as `_ref` of
    /// some object.
    fn next_referrer(&self, target: &Txt, low: Option<&Txt>) -> Option<&Txt>
        ensures { option_map (λ i. i.now) result ≡ next_referrer (dataset self.now) target.now
            (option_map (λ i. i.now) low.entry) };
}
