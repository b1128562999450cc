//! What some queries are worth, and what they look up. The functions do nothing: each is there
//! for its clause, which the checker computes.
ghost use Rattle.cs_meaning.specs.Examples.{Posts, PostsOfAuthors, WhatRefersToAnn, WhatRefersToSome, Tags, FirstTags, ThreeTruths, NumbersEnd, Ascending, Descending, TwoKeys, Slices, FunctionsOfValues, FirstConditions, Ranges, Spreads, Replaced, OneValue, ProjectionsFirst, ArraysGoOn, ArraysAreMapped, ArraysAreJoined, BracketsEndJoining, MappingMakesNoScope, ProjectionsMakeScopes, Changed, Parameters, EachDereference, FiltersByKeys, DecidedAlready, ArgumentsThatCount, EachElement};

/// Published posts, the newest first, with their author and tags.
pub fn the_newest_posts()
    ensures { Posts }
{}

/// A query in a projection: its `^` is the object that is projected.
pub fn posts_of_authors()
    ensures { PostsOfAuthors }
{}

/// The documents that refer to one.
pub fn what_refers_to_ann()
    ensures { WhatRefersToAnn }
{}

/// A list and a text give the texts sought together.
pub fn what_refers_to_some()
    ensures { WhatRefersToSome }
{}

/// A list that is not there is null among the joined lists, and an empty one adds nothing: the
/// fifth rule of joining.
pub fn tags_of_each()
    ensures { Tags }
{}

/// An element of each list: the fourth rule of joining.
pub fn first_tag_of_each()
    ensures { FirstTags }
{}

/// A condition is true, false or neither.
pub fn three_truths()
    ensures { ThreeTruths }
{}

/// Numbers end at 64 bits, and a remainder has the sign of its left side.
pub fn numbers_end()
    ensures { NumbersEnd }
{}

/// Numbers, then texts, then booleans, then everything else as it stood.
pub fn values_ascending()
    ensures { Ascending }
{}

/// The reverse, with ties as they stood.
pub fn values_descending()
    ensures { Descending }
{}

/// Ties of the first key go by the second.
pub fn ordered_by_two_keys()
    ensures { TwoKeys }
{}

/// Slices and elements, also from the end, past it, and of no list.
pub fn slices()
    ensures { Slices }
{}

/// Each function once.
pub fn functions_of_values()
    ensures { FunctionsOfValues }
{}

/// The first condition that is true counts, and one that is not a boolean is not true.
pub fn first_conditions()
    ensures { FirstConditions }
{}

/// Whether a value is in a list or in a range.
pub fn ranges()
    ensures { Ranges }
{}

/// `...` adds what a list has, and nothing of anything else.
pub fn spreads()
    ensures { Spreads }
{}

/// A later value of a key replaces an earlier one, whether its entry is a bare word or `...`.
pub fn later_keys_replace()
    ensures { Replaced }
{}

/// The first rule: one value goes through the rest as it is, also where it is a list, and where the
/// rest takes an array.
pub fn one_value_goes_on()
    ensures { OneValue }
{}

/// The second rule: before a rest that takes an array a projection is mapped.
pub fn projections_are_mapped_first()
    ensures { ProjectionsFirst }
{}

/// The third rule: an array goes through a rest that takes one as it is.
pub fn arrays_go_on()
    ensures { ArraysGoOn }
{}

/// The fourth rule: an array is mapped over a rest that takes and gives one value.
pub fn arrays_are_mapped()
    ensures { ArraysAreMapped }
{}

/// The fifth rule: an array is mapped over a rest that takes one value and gives an array, and the
/// lists among the results are joined. A result that is no list stays.
pub fn arrays_are_joined()
    ensures { ArraysAreJoined }
{}

/// What stands in round brackets gives one value, whatever it is.
pub fn brackets_end_joining()
    ensures { BracketsEndJoining }
{}

/// A mapped step makes no scope, so `^` in a later filter is the value around the chain.
pub fn mapping_makes_no_scope()
    ensures { MappingMakesNoScope }
{}

/// A projection makes one.
pub fn projections_make_scopes()
    ensures { ProjectionsMakeScopes }
{}

/// A later value replaces an earlier one of the same key, and pairs under a condition come where it
/// is true.
pub fn changed_objects()
    ensures { Changed }
{}

/// A parameter, and one that is not given.
pub fn parameters()
    ensures { Parameters }
{}

/// A dereference is looked up whether or not a document is found; what has no reference is not.
pub fn each_dereference_is_looked_up()
    ensures { EachDereference }
{}

/// A filter of `*` is looked up by its key, and what it looks up itself is looked up for the
/// documents of the key; without a key all documents are.
pub fn filters_are_looked_up_by_keys()
    ensures { FiltersByKeys }
{}

/// A right side is not looked at where the left one decides.
pub fn nothing_behind_what_decides()
    ensures { DecidedAlready }
{}

/// `coalesce` and `select` look at no argument behind the one that counts, nor at values that are
/// not taken; an entry under a condition is looked at where this is true.
pub fn only_arguments_that_count()
    ensures { ArgumentsThatCount }
{}

/// What is mapped looks up for each element in order, an order for the keys of each, and `path` for
/// its pattern.
pub fn each_element_is_looked_at()
    ensures { EachElement }
{}
